//! Text lines with no directive between.
ghost use Rattle.std.specs.Prelude.{◌≡◌, ◌++◌, true, false, [], All, IfErr, OnOk};
ghost use Rattle.srcset.specs.declared.refusal.Refusal.TheVariants.{Memory};
ghost use Rattle.pp.specs.Held.{presumed_of};
ghost use Rattle.pp.specs.inside.Stepping.{IsNear, placed, behind_line};

use crate::places::Presumed;
use phases::PpToken;
use pp_expand::Unexpanded;
use srcset::Refusal;
use std::alloc::Global;
use std::mem;

// Appends the tokens, each at its presumed place.
fn gather<'a>(
    line: &[PpToken<'a>],
    presumed: Presumed,
    tokens: &mut Unexpanded<'a>,
) -> Result<(), Refusal>
    requires { All IsNear line.now }
    ensures ok { OnOk result (tokens.new ≡ tokens.old ++ placed (presumed_of presumed) line.now) }
    ensures err { IfErr result (λ refusal. refusal ≡ Memory) }
{
    for token in line {
        let pos = presumed.place(token.pos());
        tokens.push(token.copy_at(token.space_before(), pos)?)?;
    }
    Ok(())
}

/// The tokens of the text lines since the last directive, at their presumed places.
#[derive(Drop)]
pub struct Run<'a> {
    /// Whether there was such a line; it may have no token.
    pub begun: bool,
    pub tokens: Unexpanded<'a>,
}

impl<'a> Run<'a> {
    /// No line.
    pub fn new(alloc: Global) -> Run<'a>
        ensures begun { result.begun ≡ false }
        ensures tokens { result.tokens ≡ [] }
    {
        Run {
            begun: false,
            tokens: Unexpanded::new(alloc),
        }
    }

    /// Appends a line. A newline between two lines is white space (ISO/IEC 9899:2011 6.10.3p10).
    pub fn put_line(&mut self, line: &[PpToken<'a>], presumed: Presumed) -> Result<(), Refusal>
        requires { All IsNear line.now }
        ensures begun { self.new.begun ≡ true }
        ensures ok { OnOk result (self.new.tokens ≡ self.old.tokens ++ placed (presumed_of presumed) (behind_line self.old.begun line.now)) }
        ensures err { IfErr result (λ refusal. refusal ≡ Memory) }
    {
        let later = self.begun;
        self.begun = true;
        let [first, further @ ..] = line else {
            return Ok(());
        };
        let pos = presumed.place(first.pos());
        let space_before = later || first.space_before();
        self.tokens.push(first.copy_at(space_before, pos)?)?;
        gather(further, presumed, &mut self.tokens)
    }

    /// Its tokens. It begins anew, with no line.
    pub fn take(&mut self, alloc: Global) -> Unexpanded<'a>
        ensures result { result ≡ self.old.tokens }
        ensures begun { self.new.begun ≡ false }
        ensures tokens { self.new.tokens ≡ [] }
    {
        self.begun = false;
        mem::replace(&mut self.tokens, Unexpanded::new(alloc))
    }
}
