//! Places as the source presumes them to be.
ghost use Rattle.std.specs.Prelude.{◌≡◌, ◌++◌, ◌≤◌, All, IfErr, OnOk};
ghost use Rattle.srcset.specs.declared.refusal.Refusal.TheVariants.{Memory};
ghost use Rattle.pp.specs.Held.{presumed_of};
ghost use Rattle.pp.specs.inside.Stepping.{IsNear, presumed_by, placed};

use phases::PpToken;
use srcset::{Pos, Refusal};
use std::marker::Model;

/// A line that a `#line` may give, at most 2,147,483,647.
#[derive(Clone, Copy)]
pub struct GivenLine {
    number: u32,
}

impl Model for GivenLine {
    ghost use Rattle.std.specs.Prelude.{ℕ, ◌≤◌};

    ghost Value = { ℕ };

    ghost view = { λ l. l.number };

    ghost invariant = { λ l. l.number ≤ 2147483647 };

    ghost inverse = { λ n. record { number = n } };
}

impl GivenLine {
    /// The line with this number.
    pub fn new(number: u32) -> GivenLine
        requires { number ≤ 2147483647 }
        ensures { result ≡ number }
    {
        GivenLine { number }
    }

    /// Its number.
    pub fn get(self) -> u32
        ensures value { result ≡ self }
        ensures range { result ≤ 2147483647 }
    {
        self.number
    }
}

/// How places are presumed (ISO/IEC 9899:2011 6.10.4): after the physical line `behind` as `line` and those after it, of
/// the file with this number of `Names`.
#[derive(Clone, Copy)]
pub struct Presumed {
    pub behind: u32,
    pub line: GivenLine,
    pub file: usize,
}

impl Presumed {
    /// Places are the physical ones of a file.
    pub fn physical(file: usize) -> Presumed
        ensures { result ≡ record { behind = 0; line = 1; file = file } }
    {
        Presumed {
            behind: 0,
            line: GivenLine::new(1),
            file,
        }
    }

    /// The place that a physical one is presumed to be.
    pub fn place(self, pos: Pos) -> Pos
        requires { pos.line ≤ 1048577 }
        ensures { result ≡ presumed_by (presumed_of self) pos }
    {
        let further = pos.line.saturating_sub(self.behind).saturating_sub(1);
        Pos {
            file: self.file,
            line: further + self.line.get(),
        }
    }

    /// Appends the tokens, each at its presumed place.
    pub fn put<'a>(self, line: &[PpToken<'a>], tokens: &mut Vec<PpToken<'a>>) -> Result<(), Refusal>
        requires { All IsNear line.now }
        ensures ok { OnOk result (tokens.new.items ≡ tokens.old.items ++ placed (presumed_of self) line.now) }
        ensures err { IfErr result (λ refusal. refusal ≡ Memory) }
    {
        for token in line {
            let pos = self.place(token.pos());
            tokens.push(token.copy_at(token.space_before(), pos)?)?;
        }
        Ok(())
    }
}
