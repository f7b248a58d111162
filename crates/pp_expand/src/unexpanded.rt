//! Tokens whose macros are still to be replaced.
ghost use Rattle.std.specs.Prelude.{◌≡◌, [], ◌∷◌, ◌++◌, IfOk, IfErr, OnOk};
ghost use Rattle.srcset.specs.declared.refusal.Refusal.TheVariants.{Memory};
ghost use Rattle.pp_expand.specs.inside.Unhidden.{IsUnhidden};

use macros_substitution::{HiddenToken, HideSet};
use phases::PpToken;
use srcset::Refusal;
use std::alloc::Global;
use std::collections::VecDeque;
use std::marker::Model;

/// Tokens whose macros are still to be replaced. None of them hides a name; each has room for its hide set, so that the
/// expansion begins with the tokens as they were gathered, and copies none.
#[derive(Drop)]
pub struct Unexpanded<'a> {
    tokens: Vec<HiddenToken<'a>>,
}

impl<'a> Model for Unexpanded<'a> {
    ghost use Rattle.std.specs.Prelude.{List, map};
    ghost use Rattle.phases.specs.Token.{Token};
    ghost use Rattle.pp_expand.specs.inside.Unhidden.{IsUnhidden};

    ghost Value = { List Token };

    ghost view = { λ u. map (λ x. x.token) u.tokens.items };

    ghost invariant = { λ u. IsUnhidden (map (λ x. x.token) u.tokens.items) u.tokens.items };
}

impl<'a> Unexpanded<'a> {
    /// No token.
    pub fn new(alloc: Global) -> Unexpanded<'a>
        ensures { result ≡ [] }
    {
        Unexpanded {
            tokens: Vec::new(alloc),
        }
    }

    /// The tokens of a list once more.
    pub fn copy_of(alloc: Global, list: &[PpToken<'a>]) -> Result<Unexpanded<'a>, Refusal>
        ensures ok { IfOk result (λ copy. copy ≡ list.now) }
        ensures err { IfErr result (λ refusal. refusal ≡ Memory) }
    {
        let mut copy = Unexpanded::new(alloc);
        copy.reserve(list.len())?;
        for token in list {
            copy.push(token.copy()?)?;
        }
        Ok(copy)
    }

    /// Appends a token.
    #[inline(always)]
    pub fn push(&mut self, token: PpToken<'a>) -> Result<(), Refusal>
        ensures ok { OnOk result (self.new ≡ self.old ++ token.entry ∷ []) }
        ensures err { IfErr result (λ refusal. refusal ≡ Memory) }
    {
        self.tokens.push(HiddenToken {
            token,
            hides: HideSet::empty(),
        })?;
        Ok(())
    }

    /// Reserves room for `additional` more tokens.
    pub fn reserve(&mut self, additional: usize) -> Result<(), Refusal>
        ensures same { self.new ≡ self.old }
        ensures err { IfErr result (λ refusal. refusal ≡ Memory) }
    {
        self.tokens.reserve(additional)?;
        Ok(())
    }

    /// The tokens with their hide sets, which are empty.
    pub(crate) fn into_hidden(self) -> VecDeque<HiddenToken<'a>>
        ensures { IsUnhidden self.entry result.items }
    {
        VecDeque::from(self.tokens)
    }
}
