//! Why there is no tree.

ghost use Rattle.std.specs.Prelude.{◌≡◌};
ghost use Rattle.parser_grammar.specs.declared.refusal.Refusal.TheVariants.{Memory};

use srcset::Pos;
use std::alloc::{AllocError, AllocFailed};

/// Why there is no tree.
#[derive(Clone, Copy, PartialEq, Eq, Debug)]
pub enum Refusal {
    /// This number of tokens is left where no tree goes on: with the first of them, or, at 0, at the end.
    Syntax(usize),
    /// With the token at this place a tree becomes too deep.
    Depth(Pos),
    /// No memory.
    Memory,
}

impl From<AllocError> for Refusal {
    ghost from_gives = { λ _ e. e ≡ Memory };

    fn from(_error: AllocError) -> Refusal {
        Refusal::Memory
    }
}

impl<T: Drop> From<AllocFailed<T>> for Refusal {
    ghost from_gives = { λ _ e. e ≡ Memory };

    fn from(_error: AllocFailed<T>) -> Refusal {
        Refusal::Memory
    }
}
