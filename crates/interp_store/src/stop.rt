//! Why a run stops.

ghost use Rattle.std.specs.Prelude.{◌≡◌};
ghost use Rattle.interp_store.specs.declared.stop.Stop.TheVariants.{Memory};

use ctypes::Undef;
use srcset::Pos;
use std::alloc::{AllocError, AllocFailed};

/// Why a step was the last one.
#[derive(Clone, Copy, PartialEq, Eq, Debug)]
pub enum Stop {
    /// The program ended with this status (5.1.2.2.3).
    Ended(u8),
    /// Undefined behaviour, at its place (3.4.3).
    Undefined(Undef, Pos),
    /// The host's memory ran out.
    Memory,
}

impl From<AllocError> for Stop {
    ghost from_gives = { λ _ stop. stop ≡ Memory };

    fn from(_error: AllocError) -> Stop {
        Stop::Memory
    }
}

impl<T: Drop> From<AllocFailed<T>> for Stop {
    ghost from_gives = { λ _ stop. stop ≡ Memory };

    fn from(_error: AllocFailed<T>) -> Stop {
        Stop::Memory
    }
}
