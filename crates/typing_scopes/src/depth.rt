//! How deep a block is in others.

ghost use Rattle.std.specs.Prelude.{◌≡◌, ◌+◌, IfOk};

use std::alloc::AllocError;
use std::marker::Model;

/// How deep a block is, 0 being the file.
#[derive(Clone, Copy)]
pub(crate) struct Depth {
    levels: usize,
}

impl Model for Depth {
    ghost use Rattle.std.specs.Prelude.{ℕ, ◌<◌, ◌^◌};

    ghost Value = { ℕ };

    ghost view = { λ d. d.levels };

    ghost invariant = { λ d. d.levels < 2 ^ 63 };

    ghost inverse = { λ n. record { levels = n } };
}

impl Depth {
    /// That of the file.
    pub(crate) fn file() -> Depth
        ensures { result ≡ 0 }
    {
        Depth { levels: 0 }
    }

    /// The number of levels.
    pub(crate) fn get(self) -> usize
        ensures { result ≡ self }
    {
        self.levels
    }

    /// One level deeper. `room` has a byte for each level so far, and grows to one for this level too.
    pub(crate) fn deeper(self, room: &mut Vec<u8>) -> Result<Depth, AllocError>
        ensures { IfOk result (λ d. d ≡ self + 1) }
    {
        let levels = self.levels + 1;
        if room.len() < levels {
            room.resize(levels, 0)?;
        }
        Ok(Depth { levels })
    }
}
