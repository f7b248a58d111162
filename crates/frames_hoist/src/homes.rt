//! Where constants are held.

ghost use Rattle.std.specs.Prelude.{◌≡◌, ◌≤◌, ◌+◌};
ghost use Rattle.frames_hoist.specs.layer.Hoisting as hoisting;

use frames_code::{Operand, Target};

/// Places for the constants of a function, from a number on.
#[derive(Clone, Copy)]
pub enum Home {
    /// Words of its frame.
    Words(usize),
    /// Temporaries. A call would lose them.
    Temporaries(usize),
}

/// One of the places, counted from 0, to be read.
pub fn held_in(home: Home, number: usize) -> Operand
    requires { hoisting.first_of home + number ≤ 16 }
    ensures { result ≡ hoisting.held_in home number }
{
    match home {
        Home::Words(first) => Operand::Cell(first + number),
        Home::Temporaries(first) => Operand::Temporary(first + number),
    }
}

/// The same place, to be written.
pub fn put_in(home: Home, number: usize) -> Target
    requires { hoisting.first_of home + number ≤ 16 }
    ensures { result ≡ hoisting.put_in home number }
{
    match home {
        Home::Words(first) => Target::Cell(first + number),
        Home::Temporaries(first) => Target::Temporary(first + number),
    }
}

/// Whether a word of the frame comes before the places, if these are words.
pub fn spares_word(home: Home, number: usize) -> bool
    ensures { result ≡ hoisting.spares_word home number }
{
    match home {
        Home::Words(first) => number < first,
        Home::Temporaries(_) => true,
    }
}

/// Whether a temporary comes before the places, if these are temporaries.
pub fn spares_temporary(home: Home, number: usize) -> bool
    ensures { result ≡ hoisting.spares_temporary home number }
{
    match home {
        Home::Words(_) => true,
        Home::Temporaries(first) => number < first,
    }
}

/// Whether the arrays of the frame stay where they are.
pub fn spares_arrays(home: Home) -> bool
    ensures { result ≡ hoisting.spares_arrays home }
{
    match home {
        Home::Words(_) => false,
        Home::Temporaries(_) => true,
    }
}

/// Whether the constants are still there after a call.
pub fn survives_calls(home: Home) -> bool
    ensures { result ≡ hoisting.survives_calls home }
{
    match home {
        Home::Words(_) => true,
        Home::Temporaries(_) => false,
    }
}
