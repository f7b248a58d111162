//! What a function's frame has room for.

ghost use Rattle.std.specs.Prelude.{◌≡◌};
ghost use Rattle.frames_code.specs.Code.{function_of};
ghost use Rattle.frames_opt.specs.inside.Facts as facts_in;

use frames_code::Function;

/// The most temporaries in memory, and the most words, of a frame whose arrays may be within the reach of 12 bits.
const MOST_WORDS: usize = 0x200;

/// The arrays of a function's frame, and whether it has a result.
#[derive(Clone, Copy, Debug)]
pub struct Room {
    /// The bytes of the arrays.
    pub area: usize,
    /// The bytes in front of them, or more than 12 bits reach where there are many.
    pub home: usize,
    /// Whether the function has a result, which its returns read.
    pub gives: bool,
}

/// The arrays of this function's frame, and whether it has a result.
pub fn room_of(function: &Function) -> Room
    ensures { result ≡ facts_in.room_of (function_of function.now) }
{
    let home = if function.outgoing <= MOST_WORDS && function.cells <= MOST_WORDS {
        4 * function.outgoing + 4 + 4 * function.cells
    } else {
        0x1000
    };
    Room {
        area: function.area,
        home,
        gives: function.gives,
    }
}
