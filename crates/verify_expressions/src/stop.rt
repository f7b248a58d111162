//! Why an analysis stops.

use crate::state::Known;
use ctypes::Undef;
use srcset::Pos;
use verify_logic::{ArrayArgument, Interval};

/// Undefined behaviour that is not ruled out.
#[derive(Clone, Copy, PartialEq, Eq, Debug)]
pub struct Alarm {
    /// The place of the operator, the name or the `[`.
    pub at: Pos,
    /// The kind that it most likely is.
    pub act: Undef,
    /// The numbers that may be wrong: the interval of the divisor, the count, the subscript or the result.
    pub interval: Interval,
}

/// A call that was not analysed yet.
#[derive(Drop)]
pub struct Wanted {
    /// The number of the function.
    pub function: usize,
    /// The lengths of each object that lives before the call.
    pub outer: Vec<Vec<u32>>,
    /// The referents of the array parameters.
    pub arrays: Vec<ArrayArgument>,
    /// The facts about all objects as the call begins.
    pub entry: Known,
}

/// Why an analysis stops. None of these claims that the program is wrong.
#[derive(Drop)]
pub enum Stop {
    /// Memory ran out.
    Memory,
    Alarm(Alarm),
    Wanted(Wanted),
    /// Something that cannot be analysed, near this place.
    Unfollowed(Option<Pos>),
}
