//! What the temporaries of the new code hold, beside those of the old code.

ghost use Rattle.std.specs.Prelude.{◌≡◌};
ghost use Rattle.frames_opt.specs.inside.Sweep as sweep;

use crate::facts::Known;
use frames_code::Base;

/// What a temporary of the new code holds.
#[derive(Clone, Copy, Debug)]
pub enum Status {
    /// The same as that of the old code.
    Same,
    /// Anything: it is written before it is read on all ways.
    Dead,
    /// The number of an element, in place of the reference to it.
    Index { base: Base, size: usize },
}

/// Whether a temporary holds what that of the old code does.
pub fn is_same(status: Status) -> bool
    ensures { result ≡ sweep.is_same status }
{
    match status {
        Status::Same => true,
        Status::Dead => false,
        Status::Index { .. } => false,
    }
}

fn is_same_base(base: Base, other: Base) -> bool
    ensures { result ≡ sweep.is_same_base base other }
{
    match base {
        Base::Statics(offset) => match other {
            Base::Statics(second) => offset == second,
            Base::Frame(_) => false,
        },
        Base::Frame(offset) => match other {
            Base::Statics(_) => false,
            Base::Frame(second) => offset == second,
        },
    }
}

/// Whether a temporary of this status may be of the other.
pub fn accepts(status: Status, other: Status) -> bool
    ensures { result ≡ sweep.accepts status other }
{
    match status {
        Status::Dead => true,
        Status::Same => match other {
            Status::Same => true,
            Status::Dead => false,
            Status::Index { .. } => false,
        },
        Status::Index { base, size } => match other {
            Status::Same => false,
            Status::Dead => false,
            Status::Index {
                base: second,
                size: width,
            } => is_same_base(base, second) && size == width,
        },
    }
}

/// The status of a temporary that keeps the index of an element.
pub fn index_of(known: Known) -> Status
    ensures { result ≡ sweep.index_of known }
{
    match known {
        Known::Unknown => Status::Same,
        Known::Word(_) => Status::Same,
        Known::Statics(_) => Status::Same,
        Known::Frame(_) => Status::Same,
        Known::Indexed { base, size, .. } => Status::Index { base, size },
    }
}
