//! The arguments of a call.

ghost use Rattle.std.specs.Prelude.{◌≡◌, ◌∷◌, [], IfOk};
ghost use Rattle.verify_expressions.specs.Views.{state_of};

use crate::state::AbsState;
use crate::stop::Stop;
use std::alloc::Global;
use verify_logic::{ArrayArgument, Interval};

/// The intervals of the numeric arguments, the referents of the array parameters, and the state after all arguments are evaluated.
#[derive(Drop)]
pub struct Passed {
    pub intervals: Vec<Interval>,
    pub arrays: Vec<ArrayArgument>,
    pub state: AbsState,
}

/// One number.
///
/// Errors: memory ran out.
pub fn one_number(alloc: Global, i: Interval, state: AbsState) -> Result<Passed, Stop>
    ensures intervals { IfOk result (λ r. r.intervals.items ≡ i ∷ []) }
    ensures arrays { IfOk result (λ r. r.arrays.items ≡ []) }
    ensures state { IfOk result (λ r. state_of r.state ≡ state_of state) }
{
    let mut intervals = Vec::new(alloc);
    let Ok(()) = intervals.push(i) else {
        return Err(Stop::Memory);
    };
    Ok(Passed {
        intervals,
        arrays: Vec::new(alloc),
        state,
    })
}

/// One array.
///
/// Errors: memory ran out.
pub fn one_array(alloc: Global, a: ArrayArgument, state: AbsState) -> Result<Passed, Stop>
    ensures intervals { IfOk result (λ r. r.intervals.items ≡ []) }
    ensures arrays { IfOk result (λ r. r.arrays.items ≡ a ∷ []) }
    ensures state { IfOk result (λ r. state_of r.state ≡ state_of state) }
{
    let mut arrays = Vec::new(alloc);
    let Ok(()) = arrays.push(a) else {
        return Err(Stop::Memory);
    };
    Ok(Passed {
        intervals: Vec::new(alloc),
        arrays,
        state,
    })
}
