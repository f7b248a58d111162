//! What a value implies by whether it is zero.

ghost use Rattle.std.specs.Prelude.{IfOk};
ghost use Rattle.verify_logic.specs.Places.{NonZero, Splits, Zero};
ghost use Rattle.verify_expressions.specs.Views.{state_of};

use crate::expressions::Evaluated;
use crate::objects::copied;
use crate::state::AbsState;
use crate::stop::Stop;
use std::alloc::Global;
use verify_intervals::{is_nonzero, is_zero};
use verify_logic::Interval;

/// The state after a value that is not zero, and after zero.
#[derive(Drop)]
pub struct Tested {
    pub on: AbsState,
    pub off: AbsState,
}

fn on_part(alloc: Global, i: Interval, state: &AbsState) -> Result<AbsState, Stop>
    ensures { IfOk result (λ r. NonZero i (state_of state.now) (state_of r)) }
{
    if is_zero(i) {
        return Ok(AbsState { objects: None });
    }
    copied(alloc, state)
}

fn off_part(i: Interval, state: AbsState) -> AbsState
    ensures { Zero i (state_of state) (state_of result) }
{
    if is_nonzero(i) {
        return AbsState { objects: None };
    }
    state
}

/// Splits a state by the value.
///
/// Errors: memory ran out.
pub fn split(alloc: Global, v: Evaluated) -> Result<Tested, Stop>
    ensures { IfOk result (λ r. Splits v.interval (state_of v.state) (state_of r.on) (state_of r.off)) }
{
    let on = on_part(alloc, v.interval, &v.state)?;
    let off = off_part(v.interval, v.state);
    Ok(Tested { on, off })
}
