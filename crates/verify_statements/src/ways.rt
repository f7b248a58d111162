//! How a statement may be left (6.8.6).

ghost use Rattle.std.specs.Prelude.{◌≡◌, IfOk, None};
ghost use Rattle.verify_logic.specs.Statements.{WaysImply, only_normal};
ghost use Rattle.verify_expressions.specs.Views.{state_of};
ghost use Rattle.verify_statements.specs.Ways.{ways_of};

use std::alloc::Global;
use verify_expressions::{AbsState, Stop, joined};
use verify_intervals::{either, initialised, nothing};
use verify_logic::AbsValue;

/// The state after a statement, by how it is left, and the value that a `return` in it gives.
#[derive(Drop)]
pub struct Left {
    pub normal: AbsState,
    pub broken: AbsState,
    pub continued: AbsState,
    pub returned: AbsState,
    pub value: AbsValue,
}

/// The value if there is no `return`.
pub fn no_return() -> AbsValue {
    initialised(nothing())
}

/// Left only normally.
pub fn only(normal: AbsState) -> Left
    ensures { ways_of result ≡ only_normal result.value (state_of normal) }
{
    Left {
        normal,
        broken: AbsState { objects: None },
        continued: AbsState { objects: None },
        returned: AbsState { objects: None },
        value: no_return(),
    }
}

/// The state if a statement is left in one of two ways.
///
/// Errors: memory ran out.
pub fn joined_ways(alloc: Global, a: Left, b: Left) -> Result<Left, Stop>
    ensures first { IfOk result (λ r. WaysImply (ways_of a) (ways_of r)) }
    ensures second { IfOk result (λ r. WaysImply (ways_of b) (ways_of r)) }
{
    let normal = joined(alloc, a.normal, b.normal)?;
    let broken = joined(alloc, a.broken, b.broken)?;
    let continued = joined(alloc, a.continued, b.continued)?;
    let returned = joined(alloc, a.returned, b.returned)?;
    let value = either(a.value, b.value);
    Ok(Left {
        normal,
        broken,
        continued,
        returned,
        value,
    })
}
