//! The step of a statement when a part of it is left (6.8.6).

ghost use Rattle.std.specs.Prelude.{◌≡◌, map};
ghost use Rattle.typed_ast.specs.View.{object_type_of, statement_of, statements_of};
ghost use Rattle.interp_store.specs.layer.Agrees.{Takes};
ghost use Rattle.interp_store.specs.layer.Steps.{left_by_flow};
ghost use Rattle.interp_store.specs.layer.Views.{flow_of, flow_frame};
ghost use Rattle.interp_store.specs.declared.frames.FlowFrame.TheVariants as flows;

use crate::loops::look_after;
use crate::statements::{left, start};
use interp_store::frames::{Flow, Loop, Step};
use interp_store::machine::Machine;
use interp_store::stop::Stop;
use typed_ast::{ObjectType, Statement};

/// The next statement is executed where the statement before it was left normally (6.8p2).
///
/// Errors: memory ran out.
pub fn next<'p>(
    machine: &mut Machine<'p>,
    objects: &'p [ObjectType],
    more: &'p [Statement],
    flow: Flow,
) -> Result<Step<'p>, Stop>
    ensures takes { Takes (λ p s. left_by_flow p (flow_frame (flows.Rest objects.entry more.entry)) (flow_of flow) s) machine.old result machine.new }
    ensures program { machine.new.program ≡ machine.old.program }
{
    match flow {
        Flow::Normal => start(machine, objects, more),
        Flow::Broken => left(Flow::Broken),
        Flow::Continued => left(Flow::Continued),
        Flow::Returned(v) => left(Flow::Returned(v)),
    }
}

/// The end of a `switch`: `break` leaves it (6.8.6.3).
pub fn after_switch<'p>(machine: &mut Machine<'p>, flow: Flow) -> Result<Step<'p>, Stop>
    ensures takes { Takes (λ p s. left_by_flow p (flow_frame flows.InSwitch) (flow_of flow) s) machine.old result machine.new }
    ensures program { machine.new.program ≡ machine.old.program }
{
    match flow {
        Flow::Normal => left(Flow::Normal),
        Flow::Broken => left(Flow::Normal),
        Flow::Continued => left(Flow::Continued),
        Flow::Returned(v) => left(Flow::Returned(v)),
    }
}

/// The end of a turn: the next one, or out of the loop (6.8.6.2, 6.8.6.3).
///
/// Errors: memory ran out.
pub fn after_turn<'p>(machine: &mut Machine<'p>, l: Loop<'p>, flow: Flow) -> Result<Step<'p>, Stop>
    ensures takes { Takes (λ p s. left_by_flow p (flow_frame (flows.Turn l.entry)) (flow_of flow) s) machine.old result machine.new }
    ensures program { machine.new.program ≡ machine.old.program }
{
    match flow {
        Flow::Normal => look_after(machine, l.step, l),
        Flow::Continued => look_after(machine, l.step, l),
        Flow::Broken => left(Flow::Normal),
        Flow::Returned(v) => left(Flow::Returned(v)),
    }
}
