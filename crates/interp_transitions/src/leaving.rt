//! How a frame continues with the result that it waited for. A result that it did not wait for goes on to the next one.

ghost use Rattle.std.specs.Prelude.{◌≡◌, Ok};
ghost use Rattle.interp_store.specs.View.{reference_of};
ghost use Rattle.interp_store.specs.layer.Agrees.{Takes};
ghost use Rattle.interp_store.specs.layer.Steps.{left, left_by_flow, left_by_place, left_by_value, left_initialised};
ghost use Rattle.interp_store.specs.layer.Views.{flow_frame, flow_of, found_of, frame_of};
ghost use Rattle.interp_store.specs.declared.frames.Step.TheVariants as step;
ghost use Rattle.interp_transitions.specs.Acts.{Acts};

use crate::returning::come_back;
use interp_steps::conditions::leave_control;
use interp_steps::flows::{after_switch, after_turn, next};
use interp_steps::initialisers::leave_initialiser;
use interp_steps::loops::look_after;
use interp_store::Reference;
use interp_store::frames::{Flow, FlowFrame, Found, Frame, Step};
use interp_store::machine::Machine;
use interp_store::operands::{leave_operand, leave_place};
use interp_store::stop::Stop;

/// It is found, without further steps.
fn passed_on<'p>(found: Found) -> Result<Step<'p>, Stop>
    ensures { result ≡ Ok (step.Leaves found) }
{
    Ok(Step::Leaves(found))
}

/// How a frame continues with a value.
///
/// Errors: why there is no next step.
fn leave_value<'p>(machine: &mut Machine<'p>, frame: Frame<'p>, v: i64) -> Result<Step<'p>, Stop>
    ensures takes { Takes (λ p s. left_by_value p (frame_of frame.entry) v s) machine.old result machine.new }
    ensures program { machine.new.program ≡ machine.old.program }
{
    match frame {
        Frame::Operand(f) => leave_operand(machine, f, v),
        Frame::Control(f) => leave_control(machine, f, v),
        Frame::Place(_) => passed_on(Found::Value(v)),
        Frame::Flow(_) => passed_on(Found::Value(v)),
        Frame::Initialiser(_) => passed_on(Found::Value(v)),
    }
}

/// How a frame continues with a place.
///
/// Errors: why there is no next step.
fn leave_found_place<'p>(
    machine: &mut Machine<'p>,
    frame: Frame<'p>,
    r: Reference,
) -> Result<Step<'p>, Stop>
    ensures takes { Takes (λ p s. left_by_place p (frame_of frame.entry) (reference_of r) s) machine.old result machine.new }
    ensures program { machine.new.program ≡ machine.old.program }
{
    match frame {
        Frame::Place(f) => leave_place(machine, f, r),
        Frame::Operand(_) => passed_on(Found::Place(r)),
        Frame::Control(_) => passed_on(Found::Place(r)),
        Frame::Flow(_) => passed_on(Found::Place(r)),
        Frame::Initialiser(_) => passed_on(Found::Place(r)),
    }
}

/// How a frame that waits for a statement continues when it is left (6.8.6).
///
/// Errors: why there is no next step.
fn leave_statement<'p>(
    machine: &mut Machine<'p>,
    frame: FlowFrame<'p>,
    flow: Flow,
) -> Result<Step<'p>, Stop>
    ensures acts { Acts (λ p s. left_by_flow p (flow_frame frame.entry) (flow_of flow) s) machine.old result machine.new }
    ensures program { machine.new.program ≡ machine.old.program }
{
    match frame {
        FlowFrame::Returns(r) => come_back(machine, r, flow),
        FlowFrame::Rest(objects, more) => next(machine, objects, more, flow),
        FlowFrame::InSwitch => after_switch(machine, flow),
        FlowFrame::Turn(l) => after_turn(machine, l, flow),
        FlowFrame::ForStarts(start, l) => look_after(machine, start, l),
    }
}

/// How a frame continues when a statement is left (6.8.6).
///
/// Errors: why there is no next step.
fn leave_flow<'p>(machine: &mut Machine<'p>, frame: Frame<'p>, flow: Flow) -> Result<Step<'p>, Stop>
    ensures acts { Acts (λ p s. left_by_flow p (frame_of frame.entry) (flow_of flow) s) machine.old result machine.new }
    ensures program { machine.new.program ≡ machine.old.program }
{
    match frame {
        Frame::Flow(f) => leave_statement(machine, f, flow),
        Frame::Place(_) => passed_on(Found::Flow(flow)),
        Frame::Operand(_) => passed_on(Found::Flow(flow)),
        Frame::Control(_) => passed_on(Found::Flow(flow)),
        Frame::Initialiser(_) => passed_on(Found::Flow(flow)),
    }
}

/// How a frame continues once a first value is given.
///
/// Errors: why there is no next step.
fn leave_given<'p>(machine: &mut Machine<'p>, frame: Frame<'p>) -> Result<Step<'p>, Stop>
    ensures takes { Takes (λ p s. left_initialised p (frame_of frame.entry) s) machine.old result machine.new }
    ensures program { machine.new.program ≡ machine.old.program }
{
    match frame {
        Frame::Initialiser(f) => leave_initialiser(machine, f),
        Frame::Place(_) => passed_on(Found::Initialised),
        Frame::Operand(_) => passed_on(Found::Initialised),
        Frame::Control(_) => passed_on(Found::Initialised),
        Frame::Flow(_) => passed_on(Found::Initialised),
    }
}

/// How a frame continues with the place found.
///
/// Errors: why there is no next step.
pub fn leave<'p>(
    machine: &mut Machine<'p>,
    frame: Frame<'p>,
    found: Found,
) -> Result<Step<'p>, Stop>
    ensures acts { Acts (λ p s. left p (frame_of frame.entry) (found_of found) s) machine.old result machine.new }
    ensures program { machine.new.program ≡ machine.old.program }
{
    match found {
        Found::Value(v) => leave_value(machine, frame, v),
        Found::Place(r) => leave_found_place(machine, frame, r),
        Found::Flow(flow) => leave_flow(machine, frame, flow),
        Found::Initialised => leave_given(machine, frame),
    }
}
