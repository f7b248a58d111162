//! Loops (6.8.5): a test that is left out is true, a step that is left out does nothing.

ghost use Rattle.std.specs.Prelude.{◌≡◌, map, option_map};
ghost use Rattle.typed_ast.specs.View.{object_type_of, statement_of, value_of};
ghost use Rattle.interp_store.specs.layer.Agrees.{Takes};
ghost use Rattle.interp_store.specs.layer.Frames as on;
ghost use Rattle.interp_store.specs.layer.Steps.{waits, looped, looped_after};
ghost use Rattle.interp_store.specs.layer.Views.{control_frame, flow_frame};
ghost use Rattle.interp_store.specs.declared.frames.FlowFrame.TheVariants as flows;

use interp_store::frames::{ControlFrame, FlowFrame, Frame, Loop, Node, Step};
use interp_store::machine::Machine;
use interp_store::stop::Stop;
use typed_ast::Value;

/// A statement that waits for the value of an expression.
///
/// Errors: memory ran out.
#[inline(always)]
pub fn control<'p>(
    machine: &mut Machine<'p>,
    frame: ControlFrame<'p>,
    e: &'p Value,
) -> Result<Step<'p>, Stop>
    ensures takes { Takes (λ p s. waits (control_frame frame.entry) (on.value (value_of e.now)) s) machine.old result machine.new }
    ensures program { machine.new.program ≡ machine.old.program }
{
    machine.wait(Frame::Control(frame), Node::Value(e))
}

/// The body of a loop, for one turn.
///
/// Errors: memory ran out.
pub fn turn<'p>(machine: &mut Machine<'p>, l: Loop<'p>) -> Result<Step<'p>, Stop>
    ensures takes { Takes (λ p s. waits (flow_frame (flows.Turn l.entry))
        (on.statement (map object_type_of l.entry.objects.now) (statement_of l.entry.body.now.value)) s) machine.old result machine.new }
    ensures program { machine.new.program ≡ machine.old.program }
{
    machine.wait(
        Frame::Flow(FlowFrame::Turn(l)),
        Node::Statement(l.objects, l.body),
    )
}

/// The test of a loop, and the next turn.
///
/// Errors: memory ran out.
pub fn look<'p>(machine: &mut Machine<'p>, l: Loop<'p>) -> Result<Step<'p>, Stop>
    ensures takes { Takes (λ p s. looped (map object_type_of l.entry.objects.now) (option_map (λ e. value_of e.now) l.entry.test)
        (statement_of l.entry.body.now.value) (option_map (λ e. value_of e.now) l.entry.step) s) machine.old result machine.new }
    ensures program { machine.new.program ≡ machine.old.program }
{
    match l.test {
        None => turn(machine, l),
        Some(e) => control(machine, ControlFrame::Tests(l), e),
    }
}

/// An expression that may be left out, and then the test.
///
/// Errors: memory ran out.
pub fn look_after<'p>(
    machine: &mut Machine<'p>,
    start: Option<&'p Value>,
    l: Loop<'p>,
) -> Result<Step<'p>, Stop>
    ensures takes { Takes (λ p s. looped_after (map object_type_of l.entry.objects.now) (option_map (λ e. value_of e.now) start.entry)
        (option_map (λ e. value_of e.now) l.entry.test) (statement_of l.entry.body.now.value) (option_map (λ e. value_of e.now) l.entry.step) s) machine.old result machine.new }
    ensures program { machine.new.program ≡ machine.old.program }
{
    match start {
        None => look(machine, l),
        Some(e) => control(machine, ControlFrame::Loops(l), e),
    }
}
