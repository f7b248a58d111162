//! What a frame does with a result, straight from the form in which the stack stores it.

ghost use Rattle.std.specs.Prelude.{◌≡◌, ◌++◌, ◌∷◌, [], IfNone, IfSome};
ghost use Rattle.interp_store.specs.layer.Agrees.{frames_of};
ghost use Rattle.interp_store.specs.layer.Frames as on;
ghost use Rattle.interp_store.specs.layer.Steps.{left};
ghost use Rattle.interp_store.specs.layer.Views.{flow_frame, flow_of, found_of, kept_of};
ghost use Rattle.interp_store.specs.declared.frames.FlowFrame.TheVariants as flows;
ghost use Rattle.interp_store.specs.declared.kept.Kept.TheVariants as kept;
ghost use Rattle.interp_transitions.specs.Acts.{Acts};
ghost use Rattle.cabs.specs.inside.Standing.{is_return};

use crate::state::is_return;
use interp_steps::conditions::leave_control;
use interp_steps::flows::{after_turn, next};
use interp_store::Reference;
use interp_store::frames::{
    Back, ControlFrame, Flow, Found, Frame, Loop, OperandFrame, Return, Step,
};
use interp_store::kept::{Call, Kept, taken};
use interp_store::machine::Machine;
use interp_store::operands::leave_operand;
use interp_store::stop::Stop;
use interp_transitions::leaving::leave;
use interp_transitions::returning::come_back;
use srcset::Pos;

/// Pops the innermost frame as it is stored.
#[inline(always)]
pub fn pop<'p>(machine: &mut Machine<'p>) -> Option<Kept<'p>>
    ensures empty { IfNone result (frames_of machine.old ≡ []) }
    ensures frame { IfSome result (λ kept. frames_of machine.old ≡ frames_of machine.new ++ kept_of kept ∷ []) }
    ensures scene { machine.new.scene ≡ machine.old.scene }
    ensures program { machine.new.program ≡ machine.old.program }
{
    match machine.stack.pop() {
        None => None,
        Some(kept) => Some(kept),
    }
}

/// Whether a frame waits for a call's body.
#[inline(always)]
pub fn is_call(kept: &Kept<'_>) -> bool
    ensures { result ≡ is_return (kept_of kept.now) }
{
    match kept {
        Kept::Returns(_) => true,
        Kept::Other(frame) => is_return(frame),
        Kept::Indexes(_, _) => false,
        Kept::Reads(_) => false,
        Kept::Assigns(_, _, _) => false,
        Kept::Steps(_) => false,
        Kept::IndexOf(_, _) => false,
        Kept::Stores(_, _, _) => false,
        Kept::Signs(_, _, _) => false,
        Kept::Right(_, _, _, _) => false,
        Kept::Applies(_, _, _, _) => false,
        Kept::AndAlso(_) => false,
        Kept::OrElse(_) => false,
        Kept::TellsTruth => false,
        Kept::Chooses(_, _, _) => false,
        Kept::Converts(_) => false,
        Kept::ThenValue(_) => false,
        Kept::Forgets => false,
        Kept::IfTrue(_, _) => false,
        Kept::IfElse(_, _, _) => false,
        Kept::Tests(_, _, _) => false,
        Kept::TestsStepped(_, _, _, _) => false,
        Kept::Loops(_, _, _) => false,
        Kept::LoopsTested(_, _, _, _) => false,
        Kept::GivesBack(_) => false,
        Kept::Rest(_, _) => false,
        Kept::InSwitch => false,
        Kept::Turn(_, _) => false,
        Kept::TurnTested(_, _, _) => false,
        Kept::TurnStepped(_, _, _) => false,
        Kept::TurnOfBoth(_, _, _, _) => false,
        Kept::Defined => false,
    }
}

/// How any frame continues with a result.
///
/// Errors: why there is no next step.
#[inline(never)]
fn leave_any<'p>(machine: &mut Machine<'p>, kept: Kept<'p>, found: Found) -> Result<Step<'p>, Stop>
    ensures acts { Acts (λ p s. left p (kept_of kept.entry) (found_of found) s) machine.old result machine.new }
    ensures program { machine.new.program ≡ machine.old.program }
{
    leave(machine, taken(machine.alloc, kept), found)
}

/// How a frame continues with a value.
///
/// Errors: why there is no next step.
fn leave_value<'p>(machine: &mut Machine<'p>, kept: Kept<'p>, v: i64) -> Result<Step<'p>, Stop>
    ensures acts { Acts (λ p s. left p (kept_of kept.entry) (on.a_value v) s) machine.old result machine.new }
    ensures program { machine.new.program ≡ machine.old.program }
{
    match kept {
        Kept::Right(at, op, ty, b) => leave_operand(machine, OperandFrame::Right(at, op, ty, b), v),
        Kept::Applies(at, op, ty, a) => leave_operand(
            machine,
            OperandFrame::Applies(at, op, ty, a),
            v,
        ),
        Kept::Converts(ty) => leave_operand(machine, OperandFrame::Converts(ty), v),
        Kept::Forgets => leave_control(machine, ControlFrame::Forgets, v),
        Kept::GivesBack(ty) => leave_control(machine, ControlFrame::GivesBack(ty), v),
        Kept::TestsStepped(objects, test, body, step) => {
            let l = Loop {
                objects,
                test: Some(test),
                body,
                step: Some(step),
            };
            leave_control(machine, ControlFrame::Tests(l), v)
        }
        Kept::LoopsTested(objects, test, body, step) => {
            let l = Loop {
                objects,
                test: Some(test),
                body,
                step: Some(step),
            };
            leave_control(machine, ControlFrame::Loops(l), v)
        }
        Kept::Tests(objects, test, body) => {
            let l = Loop {
                objects,
                test: Some(test),
                body,
                step: None,
            };
            leave_control(machine, ControlFrame::Tests(l), v)
        }
        Kept::IfTrue(objects, a) => leave_control(machine, ControlFrame::IfTrue(objects, a), v),
        Kept::IfElse(objects, a, b) => leave_control(
            machine,
            ControlFrame::IfElse(objects, a, b),
            v,
        ),
        Kept::AndAlso(b) => leave_operand(machine, OperandFrame::AndAlso(b), v),
        Kept::OrElse(b) => leave_operand(machine, OperandFrame::OrElse(b), v),
        Kept::TellsTruth => leave_operand(machine, OperandFrame::TellsTruth, v),
        Kept::Chooses(ty, a, b) => leave_operand(machine, OperandFrame::Chooses(ty, a, b), v),
        Kept::Stores(at, ty, n) => {
            let r = Reference::whole(n);
            leave_operand(machine, OperandFrame::Stores(at, ty, r), v)
        }
        _ => leave_any(machine, kept, Found::Value(v)),
    }
}

/// The end of a call that an expression waits for.
#[inline(always)]
fn return_of(machine: &Machine<'_>, c: Call) -> Return
    ensures { flow_frame (flows.Returns result) ≡ kept_of (kept.Returns c) }
{
    let at = Pos {
        file: c.file,
        line: c.line,
    };
    Return {
        back: Back::ToCaller(at, c.used),
        is_main: c.is_main,
        count: c.count,
        base: c.base,
        arrays: Vec::new(machine.alloc),
    }
}

/// How a frame continues when a statement is left.
///
/// Errors: why there is no next step.
fn leave_flow<'p>(machine: &mut Machine<'p>, kept: Kept<'p>, flow: Flow) -> Result<Step<'p>, Stop>
    ensures acts { Acts (λ p s. left p (kept_of kept.entry) (on.a_flow (flow_of flow)) s) machine.old result machine.new }
    ensures program { machine.new.program ≡ machine.old.program }
{
    match kept {
        Kept::Rest(objects, more) => next(machine, objects, more, flow),
        Kept::Returns(c) => {
            let r = return_of(machine, c);
            come_back(machine, r, flow)
        }
        Kept::TurnOfBoth(objects, test, body, step) => {
            let l = Loop {
                objects,
                test: Some(test),
                body,
                step: Some(step),
            };
            after_turn(machine, l, flow)
        }
        Kept::Turn(objects, body) => {
            let l = Loop {
                objects,
                test: None,
                body,
                step: None,
            };
            after_turn(machine, l, flow)
        }
        Kept::TurnTested(objects, test, body) => {
            let l = Loop {
                objects,
                test: Some(test),
                body,
                step: None,
            };
            after_turn(machine, l, flow)
        }
        Kept::TurnStepped(objects, body, step) => {
            let l = Loop {
                objects,
                test: None,
                body,
                step: Some(step),
            };
            after_turn(machine, l, flow)
        }
        _ => leave_any(machine, kept, Found::Flow(flow)),
    }
}

/// How a frame continues with the result found.
///
/// Errors: why there is no next step.
pub fn leave_kept<'p>(
    machine: &mut Machine<'p>,
    kept: Kept<'p>,
    found: Found,
) -> Result<Step<'p>, Stop>
    ensures acts { Acts (λ p s. left p (kept_of kept.entry) (found_of found) s) machine.old result machine.new }
    ensures program { machine.new.program ≡ machine.old.program }
{
    match found {
        Found::Value(v) => leave_value(machine, kept, v),
        Found::Flow(flow) => leave_flow(machine, kept, flow),
        Found::Place(r) => leave_any(machine, kept, Found::Place(r)),
        Found::Initialised => leave_any(machine, kept, Found::Initialised),
    }
}
