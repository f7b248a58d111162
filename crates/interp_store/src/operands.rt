//! The step of an expression with the part that it waited for (6.5).

ghost use Rattle.std.specs.Prelude.{◌≡◌, ◌++◌, ◌∷◌, [], List, map, Ok};
ghost use Rattle.typed_ast.specs.View.{callee_of, argument_of, arguments_of, value_of};
ghost use Rattle.interp_store.specs.View.{reference_of};
ghost use Rattle.interp_store.specs.declared.frames.Step.TheVariants as step;
ghost use Rattle.interp_store.specs.declared.frames.Found.TheVariants as found;
ghost use Rattle.interp_store.specs.layer.Frames as on;
ghost use Rattle.interp_store.specs.layer.Agrees.{Takes};
ghost use Rattle.interp_store.specs.layer.Steps.{left_by_place, left_by_value, asked_for};
ghost use Rattle.interp_store.specs.layer.Views.{passed_of, operand_frame, place_frame};

use crate::expressions::{ask, operand};
use crate::frames::{Asked, Found, Node, OperandFrame, Passed, PlaceFrame, Step};
use crate::machine::{Machine, gives_place, gives_value};
use crate::operators::{converted_or_none, is_true, of_truth, operated_at, sign_at};
use crate::reference::Reference;
use crate::stop::Stop;
use ctypes::{IntType, convert};
use typed_ast::Value;

/// One more argument is done (6.5.2.2p4).
fn pass<'p>(
    machine: &mut Machine<'p>,
    mut asked: Asked<'p>,
    passed: Passed,
) -> Result<Step<'p>, Stop>
    ensures takes { Takes (λ p s. asked_for asked.entry.at (callee_of asked.entry.callee) asked.entry.used
        (arguments_of (map argument_of asked.entry.more.now)) (map passed_of asked.entry.before.items ++ passed_of passed ∷ []) s) machine.old result machine.new }
    ensures program { machine.new.program ≡ machine.old.program }
{
    match asked.before.push(passed) {
        Ok(()) => ask(machine, asked),
        Err(_) => Err(Stop::Memory),
    }
}

/// The step of a frame with a place.
pub fn leave_place<'p>(
    machine: &mut Machine<'p>,
    frame: PlaceFrame<'p>,
    r: Reference,
) -> Result<Step<'p>, Stop>
    ensures takes { Takes (λ p s. left_by_place p (place_frame frame.entry) (reference_of r) s) machine.old result machine.new }
    ensures program { machine.new.program ≡ machine.old.program }
{
    match frame {
        PlaceFrame::Indexes(at, index) => operand(machine, OperandFrame::IndexOf(at, r), index),
        PlaceFrame::Reads(at) => gives_value(machine.scene.read(at, &r)),
        PlaceFrame::Assigns(at, ty, e) => operand(machine, OperandFrame::Stores(at, ty, r), e),
        PlaceFrame::Compounds(c, e) => operand(machine, OperandFrame::Combines(c, r), e),
        PlaceFrame::Steps(step) => gives_value(machine.scene.step(machine.program, step, &r)),
        PlaceFrame::ArrayPassed(asked) => pass(machine, asked, Passed::Referred(r)),
    }
}

/// A value without further steps.
fn at_once<'p>(v: i64) -> Result<Step<'p>, Stop>
    ensures { result ≡ Ok (step.Leaves (found.Value v)) }
{
    Ok(Step::Leaves(Found::Value(v)))
}

/// `&&`, whose left operand has this value (6.5.13p4).
fn and_also<'p>(machine: &mut Machine<'p>, b: &'p Value, v: i64) -> Result<Step<'p>, Stop>
    ensures takes { Takes (λ p s. left_by_value p (on.and_also (value_of b.now)) v s) machine.old result machine.new }
    ensures program { machine.new.program ≡ machine.old.program }
{
    if is_true(v) {
        operand(machine, OperandFrame::TellsTruth, b)
    } else {
        at_once(0)
    }
}

/// `||`, whose left operand has this value (6.5.14p4).
fn or_else<'p>(machine: &mut Machine<'p>, b: &'p Value, v: i64) -> Result<Step<'p>, Stop>
    ensures takes { Takes (λ p s. left_by_value p (on.or_else (value_of b.now)) v s) machine.old result machine.new }
    ensures program { machine.new.program ≡ machine.old.program }
{
    if is_true(v) {
        at_once(1)
    } else {
        operand(machine, OperandFrame::TellsTruth, b)
    }
}

/// `?:`, whose first operand has this value (6.5.15p4).
fn choose<'p>(
    machine: &mut Machine<'p>,
    ty: Option<IntType>,
    a: &'p Value,
    b: &'p Value,
    v: i64,
) -> Result<Step<'p>, Stop>
    ensures takes { Takes (λ p s. left_by_value p (on.chooses ty (value_of a.now) (value_of b.now)) v s) machine.old result machine.new }
    ensures program { machine.new.program ≡ machine.old.program }
{
    if is_true(v) {
        operand(machine, OperandFrame::Converts(ty), a)
    } else {
        operand(machine, OperandFrame::Converts(ty), b)
    }
}

/// The step of a frame with a value.
pub fn leave_operand<'p>(
    machine: &mut Machine<'p>,
    frame: OperandFrame<'p>,
    v: i64,
) -> Result<Step<'p>, Stop>
    ensures takes { Takes (λ p s. left_by_value p (operand_frame frame.entry) v s) machine.old result machine.new }
    ensures program { machine.new.program ≡ machine.old.program }
{
    match frame {
        OperandFrame::IndexOf(at, r) => gives_place(
            machine.scene.subscripted(machine.alloc, at, r, v),
        ),
        OperandFrame::Stores(at, ty, r) => gives_value(
            machine.scene.write(machine.program, at, &r, ty, v),
        ),
        OperandFrame::Combines(c, r) => gives_value(
            machine.scene.combine(machine.program, c, &r, v),
        ),
        OperandFrame::Signs(at, op, ty) => gives_value(sign_at(at, op, ty, v)),
        OperandFrame::Right(at, op, ty, b) => operand(
            machine,
            OperandFrame::Applies(at, op, ty, v),
            b,
        ),
        OperandFrame::Applies(at, op, ty, a) => gives_value(operated_at(at, op, ty, a, v)),
        OperandFrame::AndAlso(b) => and_also(machine, b, v),
        OperandFrame::OrElse(b) => or_else(machine, b, v),
        OperandFrame::TellsTruth => at_once(of_truth(is_true(v))),
        OperandFrame::Chooses(ty, a, b) => choose(machine, ty, a, b, v),
        OperandFrame::Converts(ty) => at_once(converted_or_none(ty, v)),
        OperandFrame::ThenValue(b) => Ok(Step::Enters(Node::Value(b))),
        OperandFrame::NumberPassed(ty, asked) => pass(
            machine,
            asked,
            Passed::Number(convert(ty, v)),
        ),
    }
}
