//! The step of a statement with the value that it waited for (6.8).

ghost use Rattle.std.specs.Prelude.{◌≡◌, map, option_map};
ghost use Rattle.ctypes.specs.Types.{converted};
ghost use Rattle.typed_ast.specs.View.{object_type_of, statement_of, value_of};
ghost use Rattle.interp_store.specs.layer.Agrees.{Takes};
ghost use Rattle.interp_store.specs.layer.Steps.{turned, left_by_value};
ghost use Rattle.interp_store.specs.layer.Views.{control_frame};
ghost use Rattle.interp_store.specs.declared.frames.ControlFrame.TheVariants as control;

use crate::loops::{look, turn};
use crate::statements::left;
use ctypes::convert;
use interp_store::frames::{ControlFrame, Flow, Loop, Node, Step};
use interp_store::machine::Machine;
use interp_store::operators::is_true;
use interp_store::stop::Stop;
use typed_ast::{ObjectType, Statement};

/// `if` without `else`, whose expression has this value (6.8.4.1p2).
fn branch<'p>(
    machine: &mut Machine<'p>,
    objects: &'p [ObjectType],
    a: &'p Box<Statement>,
    v: i64,
) -> Result<Step<'p>, Stop>
    ensures takes { Takes (λ p s. left_by_value p (control_frame (control.IfTrue objects.entry a.entry)) v s) machine.old result machine.new }
    ensures program { machine.new.program ≡ machine.old.program }
{
    if is_true(v) {
        Ok(Step::Enters(Node::Statement(objects, a)))
    } else {
        left(Flow::Normal)
    }
}

/// `if` with `else`, whose expression has this value (6.8.4.1p2).
fn branches<'p>(
    machine: &mut Machine<'p>,
    objects: &'p [ObjectType],
    a: &'p Box<Statement>,
    b: &'p Box<Statement>,
    v: i64,
) -> Result<Step<'p>, Stop>
    ensures takes { Takes (λ p s. left_by_value p (control_frame (control.IfElse objects.entry a.entry b.entry)) v s) machine.old result machine.new }
    ensures program { machine.new.program ≡ machine.old.program }
{
    if is_true(v) {
        Ok(Step::Enters(Node::Statement(objects, a)))
    } else {
        Ok(Step::Enters(Node::Statement(objects, b)))
    }
}

/// A loop, whose test has this value (6.8.5p4).
fn turn_if<'p>(machine: &mut Machine<'p>, l: Loop<'p>, v: i64) -> Result<Step<'p>, Stop>
    ensures takes { Takes (λ p s. left_by_value p (control_frame (control.Tests l.entry)) v s) machine.old result machine.new }
    ensures program { machine.new.program ≡ machine.old.program }
{
    if is_true(v) {
        turn(machine, l)
    } else {
        left(Flow::Normal)
    }
}

/// The step of a frame with a value.
///
/// Errors: memory ran out.
pub fn leave_control<'p>(
    machine: &mut Machine<'p>,
    frame: ControlFrame<'p>,
    v: i64,
) -> Result<Step<'p>, Stop>
    ensures takes { Takes (λ p s. left_by_value p (control_frame frame.entry) v s) machine.old result machine.new }
    ensures program { machine.new.program ≡ machine.old.program }
{
    match frame {
        ControlFrame::Gives(ty, r) => Ok(Step::Enters(Node::Element(r, convert(ty, v)))),
        ControlFrame::Forgets => left(Flow::Normal),
        ControlFrame::IfTrue(objects, a) => branch(machine, objects, a, v),
        ControlFrame::IfElse(objects, a, b) => branches(machine, objects, a, b, v),
        ControlFrame::Switches(ty, block) => Ok(Step::Enters(Node::SwitchBlock(
            convert(ty, v),
            block,
        ))),
        ControlFrame::Tests(l) => turn_if(machine, l, v),
        ControlFrame::Loops(l) => look(machine, l),
        ControlFrame::GivesBack(ty) => left(Flow::Returned(Some(convert(ty, v)))),
    }
}
