//! Expressions after their tick, and the frames that wait for their parts (6.5).

ghost use Rattle.std.specs.Prelude.{◌≡◌, List, map};
ghost use Rattle.typed_ast.specs.View.{place_of, value_of, callee_of, argument_of, arguments_of};
ghost use Rattle.interp_store.specs.layer.Agrees.{Takes};
ghost use Rattle.csem.specs.Expressions as meaning;
ghost use Rattle.interp_store.specs.layer.Frames as on;
ghost use Rattle.interp_store.specs.layer.Steps.{waits, behind, entered_place, entered_value, asked_for};
ghost use Rattle.interp_store.specs.layer.Views.{passed_of, operand_frame, place_frame};

use crate::frames::{
    Asked, Compound, Found, Frame, Node, OperandFrame, PlaceFrame, Step, Stepping,
};
use crate::machine::{Machine, gives_place};
use crate::stop::Stop;
use srcset::Pos;
use typed_ast::{Argument, Place, Value};

/// The place in the source of an element that is read: its name or its `[`.
fn position_of(place: &Place) -> Pos
    ensures { result ≡ meaning.position_of (place_of place.now) }
{
    match place {
        Place::Named(at, _) => *at,
        Place::Element(at, _, _) => *at,
    }
}

/// A place, after its tick (6.3.2.1, 6.5.1, 6.5.2.1).
pub fn enter_place<'p>(machine: &mut Machine<'p>, place: &'p Place) -> Result<Step<'p>, Stop>
    ensures takes { Takes (λ p s. entered_place p (place_of place.now) s) machine.old result machine.new }
    ensures program { machine.new.program ≡ machine.old.program }
{
    match place {
        Place::Named(_, what) => {
            let found = machine
                .scene
                .designated(machine.alloc, machine.program, *what);
            gives_place(found)
        }
        Place::Element(at, array, index) => {
            let frame = PlaceFrame::Indexes(*at, index);
            machine.wait(Frame::Place(frame), Node::Place(array))
        }
    }
}

/// The next argument of a call, or the call (6.5.2.2).
pub fn ask<'p>(machine: &mut Machine<'p>, asked: Asked<'p>) -> Result<Step<'p>, Stop>
    ensures takes { Takes (λ p s. asked_for asked.entry.at (callee_of asked.entry.callee) asked.entry.used
        (arguments_of (map argument_of asked.entry.more.now)) (map passed_of asked.entry.before.items) s) machine.old result machine.new }
    ensures program { machine.new.program ≡ machine.old.program }
{
    let Asked {
        at,
        callee,
        used,
        more,
        before,
    } = asked;
    match more.split_first() {
        None => Ok(Step::Calls(at, callee, used, before)),
        Some((Argument::Number(ty, e), more)) => {
            let frame = OperandFrame::NumberPassed(
                *ty,
                Asked {
                    at,
                    callee,
                    used,
                    more,
                    before,
                },
            );
            machine.wait(Frame::Operand(frame), Node::Value(e))
        }
        Some((Argument::Array(a), more)) => {
            let frame = PlaceFrame::ArrayPassed(Asked {
                at,
                callee,
                used,
                more,
                before,
            });
            machine.wait(Frame::Place(frame), Node::Place(a))
        }
    }
}

/// An expression that waits for the value of a part.
#[inline(always)]
pub fn operand<'p>(
    machine: &mut Machine<'p>,
    frame: OperandFrame<'p>,
    part: &'p Value,
) -> Result<Step<'p>, Stop>
    ensures takes { Takes (λ p s. waits (operand_frame frame.entry) (on.value (value_of part.now)) s) machine.old result machine.new }
    ensures program { machine.new.program ≡ machine.old.program }
{
    machine.wait(Frame::Operand(frame), Node::Value(part))
}

/// An expression that waits for a place.
#[inline(always)]
fn assignment<'p>(
    machine: &mut Machine<'p>,
    frame: PlaceFrame<'p>,
    part: &'p Place,
) -> Result<Step<'p>, Stop>
    ensures takes { Takes (λ p s. waits (place_frame frame.entry) (on.place (place_of part.now)) s) machine.old result machine.new }
    ensures program { machine.new.program ≡ machine.old.program }
{
    machine.wait(Frame::Place(frame), Node::Place(part))
}

/// The value of an element, after its tick (6.3.2.1p2).
fn enter_read<'p>(machine: &mut Machine<'p>, place: &'p Place) -> Result<Step<'p>, Stop>
    ensures takes { Takes (λ p s. behind (on.reads (meaning.position_of (place_of place.now))) (entered_place p (place_of place.now) s)) machine.old result machine.new }
    ensures program { machine.new.program ≡ machine.old.program }
{
    match machine.push(Frame::Place(PlaceFrame::Reads(position_of(place)))) {
        Ok(()) => enter_place(machine, place),
        Err(stop) => Err(stop),
    }
}

/// An expression, after its tick (6.5).
pub fn enter_value<'p>(machine: &mut Machine<'p>, e: &'p Value) -> Result<Step<'p>, Stop>
    ensures takes { Takes (λ p s. entered_value p (value_of e.now) s) machine.old result machine.new }
    ensures program { machine.new.program ≡ machine.old.program }
{
    match e {
        Value::Constant(_, v) => Ok(Step::Leaves(Found::Value(*v))),
        Value::Read(_, a) => enter_read(machine, a),
        Value::Assigned(at, ty, a, e) => assignment(machine, PlaceFrame::Assigns(*at, *ty, e), a),
        Value::Compound(at, op, ty, of, a, e) => {
            let c = Compound {
                at: *at,
                op: *op,
                ty: *ty,
                of: *of,
                read_at: position_of(a),
            };
            assignment(machine, PlaceFrame::Compounds(c, e), a)
        }
        Value::Stepped(at, moment, op, ty, of, a) => {
            let step = Stepping {
                at: *at,
                moment: *moment,
                op: *op,
                ty: *ty,
                of: *of,
                read_at: position_of(a),
            };
            assignment(machine, PlaceFrame::Steps(step), a)
        }
        Value::Unary(at, op, ty, e) => operand(machine, OperandFrame::Signs(*at, *op, *ty), e),
        Value::Binary(at, op, ty, a, b) => operand(
            machine,
            OperandFrame::Right(*at, *op, *ty, b),
            a,
        ),
        Value::BothTrue(a, b) => operand(machine, OperandFrame::AndAlso(b), a),
        Value::OneTrue(a, b) => operand(machine, OperandFrame::OrElse(b), a),
        Value::Chosen(ty, c, a, b) => operand(machine, OperandFrame::Chooses(*ty, a, b), c),
        Value::Sequence(a, b) => operand(machine, OperandFrame::ThenValue(b), a),
        Value::Cast(ty, e) => operand(machine, OperandFrame::Converts(Some(*ty)), e),
        Value::Discarded(e) => operand(machine, OperandFrame::Converts(None), e),
        Value::Call(at, callee, _, used, arguments) => {
            let before = Vec::new(machine.alloc);
            ask(
                machine,
                Asked {
                    at: *at,
                    callee: *callee,
                    used: *used,
                    more: arguments.as_slice(),
                    before,
                },
            )
        }
    }
}
