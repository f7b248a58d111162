//! How many instructions the code of expressions has.

ghost use Rattle.std.specs.Prelude.{◌≡◌, map};
ghost use Rattle.typed_ast.specs.View.{place_of, value_of, argument_of, arguments_of, callee_of, moment_of, number_given};
ghost use Rattle.typing_spec.specs.Program as typed;
ghost use Rattle.lower_correct.specs.Values as values;
ghost use Rattle.srcset.specs.declared.refusal.Pos.{Pos};
ghost use Rattle.ctypes.specs.declared.types.IntType.{IntType};
ghost use Rattle.tree.specs.declared.expression.PrefixOp.TheVariants as prefix;
ghost use Rattle.lower_ops.specs.declared.modes.Shape.TheVariants as shape;
ghost use Rattle.lower_ops.specs.layer.Parts as parts;
ghost use Rattle.lower_ops.specs.layer.FormSizes as form;
ghost use Rattle.lower_exprs.specs.layer.Sizes as size;
ghost use Rattle.lower_exprs.specs.inside.Waiting.{given_size};
ghost use Rattle.lower_exprs.specs.inside.Ends.{AreEnds};

use crate::ends::Ends;
use crate::operands::{keeps, operand_of, waits_for, waits_for_arguments};
use ctypes::{BinOp, IntType};
use lower_ops::bools::either;
use lower_ops::form_sizes::{
    alters_by_size, alters_size, calls_size, changes_size, ends_size, follows_size, gets_size,
    hands_over_size, loads_size, operates_size, parts_size, plus, puts_size, step_operation,
    steps_by_size, then_size,
};
use lower_ops::modes::{Shape, shape_for};
use lower_ops::objects::object_of;
use lower_ops::spots::{cuts_for, found};
use lower_ops::words::is_wide;
use tree::{PrefixOp, StepOp};
use typed_ast::{Argument, Moment, Place, Value};

fn rest_shape(e: &Value) -> Shape
    ensures { result ≡ size.rest_shape (value_of e.now) }
{
    shape_for(operand_of(e, 0, 0))
}

/// How many instructions find a place.
#[cycle(value_sizes)]
fn place_size(place: &Place) -> usize
    ensures { result ≡ size.place_size (place_of place.now) }
{
    match place {
        Place::Named(_, _) => 1,
        Place::Element(_, array, index) => element_size(array, index),
    }
}

#[cycle(value_sizes)]
fn element_size(array: &Place, index: &Value) -> usize
    ensures { (at : Pos) → result ≡ size.place_size (typed.element at (place_of array.now) (value_of index.now)) }
{
    let part = parts_size(found(array, false, 0, 0));
    let value = value_size(index, rest_shape(index));
    plus(1, plus(place_size(array), plus(value, part)))
}

#[cycle(value_sizes)]
fn read_size(place: &Place, shape: Shape) -> usize
    ensures { (u : IntType) → result ≡ size.value_size (typed.read u (place_of place.now)) shape }
{
    match object_of(place) {
        Some(_) => plus(1, ends_size(shape)),
        None => plus(place_size(place), gets_size(shape)),
    }
}

#[cycle(value_sizes)]
fn assigned_size(ty: IntType, place: &Place, e: &Value, shape: Shape) -> usize
    ensures { (at : Pos) → result ≡ size.value_size (typed.assigned at ty (place_of place.now) (value_of e.now)) shape }
{
    match object_of(place) {
        Some(_) => {
            let converted = converted_size(ty, e, Shape::Object);
            plus(1, plus(1, plus(converted, ends_size(shape))))
        }
        None => {
            let kept = either(cuts_for(ty, shape), keeps(ty, e));
            let value = value_size(e, rest_shape(e));
            let stored = plus(value, puts_size(kept, shape));
            plus(1, plus(place_size(place), stored))
        }
    }
}

#[cycle(value_sizes)]
fn compound_size(op: BinOp, ty: IntType, place: &Place, e: &Value, shape: Shape) -> usize
    ensures { (at : Pos) → (of : IntType) → result ≡ size.value_size (typed.compound at op ty of (place_of place.now) (value_of e.now)) shape }
{
    let value = value_size(e, rest_shape(e));
    match object_of(place) {
        Some(_) => {
            let changed = plus(changes_size(is_wide(ty), op), ends_size(shape));
            plus(1, plus(1, plus(value, changed)))
        }
        None => {
            let altered = plus(1, alters_size(op, ty, shape));
            plus(1, plus(place_size(place), plus(value, altered)))
        }
    }
}

#[cycle(value_sizes)]
fn stepped_size(moment: Moment, op: StepOp, ty: IntType, place: &Place, shape: Shape) -> usize
    ensures { (at : Pos) → (of : IntType) → result ≡ size.value_size (typed.stepped at (moment_of moment) op ty of (place_of place.now)) shape }
{
    let operation = step_operation(op);
    match object_of(place) {
        Some(_) => {
            let stepped = steps_by_size(moment, is_wide(ty), operation, shape);
            plus(1, plus(1, stepped))
        }
        None => {
            let altered = plus(1, alters_by_size(moment, operation, ty, shape));
            plus(1, plus(place_size(place), altered))
        }
    }
}

/// Of a value that is converted to a type, which one that keeps its value there does not need.
#[cycle(value_sizes)]
pub fn converted_size(ty: IntType, e: &Value, shape: Shape) -> usize
    ensures { result ≡ form.converts_size (values.keeps ty (value_of e.now)) (size.value_size (value_of e.now)) (size.rest_shape (value_of e.now)) shape }
{
    if keeps(ty, e) {
        value_size(e, shape)
    } else {
        plus(value_size(e, rest_shape(e)), 1)
    }
}

#[cycle(value_sizes)]
fn cast_size(ty: IntType, e: &Value, shape: Shape) -> usize
    ensures { result ≡ form.casts_size (values.keeps ty (value_of e.now)) (size.value_size (value_of e.now)) (size.rest_shape (value_of e.now)) shape }
{
    if keeps(ty, e) {
        value_size(e, shape)
    } else {
        plus(value_size(e, rest_shape(e)), plus(1, follows_size(shape)))
    }
}

#[cycle(value_sizes)]
fn unary_size(op: PrefixOp, e: &Value, shape: Shape) -> usize
    ensures { (at : Pos) → (u : IntType) → result ≡ size.value_size (typed.unary at op u (value_of e.now)) shape }
{
    match op {
        PrefixOp::Plus => plus(1, value_size(e, shape)),
        PrefixOp::Minus => computed_size(e, BinOp::Sub, shape),
        PrefixOp::Complement => computed_size(e, BinOp::BitXor, shape),
        PrefixOp::Not => not_size(e, shape),
    }
}

#[cycle(value_sizes)]
fn computed_size(e: &Value, op: BinOp, shape: Shape) -> usize
    ensures { result ≡ parts.plus 1 (parts.plus (size.value_size (value_of e.now) (size.rest_shape (value_of e.now))) (form.then_size op shape)) }
{
    plus(1, plus(value_size(e, rest_shape(e)), then_size(op, shape)))
}

#[cycle(value_sizes)]
fn not_size(e: &Value, shape: Shape) -> usize
    ensures { (at : Pos) → (u : IntType) → result ≡ size.value_size (typed.unary at prefix.Not u (value_of e.now)) shape }
{
    match shape {
        Shape::Nowhere => computed_size(e, BinOp::Equal, Shape::Nowhere),
        Shape::Local => computed_size(e, BinOp::Equal, Shape::Local),
        Shape::Object => computed_size(e, BinOp::Equal, Shape::Object),
        Shape::Jump => plus(1, value_size(e, Shape::Jump)),
    }
}

#[cycle(value_sizes)]
fn binary_size(op: BinOp, a: &Value, b: &Value, shape: Shape) -> usize
    ensures { (at : Pos) → (u : IntType) → result ≡ size.value_size (typed.binary at op u (value_of a.now) (value_of b.now)) shape }
{
    let left = value_size(a, shape_for(waits_for(a, b, 0, 0)));
    let right = value_size(b, rest_shape(b));
    plus(1, plus(left, plus(right, operates_size(op, shape))))
}

#[cycle(value_sizes)]
fn truth_size(a: &Value, b: &Value, rest: usize) -> usize
    ensures { result ≡ parts.plus 1 (parts.plus (size.value_size (value_of a.now) shape.Jump) (parts.plus (size.value_size (value_of b.now) shape.Jump) rest)) }
{
    plus(
        1,
        plus(
            value_size(a, Shape::Jump),
            plus(value_size(b, Shape::Jump), rest),
        ),
    )
}

#[cycle(value_sizes)]
fn both_size(a: &Value, b: &Value, shape: Shape) -> usize
    ensures both { result ≡ size.value_size (typed.both_true (value_of a.now) (value_of b.now)) shape }
    ensures one { result ≡ size.value_size (typed.one_true (value_of a.now) (value_of b.now)) shape }
{
    match shape {
        Shape::Nowhere => truth_size(a, b, plus(1, plus(1, 1))),
        Shape::Local => truth_size(a, b, plus(1, plus(1, 1))),
        Shape::Object => truth_size(a, b, plus(1, plus(1, 1))),
        Shape::Jump => plus(
            1,
            plus(value_size(a, Shape::Jump), value_size(b, Shape::Jump)),
        ),
    }
}

#[cycle(value_sizes)]
fn number_size(ty: IntType, e: &Value, more: &[Argument], ends: Ends) -> usize
    requires { AreEnds ends more.now }
    ensures { result ≡ given_size (number_given ty (value_of e.now)) (arguments_of (map argument_of more.now)) }
{
    let operand = waits_for_arguments(e, more, ends, 0, 0);
    plus(
        value_size(e, shape_for(operand)),
        loads_size(keeps(ty, e), operand),
    )
}

/// The number of instructions of an argument, without those after it.
#[cycle(value_sizes)]
fn argument_size(argument: &Argument, more: &[Argument], ends: Ends) -> usize
    requires { AreEnds ends more.now }
    ensures { result ≡ given_size (argument_of argument.now) (arguments_of (map argument_of more.now)) }
{
    match argument {
        Argument::Number(ty, e) => number_size(*ty, e, more, ends),
        Argument::Array(array) => plus(
            place_size(array),
            hands_over_size(found(array, ends.call(), 0, 0)),
        ),
    }
}

#[cycle(value_sizes)]
fn passes_size(arguments: &[Argument]) -> usize
    ensures { result ≡ size.passes_size (arguments_of (map argument_of arguments.now)) }
{
    let mut size = 0;
    let mut rest = arguments;
    let mut ends = Ends::of(arguments);
    while let Some((argument, more)) = rest.split_first() {
        ends = ends.behind(1);
        size = plus(size, argument_size(argument, more, ends));
        rest = more;
    }
    size
}

/// The instructions of an expression.
#[cycle(value_sizes)]
pub fn value_size(e: &Value, shape: Shape) -> usize
    ensures { result ≡ size.value_size (value_of e.now) shape }
{
    match e {
        Value::Constant(_, _) => 1,
        Value::Read(_, place) => read_size(place, shape),
        Value::Assigned(_, ty, place, e) => assigned_size(*ty, place, e, shape),
        Value::Compound(_, op, ty, _, place, e) => compound_size(*op, *ty, place, e, shape),
        Value::Stepped(_, moment, op, ty, _, place) => {
            stepped_size(*moment, *op, *ty, place, shape)
        }
        Value::Unary(_, op, _, e) => unary_size(*op, e, shape),
        Value::Binary(_, op, _, a, b) => binary_size(*op, a, b, shape),
        Value::BothTrue(a, b) => both_size(a, b, shape),
        Value::OneTrue(a, b) => both_size(a, b, shape),
        Value::Chosen(_, c, a, b) => plus(
            1,
            plus(
                value_size(c, Shape::Jump),
                plus(value_size(a, shape), plus(1, value_size(b, shape))),
            ),
        ),
        Value::Sequence(a, b) => plus(1, plus(value_size(a, Shape::Nowhere), value_size(b, shape))),
        Value::Cast(ty, e) => plus(1, cast_size(*ty, e, shape)),
        Value::Discarded(e) => plus(1, plus(value_size(e, Shape::Nowhere), ends_size(shape))),
        Value::Call(_, callee, _, _, arguments) => plus(
            1,
            plus(passes_size(arguments), calls_size(*callee, shape)),
        ),
    }
}
