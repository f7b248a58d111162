//! The calls and writes of an expression, and the object that has its value after it.

ghost use Rattle.std.specs.Prelude.{◌≡◌, map, ℕ, ◌^◌, ◌<◌};
ghost use Rattle.typed_ast.specs.View.{place_of, value_of, argument_of, arguments_of, moment_of};
ghost use Rattle.lower_correct.specs.Values as values;
ghost use Rattle.srcset.specs.declared.refusal.Pos.{Pos};
ghost use Rattle.ctypes.specs.declared.types.IntType.{IntType};
ghost use Rattle.tree.specs.declared.expression.StepOp.{StepOp};
ghost use Rattle.typing_spec.specs.Program as typed;
ghost use Rattle.lower_exprs.specs.inside.Given.{given_calls, given_writes};

use lower_ops::bools::either;
use lower_ops::objects::object_of;
use typed_ast::{Argument, Moment, Place, Value};

pub(crate) fn argument_calls(argument: &Argument) -> bool
    ensures { result ≡ given_calls (argument_of argument.now) }
{
    match argument {
        Argument::Number(_, e) => has_calls(e),
        Argument::Array(array) => place_calls(array),
    }
}

#[cycle(calls)]
pub(crate) fn place_calls(place: &Place) -> bool
    ensures { result ≡ values.place_calls (place_of place.now) }
{
    match place {
        Place::Named(_, _) => false,
        Place::Element(_, array, index) => either(place_calls(array), has_calls(index)),
    }
}

/// Whether it calls, which makes all temporaries but the result unset.
#[cycle(calls)]
pub(crate) fn has_calls(e: &Value) -> bool
    ensures { result ≡ values.calls (value_of e.now) }
{
    match e {
        Value::Constant(_, _) => false,
        Value::Read(_, place) => place_calls(place),
        Value::Assigned(_, _, place, e) => either(place_calls(place), has_calls(e)),
        Value::Compound(_, _, _, _, place, e) => either(place_calls(place), has_calls(e)),
        Value::Stepped(_, _, _, _, _, place) => place_calls(place),
        Value::Unary(_, _, _, e) => has_calls(e),
        Value::Binary(_, _, _, a, b) => either(has_calls(a), has_calls(b)),
        Value::BothTrue(a, b) => either(has_calls(a), has_calls(b)),
        Value::OneTrue(a, b) => either(has_calls(a), has_calls(b)),
        Value::Chosen(_, c, a, b) => either(has_calls(c), either(has_calls(a), has_calls(b))),
        Value::Sequence(a, b) => either(has_calls(a), has_calls(b)),
        Value::Cast(_, e) => has_calls(e),
        Value::Discarded(e) => has_calls(e),
        Value::Call(_, _, _, _, _) => true,
    }
}

fn is_object(place: &Place, object: usize) -> bool
    ensures { result ≡ values.is_object (values.object_of (place_of place.now)) object }
{
    match object_of(place) {
        None => false,
        Some(number) => number == object,
    }
}

#[cycle(writes)]
fn place_writes(place: &Place, object: usize) -> bool
    ensures { result ≡ values.place_writes (place_of place.now) object }
{
    match place {
        Place::Named(_, _) => false,
        Place::Element(_, array, index) => {
            either(place_writes(array, object), writes(index, object))
        }
    }
}

#[cycle(writes)]
fn argument_writes(argument: &Argument, object: usize) -> bool
    ensures { result ≡ given_writes (argument_of argument.now) object }
{
    match argument {
        Argument::Number(_, e) => writes(e, object),
        Argument::Array(array) => place_writes(array, object),
    }
}

#[cycle(writes)]
pub(crate) fn arguments_write(arguments: &[Argument], object: usize) -> bool
    ensures { result ≡ values.arguments_write (arguments_of (map argument_of arguments.now)) object }
{
    let mut some = false;
    for argument in arguments {
        some = either(some, argument_writes(argument, object));
    }
    some
}

/// Whether an object of the present call is assigned to.
#[cycle(writes)]
pub(crate) fn writes(e: &Value, object: usize) -> bool
    ensures { result ≡ values.writes (value_of e.now) object }
{
    match e {
        Value::Constant(_, _) => false,
        Value::Read(_, place) => place_writes(place, object),
        Value::Assigned(_, _, place, e) => either(
            place_writes(place, object),
            either(is_object(place, object), writes(e, object)),
        ),
        Value::Compound(_, _, _, _, place, e) => either(
            place_writes(place, object),
            either(is_object(place, object), writes(e, object)),
        ),
        Value::Stepped(_, _, _, _, _, place) => {
            either(place_writes(place, object), is_object(place, object))
        }
        Value::Unary(_, _, _, e) => writes(e, object),
        Value::Binary(_, _, _, a, b) => either(writes(a, object), writes(b, object)),
        Value::BothTrue(a, b) => either(writes(a, object), writes(b, object)),
        Value::OneTrue(a, b) => either(writes(a, object), writes(b, object)),
        Value::Chosen(_, c, a, b) => either(
            writes(c, object),
            either(writes(a, object), writes(b, object)),
        ),
        Value::Sequence(a, b) => either(writes(a, object), writes(b, object)),
        Value::Cast(_, e) => writes(e, object),
        Value::Discarded(e) => writes(e, object),
        Value::Call(_, _, _, _, arguments) => arguments_write(arguments, object),
    }
}

fn stepped_rests(moment: Moment, place: &Place) -> Option<usize>
    ensures { (at : Pos) → (o : StepOp) → (t of : IntType) → result ≡ values.rests_in (typed.stepped at (moment_of moment) o t of (place_of place.now)) }
{
    match moment {
        Moment::Before => object_of(place),
        Moment::After => None,
    }
}

/// The object that has the value after an expression (6.5.16p3).
pub(crate) fn rests_in(e: &Value) -> Option<usize>
    ensures { result ≡ values.rests_in (value_of e.now) }
{
    match e {
        Value::Constant(_, _) => None,
        Value::Read(_, place) => object_of(place),
        Value::Assigned(_, _, place, _) => object_of(place),
        Value::Compound(_, _, _, _, place, _) => object_of(place),
        Value::Stepped(_, moment, _, _, _, place) => stepped_rests(*moment, place),
        Value::Unary(_, _, _, _) => None,
        Value::Binary(_, _, _, _, _) => None,
        Value::BothTrue(_, _) => None,
        Value::OneTrue(_, _) => None,
        Value::Chosen(_, _, _, _) => None,
        Value::Sequence(_, _) => None,
        Value::Cast(_, _) => None,
        Value::Discarded(_) => None,
        Value::Call(_, _, _, _, _) => None,
    }
}
