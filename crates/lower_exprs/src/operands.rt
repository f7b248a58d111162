//! Where values are.

ghost use Rattle.std.specs.Prelude.{◌≡◌, map, ℕ, Bool};
ghost use Rattle.typed_ast.specs.View.{value_of, argument_of, arguments_of};
ghost use Rattle.lower_correct.specs.Bodies as bodies;
ghost use Rattle.lower_correct.specs.Values as values;
ghost use Rattle.lower_ops.specs.layer.Parts.{is_written};
ghost use Rattle.lower_exprs.specs.inside.Ends.{AreEnds};

use crate::ends::Ends;
use crate::rests::{has_calls, rests_in, writes};
use ctypes::IntType;
use lower_ops::bools::either;
use lower_ops::waiting::{at_rest, constant_or, pending};
use lower_ops::words::{computed_extent, holds_all, is_wide, or_int, signed_extent, smallest};
use tac_code::Operand;
use typed_ast::{Argument, Value};

// ---- words that need no conversion

/// A type that surely has the value of the expression.
fn extent(e: &Value) -> IntType
    ensures { result ≡ values.extent (value_of e.now) }
{
    match e {
        Value::Constant(ty, value) => smallest(*ty, *value),
        Value::Read(ty, _) => *ty,
        Value::Assigned(_, ty, _, _) => *ty,
        Value::Compound(_, _, ty, _, _, _) => *ty,
        Value::Stepped(_, _, _, ty, _, _) => *ty,
        Value::Unary(_, op, ty, _) => signed_extent(*op, *ty),
        Value::Binary(_, op, ty, _, _) => computed_extent(*op, *ty),
        Value::BothTrue(_, _) => IntType::Bool,
        Value::OneTrue(_, _) => IntType::Bool,
        Value::Chosen(ty, _, _, _) => or_int(*ty),
        Value::Sequence(_, b) => extent(b),
        Value::Cast(ty, _) => *ty,
        Value::Discarded(_) => IntType::Bool,
        Value::Call(_, _, result, _, _) => or_int(*result),
    }
}

/// Whether conversion to a type leaves the word of an expression's value as it is (6.3.1.3).
pub fn keeps(ty: IntType, e: &Value) -> bool
    ensures { result ≡ values.keeps ty (value_of e.now) }
{
    either(is_wide(ty), holds_all(ty, extent(e)))
}

// ---- where a value is while others are evaluated

fn constant_of(e: &Value) -> Option<i64>
    ensures { result ≡ values.constant_of (value_of e.now) }
{
    match e {
        Value::Constant(_, value) => Some(*value),
        Value::Read(_, _) => None,
        Value::Assigned(_, _, _, _) => None,
        Value::Compound(_, _, _, _, _, _) => None,
        Value::Stepped(_, _, _, _, _, _) => None,
        Value::Unary(_, _, _, _) => None,
        Value::Binary(_, _, _, _, _) => None,
        Value::BothTrue(_, _) => None,
        Value::OneTrue(_, _) => None,
        Value::Chosen(_, _, _, _) => None,
        Value::Sequence(_, _) => None,
        Value::Cast(_, _) => None,
        Value::Discarded(_) => None,
        Value::Call(_, _, _, _, _) => None,
    }
}

/// Where the value of `e` waits for the expressions evaluated after it, which write its object, and call, or not.
fn waits(e: &Value, written: bool, has_calls: bool, temporary: usize, slot: usize) -> Operand
    ensures { (w : ℕ → Bool) → written ≡ is_written (values.rests_in (value_of e.now)) w → result ≡ values.waits_in (value_of e.now) w has_calls temporary slot }
{
    constant_or(
        constant_of(e),
        at_rest(rests_in(e), written, pending(has_calls, temporary, slot)),
    )
}

fn is_written_by(e: &Value, other: &Value) -> bool
    ensures { result ≡ is_written (values.rests_in (value_of e.now)) (values.writes (value_of other.now)) }
{
    match rests_in(e) {
        None => false,
        Some(object) => writes(other, object),
    }
}

fn is_written_by_arguments(e: &Value, others: &[Argument], ends: Ends) -> bool
    requires { AreEnds ends others.now }
    ensures { result ≡ is_written (values.rests_in (value_of e.now)) (values.arguments_write (arguments_of (map argument_of others.now))) }
{
    match rests_in(e) {
        None => false,
        Some(object) => ends.write(others, object),
    }
}

fn is_within(first: usize, count: usize, object: usize) -> bool
    ensures { result ≡ bodies.is_within first count object }
{
    if object < first {
        return false;
    }
    object - first < count
}

fn rests_within(e: &Value, first: usize, count: usize) -> bool
    ensures { result ≡ is_written (values.rests_in (value_of e.now)) (bodies.is_within first count) }
{
    match rests_in(e) {
        None => false,
        Some(object) => is_within(first, count, object),
    }
}

/// While `other` is evaluated.
pub(crate) fn waits_for(e: &Value, other: &Value, temporary: usize, slot: usize) -> Operand
    ensures { result ≡ values.waits_in (value_of e.now) (values.writes (value_of other.now)) (values.calls (value_of other.now)) temporary slot }
{
    waits(
        e,
        is_written_by(e, other),
        has_calls(other),
        temporary,
        slot,
    )
}

/// While the arguments after it are evaluated, whose ends these are.
pub(crate) fn waits_for_arguments(
    e: &Value,
    others: &[Argument],
    ends: Ends,
    temporary: usize,
    slot: usize,
) -> Operand
    requires { AreEnds ends others.now }
    ensures { result ≡ values.waits_in (value_of e.now) (values.arguments_write (arguments_of (map argument_of others.now))) (values.arguments_call (arguments_of (map argument_of others.now))) temporary slot }
{
    waits(
        e,
        is_written_by_arguments(e, others, ends),
        ends.call(),
        temporary,
        slot,
    )
}

fn has_objects(count: usize) -> bool
    ensures { result ≡ bodies.has_objects count }
{
    count > 0
}

/// While the objects of a `switch` are forgotten, and all temporaries with them.
pub fn waits_for_objects(e: &Value, first: usize, count: usize) -> Operand
    ensures { result ≡ values.waits_in (value_of e.now) (bodies.is_within first count) (bodies.has_objects count) 0 0 }
{
    waits(e, rests_within(e, first, count), has_objects(count), 0, 0)
}

/// Where nothing is evaluated after it.
pub fn operand_of(e: &Value, temporary: usize, slot: usize) -> Operand
    ensures { result ≡ values.operand_of (value_of e.now) temporary slot }
{
    waits(e, false, false, temporary, slot)
}
