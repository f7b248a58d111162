//! Side effects of expressions (5.1.2.3p2): the expressions that have none.

ghost use Rattle.std.specs.Prelude.{◌≡◌, ◌&&◌};
ghost use Rattle.typed_ast.specs.View.{place_of, value_of};
ghost use Rattle.verify_statements.specs.Quiet.{quiet, quiet_place};

use typed_ast::{Place, Value};

fn both(a: bool, b: bool) -> bool
    ensures { result ≡ (a && b) }
{
    a && b
}

#[cycle(quiet)]
fn both_quiet(a: &Value, b: &Value) -> bool
    ensures { result ≡ (quiet (value_of a.now) && quiet (value_of b.now)) }
{
    let left = is_quiet(a);
    let right = is_quiet(b);
    both(left, right)
}

#[cycle(quiet)]
fn all_quiet(c: &Value, a: &Value, b: &Value) -> bool
    ensures { result ≡ (quiet (value_of c.now) && (quiet (value_of a.now) && quiet (value_of b.now))) }
{
    let first = is_quiet(c);
    let rest = both_quiet(a, b);
    both(first, rest)
}

#[cycle(quiet)]
fn element_quiet(array: &Place, index: &Value) -> bool
    ensures { result ≡ (quiet_place (place_of array.now) && quiet (value_of index.now)) }
{
    let left = is_quiet_place(array);
    let right = is_quiet(index);
    both(left, right)
}

#[cycle(quiet)]
fn is_quiet_place(a: &Place) -> bool
    ensures { result ≡ quiet_place (place_of a.now) }
{
    match a {
        Place::Named(_, _) => true,
        Place::Element(_, array, index) => element_quiet(array, index),
    }
}

/// Tests whether an expression assigns to nothing and calls nothing.
#[cycle(quiet)]
pub fn is_quiet(e: &Value) -> bool
    ensures { result ≡ quiet (value_of e.now) }
{
    match e {
        Value::Constant(_, _) => true,
        Value::Read(_, a) => is_quiet_place(a),
        Value::Assigned(_, _, _, _) => false,
        Value::Compound(_, _, _, _, _, _) => false,
        Value::Stepped(_, _, _, _, _, _) => false,
        Value::Unary(_, _, _, e) => is_quiet(e),
        Value::Binary(_, _, _, a, b) => both_quiet(a, b),
        Value::BothTrue(a, b) => both_quiet(a, b),
        Value::OneTrue(a, b) => both_quiet(a, b),
        Value::Chosen(_, c, a, b) => all_quiet(c, a, b),
        Value::Sequence(a, b) => both_quiet(a, b),
        Value::Cast(_, e) => is_quiet(e),
        Value::Discarded(e) => is_quiet(e),
        Value::Call(_, _, _, _, _) => false,
    }
}
