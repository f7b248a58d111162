//! Objects of a block are created, and get their first values (6.2.4p6, 6.7.9).

ghost use Rattle.std.specs.Prelude.{◌≡◌, ◌∷◌, [], length, map, IfOk, IsTrue, Some, slice_get};
ghost use Rattle.typing_spec.specs.Types as types;
ghost use Rattle.typing_spec.specs.Program as typed;
ghost use Rattle.typed_ast.specs.View.{initialiser_of, object_type_of, value_of};
ghost use Rattle.verify_logic.specs.Statements.{Executes, Renews, RenewsOne};
ghost use Rattle.verify_expressions.specs.Views.{frame_of, state_of};
ghost use Rattle.verify_statements.specs.Ways.{ways_of};

use crate::initialisers::{Filling, anything, filled, opened};
use crate::rows::{completed, row_filled, short_row};
use crate::ways::{Left, only};
use ctypes::IntType;
use typed_ast::{Initialiser, ObjectType, Value};
use verify_expressions::{AbsState, Scope, Stop, evaluate, is_scalar, replaced, written};
use verify_intervals::{add_usize, conversion, initialised, uninitialised};

fn base(scope: &Scope<'_>) -> usize
    ensures { result ≡ length (frame_of scope.now).outer }
{
    scope.outer.len()
}

fn has_object(objects: &[ObjectType], n: usize) -> bool
    ensures { IsTrue result → (t : types.ObjectType) × (slice_get (map object_type_of objects.now) n ≡ Some t) }
{
    if n < objects.len() { true } else { false }
}

/// An object of the call becomes indeterminate.
///
/// Errors: the call has no such object.
fn renewed(scope: &Scope<'_>, state: AbsState, n: usize) -> Result<AbsState, Stop>
    ensures { IfOk result (λ r. RenewsOne (frame_of scope.now) n (state_of state) (state_of r)) }
{
    let Some(x) = add_usize(base(scope), n) else {
        return Err(Stop::Unfollowed(None));
    };
    let there = has_object(scope.objects, n);
    if !there {
        return Err(Stop::Unfollowed(None));
    }
    let k = uninitialised();
    let state2 = replaced(scope.alloc, state, x, k)?;
    Ok(state2)
}

/// The same for `count` objects from number `first` on.
pub fn all_renewed(
    scope: &Scope<'_>,
    state: AbsState,
    first: usize,
    count: usize,
) -> Result<AbsState, Stop>
    ensures { IfOk result (λ r. Renews (frame_of scope.now) first count (state_of state) (state_of r)) }
{
    let mut current = state;
    let mut next = first;
    let mut left = count;
    while left != 0 {
        let state2 = renewed(scope, current, next)?;
        let Some(second) = add_usize(next, 1) else {
            return Err(Stop::Unfollowed(None));
        };
        current = state2;
        next = second;
        left -= 1;
    }
    Ok(current)
}

/// A declarator without a first value.
pub fn declared(scope: &Scope<'_>, state: AbsState, n: usize) -> Result<Left, Stop>
    ensures { IfOk result (λ r. Executes (frame_of scope.now) (typed.declare n) (state_of state) (ways_of r)) }
{
    let state2 = renewed(scope, state, n)?;
    Ok(only(state2))
}

/// One value for the object (6.7.9p11).
fn defined_by(
    scope: &Scope<'_>,
    state: AbsState,
    n: usize,
    ty: IntType,
    e: &Value,
) -> Result<Left, Stop>
    ensures { IfOk result (λ r. Executes (frame_of scope.now) (typed.define n (typed.one_value ty (value_of e.now))) (state_of state) (ways_of r)) }
{
    let Some(x) = add_usize(base(scope), n) else {
        return Err(Stop::Unfollowed(None));
    };
    let there = has_object(scope.objects, n);
    if !there {
        return Err(Stop::Unfollowed(None));
    }
    let scalar = is_scalar(scope, x);
    if !scalar {
        return Err(Stop::Unfollowed(None));
    }
    let state2 = renewed(scope, state, n)?;
    let v = evaluate(scope, state2, e)?;
    let interval = conversion(ty, v.interval);
    let state3 = written(scope, v.state, x, None, interval)?;
    Ok(only(state3))
}

/// Object `n` of the call gets a first value; the interval contains all its elements.
fn array_begun(
    scope: &Scope<'_>,
    state: AbsState,
    n: usize,
    object: &ObjectType,
    i: &Initialiser,
) -> Result<Left, Stop>
    requires { slice_get (frame_of scope.now).objects n ≡ Some (object_type_of object.now) }
    ensures { IfOk result (λ r. Executes (frame_of scope.now) (typed.define n (initialiser_of i.now)) (state_of state) (ways_of r)) }
{
    let Some(x) = add_usize(base(scope), n) else {
        return Err(Stop::Unfollowed(None));
    };
    let state2 = renewed(scope, state, n)?;
    let value = anything();
    let wide = opened(scope.alloc, &state2, x, value)?;
    let filling = Filling {
        state: &wide,
        object: x,
        value,
        element: object.element,
    };
    let j = filled(scope, &filling, &object.lengths, i)?;
    let new = initialised(j);
    let state3 = replaced(scope.alloc, wide, x, new)?;
    Ok(only(state3))
}

/// Object `n` of the call, an array of `length` elements, gets a first value, element by element.
fn row_begun(
    scope: &Scope<'_>,
    state: AbsState,
    n: usize,
    object: &ObjectType,
    length: u32,
    i: &Initialiser,
) -> Result<Left, Stop>
    requires there { slice_get (frame_of scope.now).objects n ≡ Some (object_type_of object.now) }
    requires row { (object_type_of object.now).lengths ≡ length ∷ [] }
    ensures { IfOk result (λ r. Executes (frame_of scope.now) (typed.define n (initialiser_of i.now)) (state_of state) (ways_of r)) }
{
    let Some(x) = add_usize(base(scope), n) else {
        return Err(Stop::Unfollowed(None));
    };
    let state2 = renewed(scope, state, n)?;
    let state3 = row_filled(scope, state2, x, length, object.element, i)?;
    let state4 = completed(scope, state3, x, length);
    Ok(only(state4))
}

fn object_defined(
    scope: &Scope<'_>,
    state: AbsState,
    n: usize,
    object: &ObjectType,
    i: &Initialiser,
) -> Result<Left, Stop>
    requires { slice_get (frame_of scope.now).objects n ≡ Some (object_type_of object.now) }
    ensures { IfOk result (λ r. Executes (frame_of scope.now) (typed.define n (initialiser_of i.now)) (state_of state) (ways_of r)) }
{
    match short_row(scope, &state, &object.lengths, i) {
        None => array_begun(scope, state, n, object, i),
        Some(length) => row_begun(scope, state, n, object, length, i),
    }
}

/// A list, a string or a value in braces for the object (6.7.9p14, p17).
fn array_defined(
    scope: &Scope<'_>,
    state: AbsState,
    n: usize,
    i: &Initialiser,
) -> Result<Left, Stop>
    ensures { IfOk result (λ r. Executes (frame_of scope.now) (typed.define n (initialiser_of i.now)) (state_of state) (ways_of r)) }
{
    match scope.objects.get(n) {
        None => Err(Stop::Unfollowed(None)),
        Some(object) => object_defined(scope, state, n, object, i),
    }
}

/// A declarator with a first value.
pub fn defined(scope: &Scope<'_>, state: AbsState, n: usize, i: &Initialiser) -> Result<Left, Stop>
    ensures { IfOk result (λ r. Executes (frame_of scope.now) (typed.define n (initialiser_of i.now)) (state_of state) (ways_of r)) }
{
    match i {
        Initialiser::One(ty, e) => defined_by(scope, state, n, *ty, e),
        Initialiser::Text(_) => array_defined(scope, state, n, i),
        Initialiser::InBraces(_) => array_defined(scope, state, n, i),
        Initialiser::List(_) => array_defined(scope, state, n, i),
    }
}
