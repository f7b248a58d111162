//! First values of arrays of a block (6.7.9). While an array gets them nothing is known of it; after them each element has one.

ghost use Rattle.std.specs.Prelude.{◌≡◌, ◌∷◌, [], map, pos, IfOk, IsTrue};
ghost use Rattle.typing_spec.specs.Program as typed;
ghost use Rattle.typed_ast.specs.View.{initialiser_of, initialisers_of, value_of};
ghost use Rattle.verify_logic.specs.States.{Entails, Implies, In};
ghost use Rattle.verify_expressions.specs.Views.{frame_of, state_of};
ghost use Rattle.verify_statements.specs.Fills.{Fills, FillsEnd, FillsFrom, Takes, full};

use crate::effects::is_quiet;
use ctypes::IntType;
use std::alloc::Global;
use typed_ast::{Initialiser, Value};
use verify_expressions::{AbsState, Scope, Stop, content_at, copied, evaluate, imply, replaced};
use verify_intervals::{all_of, conversion, entails, hull, initialised, nothing, single};
use verify_logic::{AbsValue, Interval};

/// An object that gets its first value: the state then, the object, the interval of its values, and the type of its elements.
#[derive(Clone, Copy)]
pub struct Filling<'a> {
    pub state: &'a AbsState,
    pub object: usize,
    pub value: AbsValue,
    pub element: IntType,
}

/// The interval of all values.
pub fn anything() -> AbsValue {
    AbsValue {
        initialised: false,
        interval: Interval {
            low: i64::MIN,
            high: i64::MAX,
        },
    }
}

/// Tests that the state has no other fact about object `x`.
fn taking(alloc: Global, wide: AbsState, x: usize, k: AbsValue) -> Result<AbsState, Stop>
    ensures same { IfOk result (λ r. state_of r ≡ state_of wide) }
    ensures takes { IfOk result (λ r. Takes (state_of r) x k) }
{
    let Some(known) = content_at(&wide, x) else {
        return Err(Stop::Unfollowed(None));
    };
    let contained = entails(known, k);
    if !contained {
        return Err(Stop::Unfollowed(None));
    }
    let copy = copied(alloc, &wide)?;
    let again = replaced(alloc, copy, x, k)?;
    let kept = imply(&again, &wide);
    if !kept {
        return Err(Stop::Unfollowed(None));
    }
    Ok(wide)
}

/// The state that has no other fact about object `x`.
///
/// Errors: memory ran out, or there is no such object.
pub fn opened(alloc: Global, state: &AbsState, x: usize, k: AbsValue) -> Result<AbsState, Stop>
    ensures implied { IfOk result (λ r. Implies (state_of state.now) (state_of r)) }
    ensures takes { IfOk result (λ r. Takes (state_of r) x k) }
{
    let first = copied(alloc, state)?;
    let other = replaced(alloc, first, x, k)?;
    let wide = taking(alloc, other, x, k)?;
    let implied = imply(state, &wide);
    if !implied {
        return Err(Stop::Unfollowed(None));
    }
    Ok(wide)
}

fn are_none(lengths: &[u32]) -> bool
    ensures { IsTrue result → lengths.now ≡ [] }
{
    lengths.is_empty()
}

fn holds_zero(j: Interval) -> bool
    ensures { IsTrue result → In j (pos 0) }
{
    j.low <= 0 && 0 <= j.high
}

fn fits(j: Interval, k: AbsValue) -> bool
    ensures { IsTrue result → Entails (full j) k }
{
    let whole = initialised(j);
    entails(whole, k)
}

/// One value, by an expression without side effects.
fn one_filled(
    scope: &Scope<'_>,
    filling: &Filling<'_>,
    lengths: &[u32],
    ty: IntType,
    e: &Value,
) -> Result<Interval, Stop>
    requires { Takes (state_of filling.now.state.now) filling.now.object filling.now.value }
    ensures { IfOk result (λ j. Fills (frame_of scope.now) (typed.one_value ty (value_of e.now)) filling.now.element filling.now.object lengths.now (state_of filling.now.state.now) j) }
{
    let scalar = are_none(lengths);
    if !scalar {
        return Err(Stop::Unfollowed(None));
    }
    let quiet = is_quiet(e);
    if !quiet {
        return Err(Stop::Unfollowed(None));
    }
    let copy = copied(scope.alloc, filling.state)?;
    let v = evaluate(scope, copy, e)?;
    let j = conversion(ty, v.interval);
    let within = fits(j, filling.value);
    if !within {
        return Err(Stop::Unfollowed(None));
    }
    Ok(j)
}

/// The characters of a string literal.
fn text_filled(
    scope: &Scope<'_>,
    filling: &Filling<'_>,
    lengths: &[u32],
    text: usize,
) -> Result<Interval, Stop>
    requires { Takes (state_of filling.now.state.now) filling.now.object filling.now.value }
    ensures { IfOk result (λ j. Fills (frame_of scope.now) (typed.text text) filling.now.element filling.now.object lengths.now (state_of filling.now.state.now) j) }
{
    let Some((_n, inner)) = lengths.split_first() else {
        return Err(Stop::Unfollowed(None));
    };
    let alone = are_none(inner);
    if !alone {
        return Err(Stop::Unfollowed(None));
    }
    let j = all_of(filling.element);
    let zero = holds_zero(j);
    if !zero {
        return Err(Stop::Unfollowed(None));
    }
    let within = fits(j, filling.value);
    if !within {
        return Err(Stop::Unfollowed(None));
    }
    Ok(j)
}

/// The elements or rows without an initialiser: they are zero.
fn rest_filled(
    scope: &Scope<'_>,
    filling: &Filling<'_>,
    n: u32,
    done: u32,
    inner: &[u32],
    so_far: Interval,
) -> Result<Interval, Stop>
    requires { Takes (state_of filling.now.state.now) filling.now.object filling.now.value }
    ensures { IfOk result (λ j. FillsEnd (frame_of scope.now) filling.now.element filling.now.object n done inner.now (state_of filling.now.state.now) so_far j) }
{
    if done == n {
        return Ok(so_far);
    }
    let none = single(0);
    let j = hull(so_far, none);
    let within = fits(j, filling.value);
    if !within {
        return Err(Stop::Unfollowed(None));
    }
    Ok(j)
}

/// The elements or rows of an array.
#[cycle(fill)]
fn rows_filled(
    scope: &Scope<'_>,
    filling: &Filling<'_>,
    n: u32,
    inner: &[u32],
    all: &[Initialiser],
) -> Result<Interval, Stop>
    requires { Takes (state_of filling.now.state.now) filling.now.object filling.now.value }
    ensures { IfOk result (λ j. FillsFrom (frame_of scope.now) (initialisers_of (map initialiser_of all.now)) filling.now.element filling.now.object n inner.now (state_of filling.now.state.now) j) }
{
    let mut so_far = nothing();
    let mut done = 0;
    let mut rest = all;
    while let Some((i, more)) = rest.split_first() {
        if done >= n {
            return Err(Stop::Unfollowed(None));
        }
        let j = filled(scope, filling, inner, i)?;
        let both = hull(so_far, j);
        so_far = both;
        done += 1;
        rest = more;
    }
    let last = rest_filled(scope, filling, n, done, inner, so_far)?;
    Ok(last)
}

#[cycle(fill)]
fn list_filled(
    scope: &Scope<'_>,
    filling: &Filling<'_>,
    lengths: &[u32],
    all: &[Initialiser],
) -> Result<Interval, Stop>
    requires { Takes (state_of filling.now.state.now) filling.now.object filling.now.value }
    ensures { IfOk result (λ j. Fills (frame_of scope.now) (typed.list (initialisers_of (map initialiser_of all.now))) filling.now.element filling.now.object lengths.now (state_of filling.now.state.now) j) }
{
    let Some((n, inner)) = lengths.split_first() else {
        return Err(Stop::Unfollowed(None));
    };
    let j = rows_filled(scope, filling, *n, inner, all)?;
    Ok(j)
}

#[cycle(fill)]
fn braces_filled(
    scope: &Scope<'_>,
    filling: &Filling<'_>,
    lengths: &[u32],
    i: &Initialiser,
) -> Result<Interval, Stop>
    requires { Takes (state_of filling.now.state.now) filling.now.object filling.now.value }
    ensures { IfOk result (λ j. Fills (frame_of scope.now) (typed.in_braces (initialiser_of i.now)) filling.now.element filling.now.object lengths.now (state_of filling.now.state.now) j) }
{
    let j = filled(scope, filling, lengths, i)?;
    Ok(j)
}

/// The interval of the values that an object, row or element of these lengths gets.
///
/// Errors: memory ran out, undefined behaviour is not ruled out, or the analysis is not possible, for example if an initialiser assigns or calls.
#[cycle(fill)]
pub fn filled(
    scope: &Scope<'_>,
    filling: &Filling<'_>,
    lengths: &[u32],
    i: &Initialiser,
) -> Result<Interval, Stop>
    requires { Takes (state_of filling.now.state.now) filling.now.object filling.now.value }
    ensures { IfOk result (λ j. Fills (frame_of scope.now) (initialiser_of i.now) filling.now.element filling.now.object lengths.now (state_of filling.now.state.now) j) }
{
    match i {
        Initialiser::One(ty, e) => one_filled(scope, filling, lengths, *ty, e),
        Initialiser::Text(n) => text_filled(scope, filling, lengths, *n),
        Initialiser::InBraces(i) => braces_filled(scope, filling, lengths, i),
        Initialiser::List(all) => list_filled(scope, filling, lengths, all),
    }
}
