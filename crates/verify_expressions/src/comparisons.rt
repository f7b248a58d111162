//! What the result of a comparison implies for its operands (6.5.8, 6.5.9).

ghost use Rattle.std.specs.Prelude.{◌≡◌, [], Some, IfOk, IfSome};
ghost use Rattle.typing_spec.specs.Program as typed;
ghost use Rattle.typed_ast.specs.View.{place_of, storage_of, value_of};
ghost use Rattle.verify_logic.specs.States.{shape_of};
ghost use Rattle.verify_logic.specs.Judgements.{Tests};
ghost use Rattle.verify_logic.specs.Places.{FindsAt};
ghost use Rattle.verify_logic.specs.Relations.{Learns, Looks, Restricts, RestrictsBoth};
ghost use Rattle.verify_expressions.specs.Views.{frame_of, known_of, state_of};
ghost use Rattle.verify_expressions.specs.Parts.{LearnsBoth};

use crate::conditions::Tested;
use crate::memory::take_step;
use crate::objects::{content_at, copied, with_value};
use crate::places::{is_scalar, object};
use crate::scope::Scope;
use crate::state::{AbsState, Known};
use crate::stop::Stop;
use ctypes::{BinOp, IntType};
use srcset::Pos;
use typed_ast::{Place, Value};
use verify_intervals::{all_of, initialised, is_empty, lies_in, narrowed, single, tell};
use verify_logic::{Interval, Operand};

/// An operand that is refined, and the interval of its value.
#[derive(Clone, Copy)]
pub struct Looked {
    pub operand: Operand,
    pub interval: Interval,
}

/// The scalar object that a name designates.
fn scalar_named(scope: &Scope<'_>, a: &Place) -> Option<usize>
    ensures finds { IfSome result (λ x. FindsAt (frame_of scope.now) (place_of a.now) x []) }
    ensures scalar { IfSome result (λ x. shape_of (frame_of scope.now) x ≡ []) }
{
    match a {
        Place::Named(_, what) => {
            let Some(x) = object(scope, *what) else {
                return None;
            };
            let scalar = is_scalar(scope, x);
            if scalar { Some(x) } else { None }
        }
        Place::Element(_, _, _) => None,
    }
}

fn looked_at(scope: &Scope<'_>, state: &AbsState, ty: IntType, a: &Place) -> Option<Looked>
    ensures { IfSome result (λ r. Looks (frame_of scope.now) (typed.read ty (place_of a.now)) (state_of state.now) r.operand r.interval) }
{
    let Some(x) = scalar_named(scope, a) else {
        return None;
    };
    let Some(k) = content_at(state, x) else {
        return None;
    };
    let set = k.initialised;
    if !set {
        return None;
    }
    Some(Looked {
        operand: Operand::Object(x),
        interval: k.interval,
    })
}

fn number_looked(scope: &Scope<'_>, state: &AbsState, ty: IntType, v: i64) -> Option<Looked>
    ensures { IfSome result (λ r. Looks (frame_of scope.now) (typed.constant ty v) (state_of state.now) r.operand r.interval) }
{
    let interval = single(v);
    Some(Looked {
        operand: Operand::Number(v),
        interval,
    })
}

fn look(scope: &Scope<'_>, state: &AbsState, e: &Value) -> Option<Looked>
    ensures { IfSome result (λ r. Looks (frame_of scope.now) (value_of e.now) (state_of state.now) r.operand r.interval) }
{
    match e {
        Value::Constant(ty, v) => number_looked(scope, state, *ty, *v),
        Value::Read(ty, a) => looked_at(scope, state, *ty, a),
        Value::Assigned(_, _, _, _) => None,
        Value::Compound(_, _, _, _, _, _) => None,
        Value::Stepped(_, _, _, _, _, _) => None,
        Value::Unary(_, _, _, _) => None,
        Value::Binary(_, _, _, _, _) => None,
        Value::BothTrue(_, _) => None,
        Value::OneTrue(_, _) => None,
        Value::Chosen(_, _, _, _) => None,
        Value::Sequence(_, _) => None,
        Value::Cast(_, _) => None,
        Value::Discarded(_) => None,
        Value::Call(_, _, _, _, _) => None,
    }
}

fn restricted_in(known: Known, x: usize, i: Interval) -> Option<AbsState>
    ensures { IfSome result (λ r. Restricts (Operand.Object x) i (Some (known_of known)) (state_of r)) }
{
    if x < known.objects.len() {
        let k = initialised(i);
        let objects = with_value(known.objects, x, k);
        Some(AbsState {
            objects: Some(Known {
                objects,
                facts: known.facts,
            }),
        })
    } else {
        None
    }
}

#[tactic(auto, using(verify_logic::proofs::Compares::none_restricts))]
fn object_restricted(state: AbsState, x: usize, i: Interval) -> Option<AbsState>
    ensures { IfSome result (λ r. Restricts (Operand.Object x) i (state_of state) (state_of r)) }
{
    match state.objects {
        None => Some(AbsState { objects: None }),
        Some(known) => restricted_in(known, x, i),
    }
}

/// The state with an operand whose value is in the interval.
fn restricted(state: AbsState, a: Operand, i: Interval) -> Option<AbsState>
    ensures { IfSome result (λ r. Restricts a i (state_of state) (state_of r)) }
{
    let empty = is_empty(i);
    if empty {
        return Some(AbsState { objects: None });
    }
    match a {
        Operand::Number(_) => Some(state),
        Operand::Object(x) => object_restricted(state, x, i),
    }
}

/// With two such operands.
fn both_restricted(
    state: AbsState,
    a: Operand,
    i: Interval,
    b: Operand,
    j: Interval,
) -> Option<AbsState>
    ensures { IfSome result (λ r. RestrictsBoth a i b j (state_of state) (state_of r)) }
{
    let Some(half) = restricted(state, a, i) else {
        return None;
    };
    let Some(all) = restricted(half, b, j) else {
        return None;
    };
    Some(all)
}

/// The implications of a comparison, by its truth value.
fn learnt(state: AbsState, op: BinOp, truth: bool, x: Looked, y: Looked) -> Option<AbsState>
    ensures { IfSome result (λ r. Learns op truth x.operand x.interval y.operand y.interval (state_of state) (state_of r)) }
{
    let Some(said) = tell(op, truth) else {
        return None;
    };
    let swapped = said.swapped;
    if swapped {
        let turned = narrowed(said.relation, y.interval, x.interval);
        let done = both_restricted(state, y.operand, turned.left, x.operand, turned.right);
        done
    } else {
        let pair = narrowed(said.relation, x.interval, y.interval);
        let ready = both_restricted(state, x.operand, pair.left, y.operand, pair.right);
        ready
    }
}

/// The states if a comparison is true, and if it is false.
fn both_learnt(
    scope: &Scope<'_>,
    state: &AbsState,
    op: BinOp,
    x: Looked,
    y: Looked,
) -> Result<Option<Tested>, Stop>
    ensures { IfOk result (λ o. IfSome o (λ r. LearnsBoth op x.operand x.interval y.operand y.interval (state_of state.now) (state_of r.on) (state_of r.off))) }
{
    let goes_on = take_step(scope);
    if !goes_on {
        return Err(Stop::Unfollowed(None));
    }
    let first = copied(scope.alloc, state)?;
    let second = copied(scope.alloc, state)?;
    let Some(on) = learnt(first, op, true, x, y) else {
        return Ok(None);
    };
    let Some(off) = learnt(second, op, false, x, y) else {
        return Ok(None);
    };
    Ok(Some(Tested { on, off }))
}

/// A comparison of two operands that can be refined, if it is one.
///
/// Errors: memory ran out.
pub fn compared(
    scope: &Scope<'_>,
    state: &AbsState,
    at: &Pos,
    op: BinOp,
    ty: IntType,
    a: &Value,
    b: &Value,
) -> Result<Option<Tested>, Stop>
    ensures { IfOk result (λ o. IfSome o (λ r. Tests (frame_of scope.now) (typed.binary at.now op ty (value_of a.now) (value_of b.now)) (state_of state.now) (state_of r.on) (state_of r.off))) }
{
    let Some(x) = look(scope, state, a) else {
        return Ok(None);
    };
    let Some(y) = look(scope, state, b) else {
        return Ok(None);
    };
    let all = all_of(ty);
    let left_fits = lies_in(x.interval, all);
    if !left_fits {
        return Ok(None);
    }
    let right_fits = lies_in(y.interval, all);
    if !right_fits {
        return Ok(None);
    }
    both_learnt(scope, state, op, x, y)
}
