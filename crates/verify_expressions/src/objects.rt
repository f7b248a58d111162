//! The facts about objects: looked up, changed and compared.

ghost use Rattle.std.specs.Prelude.{◌≡◌, ◌<◌, length, Some, IfOk, IfSome, IsTrue, slice_get, slice_set, vec_len};
ghost use Rattle.verify_logic.specs.States.{Contents, EachEntails, Entails, Implies, KnownEntails, Reads, Replaces, Writes, shape_of};
ghost use Rattle.verify_expressions.specs.Parts.{OneElement};
ghost use Rattle.verify_expressions.specs.Views.{frame_of, known_of, state_of};

use crate::facts::{changed, copied_facts, elements_read, facts_imply, forgotten, joined_facts};
use crate::places::has_one_element;
use crate::scope::Scope;
use crate::state::{AbsState, Known};
use crate::stop::Stop;
use std::alloc::Global;
use verify_intervals::{either, entails, initialised, single};
use verify_logic::{AbsValue, Interval};

/// Copies the values.
///
/// Errors: memory ran out.
pub fn copied_objects(alloc: Global, xs: &[AbsValue]) -> Result<Vec<AbsValue>, Stop>
    ensures { IfOk result (λ r. r.items ≡ xs.now) }
{
    let mut out = Vec::new(alloc);
    match out.extend_from_slice(xs) {
        Ok(()) => Ok(out),
        Err(_) => Err(Stop::Memory),
    }
}

/// Copies the facts about an object.
///
/// Errors: memory ran out.
pub fn copied_known(alloc: Global, known: &Known) -> Result<Known, Stop>
    ensures { IfOk result (λ r. known_of r ≡ known_of known.now) }
{
    let objects = copied_objects(alloc, &known.objects)?;
    let facts = copied_facts(alloc, &known.facts)?;
    Ok(Known { objects, facts })
}

/// Copies the state.
///
/// Errors: memory ran out.
pub fn copied(alloc: Global, state: &AbsState) -> Result<AbsState, Stop>
    ensures { IfOk result (λ r. state_of r ≡ state_of state.now) }
{
    match &state.objects {
        None => Ok(AbsState { objects: None }),
        Some(known) => {
            let out = copied_known(alloc, known)?;
            Ok(AbsState { objects: Some(out) })
        }
    }
}

#[tactic(auto, using(verify_logic::proofs::Objects::step_more, verify_logic::proofs::Objects::whole_entails))]
fn each_either(alloc: Global, xs: &[AbsValue], ys: &[AbsValue]) -> Result<Vec<AbsValue>, Stop>
    requires { length xs.now ≡ length ys.now }
    ensures first { IfOk result (λ r. EachEntails xs.now r.items) }
    ensures second { IfOk result (λ r. EachEntails ys.now r.items) }
{
    let mut out = Vec::new(alloc);
    for i in 0..xs.len() {
        let k = either(xs[i], ys[i]);
        let Ok(()) = out.push(k) else {
            return Err(Stop::Memory);
        };
    }
    Ok(out)
}

fn joined_objects(alloc: Global, xs: &[AbsValue], ys: &[AbsValue]) -> Result<Vec<AbsValue>, Stop>
    ensures first { IfOk result (λ r. EachEntails xs.now r.items) }
    ensures second { IfOk result (λ r. EachEntails ys.now r.items) }
{
    if xs.len() == ys.len() {
        each_either(alloc, xs, ys)
    } else {
        Err(Stop::Unfollowed(None))
    }
}

fn joined_known(alloc: Global, a: &Known, b: &Known) -> Result<Known, Stop>
    ensures first { IfOk result (λ r. KnownEntails (known_of a.now) (known_of r)) }
    ensures second { IfOk result (λ r. KnownEntails (known_of b.now) (known_of r)) }
{
    let objects = joined_objects(alloc, &a.objects, &b.objects)?;
    let facts = joined_facts(alloc, &a.facts, &b.facts)?;
    Ok(Known { objects, facts })
}

#[tactic(auto, using(verify_logic::proofs::Objects::implies_each, verify_logic::proofs::Objects::implies_same, verify_logic::proofs::Objects::none_implies))]
fn joined_with(alloc: Global, a: Known, b: AbsState) -> Result<AbsState, Stop>
    ensures first { IfOk result (λ r. Implies (Some (known_of a)) (state_of r)) }
    ensures second { IfOk result (λ r. Implies (state_of b) (state_of r)) }
{
    match b.objects {
        None => Ok(AbsState { objects: Some(a) }),
        Some(other) => {
            let out = joined_known(alloc, &a, &other)?;
            Ok(AbsState { objects: Some(out) })
        }
    }
}

/// The state if a run comes by one of two ways.
///
/// Errors: memory ran out.
#[tactic(auto, using(verify_logic::proofs::Objects::implies_same, verify_logic::proofs::Objects::none_implies))]
pub fn joined(alloc: Global, a: AbsState, b: AbsState) -> Result<AbsState, Stop>
    ensures first { IfOk result (λ r. Implies (state_of a) (state_of r)) }
    ensures second { IfOk result (λ r. Implies (state_of b) (state_of r)) }
{
    match a.objects {
        None => Ok(b),
        Some(known) => joined_with(alloc, known, b),
    }
}

#[tactic(auto, using(verify_logic::proofs::Objects::step_both, verify_logic::proofs::Objects::both_entail))]
fn each_entails(xs: &[AbsValue], ys: &[AbsValue]) -> bool
    requires { length xs.now ≡ length ys.now }
    ensures { IsTrue result → EachEntails xs.now ys.now }
{
    for i in 0..xs.len() {
        if !entails(xs[i], ys[i]) {
            return false;
        }
    }
    true
}

/// Tests whether one implies all that the other implies.
pub fn objects_entail(xs: &[AbsValue], ys: &[AbsValue]) -> bool
    ensures { IsTrue result → EachEntails xs.now ys.now }
{
    if xs.len() == ys.len() {
        each_entails(xs, ys)
    } else {
        false
    }
}

/// Tests whether one implies all that the other implies.
pub fn known_entails(a: &Known, b: &Known) -> bool
    ensures { IsTrue result → KnownEntails (known_of a.now) (known_of b.now) }
{
    let objects = objects_entail(&a.objects, &b.objects);
    if !objects {
        return false;
    }
    facts_imply(&a.facts, &b.facts)
}

#[tactic(auto, using(verify_logic::proofs::Objects::implies_each))]
fn some_imply(a: &Known, b: &AbsState) -> bool
    ensures { IsTrue result → Implies (Some (known_of a.now)) (state_of b.now) }
{
    match &b.objects {
        None => false,
        Some(other) => known_entails(a, other),
    }
}

/// Tests whether one implies all that the other implies.
#[tactic(auto, using(verify_logic::proofs::Objects::none_implies))]
pub fn imply(a: &AbsState, b: &AbsState) -> bool
    ensures { IsTrue result → Implies (state_of a.now) (state_of b.now) }
{
    match &a.objects {
        None => true,
        Some(known) => some_imply(known, b),
    }
}

/// The facts about the elements of object `x`.
pub fn value_in(xs: &[AbsValue], x: usize) -> Option<AbsValue>
    ensures { IfSome result (λ k. slice_get xs.now x ≡ Some k) }
{
    if x < xs.len() { Some(xs[x]) } else { None }
}

fn content_in(known: &Known, x: usize) -> Option<AbsValue>
    ensures { IfSome result (λ k. Contents (Some (known_of known.now)) x k) }
{
    let Some(k) = value_in(&known.objects, x) else {
        return None;
    };
    Some(k)
}

/// The facts about the elements of object `x`.
#[tactic(auto, using(verify_logic::proofs::Objects::none_contents))]
pub fn content_at(state: &AbsState, x: usize) -> Option<AbsValue>
    ensures { IfSome result (λ k. Contents (state_of state.now) x k) }
{
    match &state.objects {
        None => Some(initialised(single(0))),
        Some(known) => content_in(known, x),
    }
}

fn element_in(known: &Known, x: usize, j: Interval) -> Option<AbsValue>
    ensures { IfSome result (λ k. Reads (Some (known_of known.now)) x (Some j) k) }
{
    let Some(i) = elements_read(&known.facts, x, j) else {
        return None;
    };
    let k = initialised(i);
    Some(k)
}

fn element_known(state: &AbsState, x: usize, j: Interval) -> Option<AbsValue>
    ensures { IfSome result (λ k. Reads (state_of state.now) x (Some j) k) }
{
    match &state.objects {
        None => None,
        Some(known) => element_in(known, x, j),
    }
}

fn any_element(state: &AbsState, x: usize, sub: Option<Interval>) -> Option<AbsValue>
    ensures { IfSome result (λ k. Reads (state_of state.now) x sub k) }
{
    let Some(k) = content_at(state, x) else {
        return None;
    };
    Some(k)
}

/// The fact about an element of object `x`, whose subscript is in `sub` if that is known.
pub fn element_at(state: &AbsState, x: usize, sub: Option<Interval>) -> Option<AbsValue>
    ensures { IfSome result (λ k. Reads (state_of state.now) x sub k) }
{
    match sub {
        None => any_element(state, x, sub),
        Some(j) => match element_known(state, x, j) {
            None => any_element(state, x, sub),
            Some(k) => Some(k),
        },
    }
}

/// The values with another at a place.
pub fn with_value(mut xs: Vec<AbsValue>, x: usize, k: AbsValue) -> Vec<AbsValue>
    requires { x < vec_len xs }
    ensures { result.items ≡ slice_set xs.items x k }
{
    xs[x] = k;
    xs
}

/// The values of the objects with another at a place, without facts about its elements.
fn replaced_in(alloc: Global, known: Known, x: usize, k: AbsValue) -> Result<AbsState, Stop>
    ensures { IfOk result (λ r. Replaces (Some (known_of known)) x k (state_of r)) }
{
    if x < known.objects.len() {
        let facts = forgotten(alloc, &known.facts, x)?;
        let objects = with_value(known.objects, x, k);
        Ok(AbsState {
            objects: Some(Known { objects, facts }),
        })
    } else {
        Err(Stop::Unfollowed(None))
    }
}

/// The state with another object `x`.
///
/// Errors: memory ran out, or there is no such object.
#[tactic(auto, using(verify_logic::proofs::Objects::none_replaces))]
pub fn replaced(alloc: Global, state: AbsState, x: usize, k: AbsValue) -> Result<AbsState, Stop>
    ensures { IfOk result (λ r. Replaces (state_of state) x k (state_of r)) }
{
    match state.objects {
        None => Ok(AbsState { objects: None }),
        Some(known) => replaced_in(alloc, known, x, k),
    }
}

fn element_written(
    scope: &Scope<'_>,
    state: AbsState,
    x: usize,
    sub: Option<Interval>,
    i: Interval,
) -> Result<AbsState, Stop>
    requires { OneElement (shape_of (frame_of scope.now) x) }
    ensures { IfOk result (λ r. Writes (frame_of scope.now) (state_of state) x sub i (state_of r)) }
{
    let Some(_old) = content_at(&state, x) else {
        return Err(Stop::Unfollowed(None));
    };
    let new = initialised(i);
    let state2 = replaced(scope.alloc, state, x, new)?;
    Ok(state2)
}

fn known_written(
    scope: &Scope<'_>,
    known: Known,
    x: usize,
    sub: Option<Interval>,
    i: Interval,
) -> Result<AbsState, Stop>
    ensures { IfOk result (λ r. Writes (frame_of scope.now) (Some (known_of known)) x sub i (state_of r)) }
{
    let Some(old) = value_in(&known.objects, x) else {
        return Err(Stop::Unfollowed(None));
    };
    let new = initialised(i);
    let k = either(old, new);
    let facts = changed(scope.alloc, &known.facts, x, sub, i)?;
    let objects = with_value(known.objects, x, k);
    Ok(AbsState {
        objects: Some(Known { objects, facts }),
    })
}

fn array_written(
    scope: &Scope<'_>,
    state: AbsState,
    x: usize,
    sub: Option<Interval>,
    i: Interval,
) -> Result<AbsState, Stop>
    ensures { IfOk result (λ r. Writes (frame_of scope.now) (state_of state) x sub i (state_of r)) }
{
    match state.objects {
        None => Ok(AbsState { objects: None }),
        Some(known) => known_written(scope, known, x, sub, i),
    }
}

/// The state with a value in an element of object `x`, whose subscript is in `sub` if that is known. If it may be one of several, each may
/// also be what it was.
///
/// Errors: memory ran out, or there is no such object.
pub fn written(
    scope: &Scope<'_>,
    state: AbsState,
    x: usize,
    sub: Option<Interval>,
    i: Interval,
) -> Result<AbsState, Stop>
    ensures { IfOk result (λ r. Writes (frame_of scope.now) (state_of state) x sub i (state_of r)) }
{
    let alone = has_one_element(scope, x);
    if alone {
        element_written(scope, state, x, sub, i)
    } else {
        array_written(scope, state, x, sub, i)
    }
}
