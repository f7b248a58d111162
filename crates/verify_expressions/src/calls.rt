//! Calls of functions (6.5.2.2, 6.9.1), by summaries of their bodies. What a summary would have to state is guessed, and then tested.

ghost use Rattle.std.specs.Prelude.{◌≡◌, ◌<◌, ◌≤◌, ◌+◌, ◌++◌, [], false, length, map, take, IfOk, IfSome, IsTrue, Some, slice_get};
ghost use Rattle.typed_ast.specs.View.{function_of, object_type_of};
ghost use Rattle.verify_logic.specs.States.{KnownEntails, shapes_of};
ghost use Rattle.verify_logic.specs.Calls.{CallValue, Cuts, Entered, HoldBelow, with_own};
ghost use Rattle.verify_expressions.specs.Views.{frame_of, known_of, known_or_none, shapes_at, shapes_in, state_of, summary_of};
ghost use Rattle.verify_expressions.specs.Parts.{CallsAt, EntersAt, Fits, Gets, Summarised};

use crate::expressions::Evaluated;
use crate::memory::{expected_summary, pass_call, take_search, take_step};
use crate::objects::{copied_known, copied_objects, known_entails};
use crate::operators::is_listed;
use crate::places::{object_count, shape};
use crate::scope::{Scope, Summary};
use crate::state::{AbsState, Known};
use crate::stop::{Alarm, Stop, Wanted};
use ctypes::Undef;
use srcset::Pos;
use std::alloc::Global;
use typed_ast::{Function, ObjectType};
use verify_intervals::{entails, hull, initialised, single, uninitialised};
use verify_logic::{AbsValue, ArrayArgument, Fact, Interval};

// ---- the objects of a call

fn first_value(passed: &[Interval], n: usize) -> AbsValue {
    match passed.get(n) {
        Some(i) => initialised(*i),
        None => uninitialised(),
    }
}

/// The objects of a call as it begins. It is a guess: nothing depends on it.
fn guessed_objects(
    alloc: Global,
    count: usize,
    passed: &[Interval],
) -> Result<Vec<AbsValue>, Stop> {
    let mut out = Vec::new(alloc);
    for n in 0..count {
        let Ok(()) = out.push(first_value(passed, n)) else {
            return Err(Stop::Memory);
        };
    }
    Ok(out)
}

fn is_scalar_type(object: &ObjectType) -> bool
    ensures { IsTrue result → (object_type_of object.now).lengths ≡ [] }
{
    object.lengths.is_empty()
}

fn gets(i: Interval, object: &ObjectType, k: AbsValue) -> bool
    ensures { IsTrue result → Gets i (object_type_of object.now) k }
{
    let scalar = is_scalar_type(object);
    let whole = initialised(i);
    let within = entails(whole, k);
    scalar && within
}

fn is_unset(k: AbsValue) -> bool
    ensures { IsTrue result → k.initialised ≡ false }
{
    !k.initialised
}

/// Tests whether object `n` of a call begins in this way: as the numeric argument, or without a value.
#[tactic(auto, using(crate::proofs::Summaries::enters_set, crate::proofs::Summaries::enters_unset))]
fn enters(passed: &[Interval], n: usize, object: &ObjectType, k: AbsValue) -> bool
    ensures { IsTrue result → EntersAt passed.now n (object_type_of object.now) k }
{
    if n < passed.len() {
        gets(passed[n], object, k)
    } else {
        is_unset(k)
    }
}

fn are_as_many(passed: &[Interval], objects: &[ObjectType], own: &[AbsValue]) -> bool
    ensures objects { IsTrue result → length objects.now ≡ length own.now }
    ensures passed { IsTrue result → length passed.now ≤ length own.now }
{
    objects.len() == own.len() && passed.len() <= own.len()
}

/// Tests whether the objects of a call with these numeric arguments begin in this way.
fn is_entered(passed: &[Interval], objects: &[ObjectType], own: &[AbsValue]) -> bool
    ensures { IsTrue result → Entered passed.now (map object_type_of objects.now) own.now }
{
    let alike = are_as_many(passed, objects, own);
    if !alike {
        return false;
    }
    each_enters(passed, objects, own)
}

fn each_enters(passed: &[Interval], objects: &[ObjectType], own: &[AbsValue]) -> bool
    requires objects { length objects.now ≡ length own.now }
    requires passed { length passed.now ≤ length own.now }
    ensures { IsTrue result → Entered passed.now (map object_type_of objects.now) own.now }
{
    for n in 0..own.len() {
        let right = enters(passed, n, &objects[n], own[n]);
        if !right {
            return false;
        }
    }
    true
}

/// The objects of a call with these numeric arguments, as it begins.
fn entered(
    alloc: Global,
    objects: &[ObjectType],
    passed: &[Interval],
) -> Result<Vec<AbsValue>, Stop>
    ensures { IfOk result (λ r. Entered passed.now (map object_type_of objects.now) r.items) }
{
    let own = guessed_objects(alloc, objects.len(), passed)?;
    let right = is_entered(passed, objects, &own);
    if right {
        Ok(own)
    } else {
        Err(Stop::Unfollowed(None))
    }
}

/// These objects, then those.
fn appended(first: Vec<AbsValue>, rest: &[AbsValue]) -> Result<Vec<AbsValue>, Stop>
    ensures { IfOk result (λ r. r.items ≡ first.items ++ rest.now) }
{
    let mut out = first;
    match out.extend_from_slice(rest) {
        Ok(()) => Ok(out),
        Err(_) => Err(Stop::Memory),
    }
}

// ---- whether a summary applies

fn same(a: &[u32], b: &[u32]) -> bool
    ensures { IsTrue result → a.now ≡ b.now }
{
    a == b
}

fn are_together(xs: &[Vec<u32>], outer: &[Vec<u32>], objects: &[ObjectType]) -> bool
    ensures { IsTrue result → length xs.now ≡ length outer.now + length objects.now }
{
    match outer.len().checked_add(objects.len()) {
        Some(n) => xs.len() == n,
        None => false,
    }
}

/// Tests whether these are the lengths of all objects.
fn same_shapes(xs: &[Vec<u32>], outer: &[Vec<u32>], objects: &[ObjectType]) -> bool
    ensures { IsTrue result → shapes_in xs.now ≡ shapes_at outer.now objects.now }
{
    let together = are_together(xs, outer, objects);
    if !together {
        return false;
    }
    each_same(xs, outer, objects)
}

fn each_same(xs: &[Vec<u32>], outer: &[Vec<u32>], objects: &[ObjectType]) -> bool
    requires { length xs.now ≡ length outer.now + length objects.now }
    ensures { IsTrue result → shapes_in xs.now ≡ shapes_at outer.now objects.now }
{
    for n in 0..xs.len() {
        let lengths = shape(outer, objects, n);
        let equal = same(&xs[n], lengths);
        if !equal {
            return false;
        }
    }
    true
}

fn same_outer(scope: &Scope<'_>, a: &Summary) -> bool
    ensures { IsTrue result → (summary_of a.now).outer ≡ shapes_of (frame_of scope.now) }
{
    same_shapes(&a.outer, scope.outer, scope.objects)
}

fn is_same(a: ArrayArgument, b: ArrayArgument) -> bool
    ensures { IsTrue result → a ≡ b }
{
    a == b
}

fn each_equal(xs: &[ArrayArgument], ys: &[ArrayArgument]) -> bool
    requires { length xs.now ≡ length ys.now }
    ensures { IsTrue result → xs.now ≡ ys.now }
{
    for n in 0..xs.len() {
        let equal = is_same(xs[n], ys[n]);
        if !equal {
            return false;
        }
    }
    true
}

fn are_same(xs: &[ArrayArgument], ys: &[ArrayArgument]) -> bool
    ensures { IsTrue result → xs.now ≡ ys.now }
{
    if xs.len() == ys.len() {
        each_equal(xs, ys)
    } else {
        false
    }
}

fn same_arrays(a: &Summary, arrays: &[ArrayArgument]) -> bool
    ensures { IsTrue result → (summary_of a.now).arrays ≡ arrays.now }
{
    are_same(&a.arrays, arrays)
}

fn same_function(a: &Summary, f: usize) -> bool
    ensures { IsTrue result → (summary_of a.now).function ≡ f }
{
    a.function == f
}

fn admits(a: &Summary, entry: &Known) -> bool
    ensures { IsTrue result → KnownEntails (known_of entry.now) (summary_of a.now).entry }
{
    known_entails(entry, &a.entry)
}

/// Tests whether the summary describes a call that begins with these objects.
fn fits(scope: &Scope<'_>, f: usize, a: &Summary, arrays: &[ArrayArgument], entry: &Known) -> bool
    ensures { IsTrue result → Fits (frame_of scope.now) f arrays.now (known_of entry.now) (summary_of a.now) }
{
    let called = same_function(a, f);
    if !called {
        return false;
    }
    let alike = same_outer(scope, a);
    if !alike {
        return false;
    }
    let passed = same_arrays(a, arrays);
    if !passed {
        return false;
    }
    admits(a, entry)
}

// ---- the content of a summary

/// The value of a call (6.9.1p12).
fn value_at(scope: &Scope<'_>, at: Pos, used: bool, value: AbsValue) -> Result<Interval, Stop>
    ensures { IfOk result (λ r. CallValue (frame_of scope.now) at used value r) }
{
    let always = value.initialised;
    if always {
        return Ok(value.interval);
    }
    let zero = single(0);
    let either = hull(value.interval, zero);
    if !used {
        return Ok(either);
    }
    let admitted = is_listed(scope, at);
    if admitted {
        Ok(either)
    } else {
        Err(Stop::Alarm(Alarm {
            at,
            act: Undef::U8,
            interval: value.interval,
        }))
    }
}

fn is_below(x: usize, n: usize) -> bool
    ensures { IsTrue result → x < n }
{
    x < n
}

/// The facts about elements of the first `n` objects.
fn first_facts(alloc: Global, facts: &[Fact], n: usize) -> Result<Vec<Fact>, Stop>
    ensures { IfOk result (λ r. HoldBelow n facts.now r.items) }
{
    let mut out = Vec::new(alloc);
    for m in 0..facts.len() {
        let f = facts[m];
        let below = is_below(f.object, n);
        if !below {
            continue;
        }
        let Ok(()) = out.push(f) else {
            return Err(Stop::Memory);
        };
    }
    Ok(out)
}

fn first_objects(alloc: Global, xs: &[AbsValue], n: usize) -> Result<Vec<AbsValue>, Stop>
    ensures { IfOk result (λ r. r.items ≡ take n xs.now) }
{
    let mut out = copied_objects(alloc, xs)?;
    out.truncate(n);
    Ok(out)
}

fn front(alloc: Global, known: &Known, n: usize) -> Result<AbsState, Stop>
    ensures { IfOk result (λ r. Cuts n (Some (known_of known.now)) (state_of r)) }
{
    let objects = first_objects(alloc, &known.objects, n)?;
    let facts = first_facts(alloc, &known.facts, n)?;
    Ok(AbsState {
        objects: Some(Known { objects, facts }),
    })
}

/// The facts about the first `n` objects.
fn front_of(alloc: Global, left: &Option<Known>, n: usize) -> Result<AbsState, Stop>
    ensures { IfOk result (λ r. Cuts n (known_or_none left.now) (state_of r)) }
{
    match left {
        None => Ok(AbsState { objects: None }),
        Some(known) => front(alloc, known, n),
    }
}

/// The state after a call with this state after its body.
fn behind(scope: &Scope<'_>, left: &Option<Known>) -> Result<AbsState, Stop>
    ensures { IfOk result (λ r. Cuts (length (shapes_of (frame_of scope.now))) (known_or_none left.now) (state_of r)) }
{
    let Some(n) = object_count(scope) else {
        return Err(Stop::Unfollowed(None));
    };
    let state = front_of(scope.alloc, left, n)?;
    Ok(state)
}

fn by_summary(
    scope: &Scope<'_>,
    at: Pos,
    f: usize,
    used: bool,
    arrays: &[ArrayArgument],
    entry: &Known,
    n: usize,
    a: &Summary,
) -> Result<Evaluated, Stop>
    requires { slice_get (frame_of scope.now).summaries n ≡ Some (summary_of a.now) }
    ensures { IfOk result (λ e. Summarised (frame_of scope.now) at f used arrays.now (known_of entry.now) e.interval (state_of e.state)) }
{
    let fit = fits(scope, f, a, arrays, entry);
    if !fit {
        return Err(Stop::Unfollowed(Some(at)));
    }
    let interval = value_at(scope, at, used, a.value)?;
    let state = behind(scope, &a.left)?;
    Ok(Evaluated { interval, state })
}

/// What summary `n` states of a call of function `f` that begins with these objects.
fn summarised(
    scope: &Scope<'_>,
    at: Pos,
    f: usize,
    used: bool,
    arrays: &[ArrayArgument],
    entry: &Known,
    n: usize,
) -> Result<Evaluated, Stop>
    ensures { IfOk result (λ e. Summarised (frame_of scope.now) at f used arrays.now (known_of entry.now) e.interval (state_of e.state)) }
{
    match scope.summaries.get(n) {
        None => Err(Stop::Unfollowed(Some(at))),
        Some(a) => by_summary(scope, at, f, used, arrays, entry, n, a),
    }
}

/// Tests whether the same objects are known to have values. A summary that begins with fewer facts also gives fewer facts about the caller's objects.
fn same_marks(xs: &[AbsValue], ys: &[AbsValue]) -> bool {
    if xs.len() != ys.len() {
        return false;
    }
    for n in 0..xs.len() {
        if xs[n].initialised != ys[n].initialised {
            return false;
        }
    }
    true
}

/// Tests whether the summary is of function `f` and applies, as far as there is work left.
fn is_found(
    scope: &Scope<'_>,
    f: usize,
    a: &Summary,
    arrays: &[ArrayArgument],
    entry: &Known,
) -> bool {
    if a.function != f {
        return false;
    }
    let goes_on = take_step(scope);
    goes_on && same_marks(&entry.objects, &a.entry.objects) && fits(scope, f, a, arrays, entry)
}

/// The summary that was used for the call before, if there is one and it applies.
fn found_again(
    scope: &Scope<'_>,
    f: usize,
    arrays: &[ArrayArgument],
    entry: &Known,
) -> Option<usize> {
    let Some(n) = expected_summary(scope) else {
        return None;
    };
    let Some(a) = scope.summaries.get(n) else {
        return None;
    };
    if is_found(scope, f, a, arrays, entry) {
        Some(n)
    } else {
        None
    }
}

/// The first summary that applies, if there is one.
fn searched(scope: &Scope<'_>, f: usize, arrays: &[ArrayArgument], entry: &Known) -> Option<usize> {
    let goes_on = take_search(scope);
    if !goes_on {
        return None;
    }
    for n in 0..scope.summaries.len() {
        if is_found(scope, f, &scope.summaries[n], arrays, entry) {
            return Some(n);
        }
    }
    None
}

/// A summary that applies, if there is one. It is a guess: nothing depends on it.
///
/// Errors: memory ran out.
fn fitting(
    scope: &Scope<'_>,
    f: usize,
    arrays: &[ArrayArgument],
    entry: &Known,
) -> Result<Option<usize>, Stop> {
    let found = match found_again(scope, f, arrays, entry) {
        Some(n) => Some(n),
        None => searched(scope, f, arrays, entry),
    };
    pass_call(scope, found)?;
    Ok(found)
}

fn copied_lengths(alloc: Global, lengths: &[u32]) -> Result<Vec<u32>, Stop> {
    let mut out = Vec::new(alloc);
    match out.extend_from_slice(lengths) {
        Ok(()) => Ok(out),
        Err(_) => Err(Stop::Memory),
    }
}

/// The lengths of all objects.
fn all_lengths(scope: &Scope<'_>) -> Result<Vec<Vec<u32>>, Stop> {
    let mut outer = Vec::new(scope.alloc);
    let Some(count) = object_count(scope) else {
        return Err(Stop::Unfollowed(None));
    };
    for n in 0..count {
        let copy = copied_lengths(scope.alloc, shape(scope.outer, scope.objects, n))?;
        let Ok(()) = outer.push(copy) else {
            return Err(Stop::Memory);
        };
    }
    Ok(outer)
}

fn copied_arrays(alloc: Global, arrays: &[ArrayArgument]) -> Result<Vec<ArrayArgument>, Stop> {
    let mut out = Vec::new(alloc);
    match out.extend_from_slice(arrays) {
        Ok(()) => Ok(out),
        Err(_) => Err(Stop::Memory),
    }
}

fn call_wanted(
    scope: &Scope<'_>,
    f: usize,
    arrays: &[ArrayArgument],
    entry: &Known,
) -> Result<Wanted, Stop> {
    let outer = all_lengths(scope)?;
    let arrays = copied_arrays(scope.alloc, arrays)?;
    let entry = copied_known(scope.alloc, entry)?;
    Ok(Wanted {
        function: f,
        outer,
        arrays,
        entry,
    })
}

/// The call that was not analysed yet, as a reason to stop.
fn wanted(scope: &Scope<'_>, f: usize, arrays: &[ArrayArgument], entry: &Known) -> Stop {
    match call_wanted(scope, f, arrays, entry) {
        Ok(call) => Stop::Wanted(call),
        Err(stop) => stop,
    }
}

/// A call of function `f` that begins with these objects.
fn begun(
    scope: &Scope<'_>,
    at: Pos,
    f: usize,
    used: bool,
    arrays: &[ArrayArgument],
    entry: &Known,
) -> Result<Evaluated, Stop>
    ensures { IfOk result (λ e. Summarised (frame_of scope.now) at f used arrays.now (known_of entry.now) e.interval (state_of e.state)) }
{
    let found = fitting(scope, f, arrays, entry)?;
    match found {
        None => Err(wanted(scope, f, arrays, entry)),
        Some(n) => summarised(scope, at, f, used, arrays, entry, n),
    }
}

// ---- the call

fn defined_called(
    scope: &Scope<'_>,
    known: Known,
    at: Pos,
    f: usize,
    used: bool,
    passed: &[Interval],
    arrays: &[ArrayArgument],
    function: &Function,
) -> Result<Evaluated, Stop>
    requires { slice_get (frame_of scope.now).program.functions f ≡ Some (function_of function.now) }
    ensures { IfOk result (λ r. CallsAt (frame_of scope.now) at f used passed.now arrays.now (Some (known_of known)) r.interval (state_of r.state)) }
{
    let own = own_objects(scope.alloc, function, passed)?;
    let entry = all_objects(known, &own)?;
    let e = begun(scope, at, f, used, arrays, &entry)?;
    Ok(e)
}

fn all_objects(known: Known, own: &Vec<AbsValue>) -> Result<Known, Stop>
    ensures { IfOk result (λ r. known_of r ≡ with_own (known_of known) own.now.items) }
{
    let objects = appended(known.objects, own)?;
    Ok(Known {
        objects,
        facts: known.facts,
    })
}

fn own_objects(
    alloc: Global,
    function: &Function,
    passed: &[Interval],
) -> Result<Vec<AbsValue>, Stop>
    ensures { IfOk result (λ r. Entered passed.now (function_of function.now).objects r.items) }
{
    let own = entered(alloc, &function.objects, passed)?;
    Ok(own)
}

fn reached_called(
    scope: &Scope<'_>,
    known: Known,
    at: Pos,
    f: usize,
    used: bool,
    passed: &[Interval],
    arrays: &[ArrayArgument],
) -> Result<Evaluated, Stop>
    ensures { IfOk result (λ r. CallsAt (frame_of scope.now) at f used passed.now arrays.now (Some (known_of known)) r.interval (state_of r.state)) }
{
    match scope.program.functions.get(f) {
        None => Err(Stop::Unfollowed(Some(at))),
        Some(function) => { defined_called(scope, known, at, f, used, passed, arrays, function) },
    }
}

/// A call of function `f`.
///
/// Errors: such a call was not analysed yet, its value may be used if it has none, or the analysis is not possible.
#[tactic(auto, using(crate::proofs::Summaries::none_calls))]
pub fn function_called(
    scope: &Scope<'_>,
    state: AbsState,
    at: Pos,
    f: usize,
    used: bool,
    passed: &[Interval],
    arrays: &[ArrayArgument],
) -> Result<Evaluated, Stop>
    ensures { IfOk result (λ r. CallsAt (frame_of scope.now) at f used passed.now arrays.now (state_of state) r.interval (state_of r.state)) }
{
    match state.objects {
        None => Ok(Evaluated {
            interval: single(0),
            state: AbsState { objects: None },
        }),
        Some(known) => reached_called(scope, known, at, f, used, passed, arrays),
    }
}
