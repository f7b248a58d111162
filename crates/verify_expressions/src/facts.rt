//! Facts about single elements of arrays of one row: looked up, compared, joined and changed.

ghost use Rattle.std.specs.Prelude.{◌≡◌, ◌<ℤ◌, ◌++◌, ◌∷◌, [], Some, false, IfOk, IfSome, IsTrue, pos};
ghost use Rattle.verify_logic.specs.States.{Among, Changes, ChangesOne, FactsImply, Forgets, In, ReadsAll};
ghost use Rattle.verify_expressions.specs.Parts.{Apart};

use crate::stop::Stop;
use std::alloc::Global;
use verify_intervals::{hull, lies_in, nothing};
use verify_logic::{Fact, Interval};

/// The number of elements of an array for which single facts may be kept.
pub const FOLLOWED_ELEMENTS: u32 = 64;

/// The first subscript after these elements.
const PAST_FOLLOWED: u32 = FOLLOWED_ELEMENTS + 1;

/// The number of elements in all for which facts may be kept.
const MOST_FACTS: usize = 1024;

/// The fact about an element, and its position.
#[derive(Clone, Copy)]
struct FoundFact {
    at: usize,
    interval: Interval,
}

/// Copies the facts.
///
/// Errors: memory ran out.
pub fn copied_facts(alloc: Global, xs: &[Fact]) -> Result<Vec<Fact>, Stop>
    ensures { IfOk result (λ r. r.items ≡ xs.now) }
{
    let mut out = Vec::new(alloc);
    match out.extend_from_slice(xs) {
        Ok(()) => Ok(out),
        Err(_) => Err(Stop::Memory),
    }
}

fn is_of(f: Fact, x: usize, index: u32) -> bool
    ensures { IsTrue result → (f.object ≡ x) × (f.index ≡ index) }
{
    f.object == x && f.index == index
}

fn found_here(facts: &[Fact], x: usize, index: u32, n: usize) -> Option<FoundFact>
    ensures { IfSome result (λ r. Among facts.now x index r.interval) }
{
    if n < facts.len() {
        let f = facts[n];
        let same = is_of(f, x, index);
        if same {
            return Some(FoundFact {
                at: n,
                interval: f.interval,
            });
        }
    }
    None
}

fn searched(facts: &[Fact], x: usize, index: u32) -> Option<FoundFact>
    ensures { IfSome result (λ r. Among facts.now x index r.interval) }
{
    for n in 0..facts.len() {
        let f = facts[n];
        let same = is_of(f, x, index);
        if same {
            return Some(FoundFact {
                at: n,
                interval: f.interval,
            });
        }
    }
    None
}

/// The fact about element `index` of object `x`; position `near` is searched first.
fn found(facts: &[Fact], x: usize, index: u32, near: usize) -> Option<FoundFact>
    ensures { IfSome result (λ r. Among facts.now x index r.interval) }
{
    match found_here(facts, x, index, near) {
        Some(r) => Some(r),
        None => searched(facts, x, index),
    }
}

fn behind(at: usize) -> usize {
    at.saturating_add(1)
}

/// The facts about elements if a run comes by one of two ways.
///
/// Errors: memory ran out.
pub fn joined_facts(alloc: Global, xs: &[Fact], ys: &[Fact]) -> Result<Vec<Fact>, Stop>
    ensures first { IfOk result (λ r. FactsImply xs.now r.items) }
    ensures second { IfOk result (λ r. FactsImply ys.now r.items) }
{
    let mut out = Vec::new(alloc);
    let mut near = 0;
    for n in 0..xs.len() {
        let f = xs[n];
        let Some(other) = found(ys, f.object, f.index, near) else {
            continue;
        };
        near = behind(other.at);
        let interval = hull(f.interval, other.interval);
        let Ok(()) = out.push(Fact {
            object: f.object,
            index: f.index,
            interval,
        }) else {
            return Err(Stop::Memory);
        };
    }
    Ok(out)
}

/// Tests whether one implies all that the other implies.
pub fn facts_imply(xs: &[Fact], ys: &[Fact]) -> bool
    ensures { IsTrue result → FactsImply xs.now ys.now }
{
    let mut near = 0;
    for n in 0..ys.len() {
        let f = ys[n];
        let Some(other) = found(xs, f.object, f.index, near) else {
            return false;
        };
        near = behind(other.at);
        let within = lies_in(other.interval, f.interval);
        if !within {
            return false;
        }
    }
    true
}

// ---- an object changes

fn is_apart(f: Fact, x: usize) -> bool
    ensures { IsTrue result → Apart f x }
{
    f.object != x
}

/// The facts without those of object `x`.
///
/// Errors: memory ran out.
pub fn forgotten(alloc: Global, facts: &[Fact], x: usize) -> Result<Vec<Fact>, Stop>
    ensures { IfOk result (λ r. Forgets x facts.now r.items) }
{
    let mut out = Vec::new(alloc);
    for n in 0..facts.len() {
        let f = facts[n];
        let apart = is_apart(f, x);
        if !apart {
            continue;
        }
        let Ok(()) = out.push(f) else {
            return Err(Stop::Memory);
        };
    }
    Ok(out)
}

fn begins_at(n: u32, j: Interval) -> bool
    ensures { IsTrue result → j.low ≡ pos n }
{
    i64::from(n) == j.low
}

/// The least subscript of an interval, if it is one of the first.
fn least_index(j: Interval) -> Option<u32>
    ensures { IfSome result (λ n. j.low ≡ pos n) }
{
    for n in 0..FOLLOWED_ELEMENTS {
        let least = begins_at(n, j);
        if least {
            return Some(n);
        }
    }
    None
}

fn is_past(n: u32, j: Interval) -> bool
    ensures { IsTrue result → j.high <ℤ pos n }
{
    let v = i64::from(n);
    j.high < v
}

fn may_be(index: u32, j: Interval) -> bool
    ensures { (result ≡ false) → In j (pos index) → ⊥ }
{
    let v = i64::from(index);
    j.low <= v && v <= j.high
}

/// Tests whether the interval contains only this number.
fn is_only(index: u32, j: Interval) -> bool
    ensures { IsTrue result → (j.low ≡ pos index) × (j.high ≡ pos index) }
{
    let v = i64::from(index);
    j.low == v && j.high == v
}

/// The fact about an element of object `x` after a write to one whose subscript is in `j`.
fn own_changed(f: Fact, x: usize, j: Interval, i: Interval) -> Fact
    requires { f.object ≡ x }
    ensures { ChangesOne x j i f result }
{
    let touched = may_be(f.index, j);
    if !touched {
        return f;
    }
    let only = is_only(f.index, j);
    if only {
        return Fact {
            object: x,
            index: f.index,
            interval: i,
        };
    }
    let interval = hull(f.interval, i);
    Fact {
        object: f.object,
        index: f.index,
        interval,
    }
}

fn is_same(a: usize, b: usize) -> bool
    ensures yes { IsTrue result → a ≡ b }
    ensures no { (result ≡ false) → a ≡ b → ⊥ }
{
    a == b
}

/// The fact about an element of any object then.
fn one_changed(f: Fact, x: usize, j: Interval, i: Interval) -> Fact
    ensures { ChangesOne x j i f result }
{
    let own = is_same(f.object, x);
    if own {
        return own_changed(f, x, j, i);
    }
    f
}

fn all_changed(
    alloc: Global,
    facts: &[Fact],
    x: usize,
    j: Interval,
    i: Interval,
) -> Result<Vec<Fact>, Stop>
    ensures { IfOk result (λ r. Changes x (Some j) i facts.now r.items) }
{
    let mut out = Vec::new(alloc);
    for n in 0..facts.len() {
        let f = facts[n];
        let g = one_changed(f, x, j, i);
        let Ok(()) = out.push(g) else {
            return Err(Stop::Memory);
        };
    }
    Ok(out)
}

fn with_fact(mut facts: Vec<Fact>, f: Fact) -> Result<Vec<Fact>, Stop>
    ensures { IfOk result (λ r. r.items ≡ facts.items ++ f ∷ []) }
{
    let Ok(()) = facts.push(f) else {
        return Err(Stop::Memory);
    };
    Ok(facts)
}

/// Tests whether one more fact may be kept, about an element without one. It is a guess: nothing depends on it.
fn is_new(facts: &[Fact], x: usize, index: u32) -> bool {
    facts.len() < MOST_FACTS && found(facts, x, index, 0).is_none()
}

/// The facts after a write of a value in `i` to the element of object `x` whose subscript is the low end of `j`, if that is the only one.
fn new_known(
    facts: &[Fact],
    out: Vec<Fact>,
    x: usize,
    j: Interval,
    i: Interval,
) -> Result<Vec<Fact>, Stop>
    requires { Changes x (Some j) i facts.now out.items }
    ensures { IfOk result (λ r. Changes x (Some j) i facts.now r.items) }
{
    let Some(index) = least_index(j) else {
        return Ok(out);
    };
    let only = is_only(index, j);
    if !only {
        return Ok(out);
    }
    let new = is_new(&out, x, index);
    if !new {
        return Ok(out);
    }
    let all = with_fact(
        out,
        Fact {
            object: x,
            index,
            interval: i,
        },
    )?;
    Ok(all)
}

fn element_changed(
    alloc: Global,
    facts: &[Fact],
    x: usize,
    j: Interval,
    i: Interval,
) -> Result<Vec<Fact>, Stop>
    ensures { IfOk result (λ r. Changes x (Some j) i facts.now r.items) }
{
    let out = all_changed(alloc, facts, x, j, i)?;
    let all = new_known(facts, out, x, j, i)?;
    Ok(all)
}

/// The facts after a write of a value in `i` to an element of object `x`, whose subscript is in `sub` if that is known.
///
/// Errors: memory ran out.
pub fn changed(
    alloc: Global,
    facts: &[Fact],
    x: usize,
    sub: Option<Interval>,
    i: Interval,
) -> Result<Vec<Fact>, Stop>
    ensures { IfOk result (λ r. Changes x sub i facts.now r.items) }
{
    match sub {
        None => {
            let out = forgotten(alloc, facts, x)?;
            Ok(out)
        }
        Some(j) => {
            let out = element_changed(alloc, facts, x, j, i)?;
            Ok(out)
        }
    }
}

// ---- elements are read

/// The interval of all elements of object `x` whose subscripts are in `j`, if each is known.
pub fn elements_read(facts: &[Fact], x: usize, j: Interval) -> Option<Interval>
    ensures { IfSome result (λ k. ReadsAll facts.now x j k) }
{
    let Some(low) = least_index(j) else {
        return None;
    };
    let mut all = nothing();
    let mut near = 0;
    for n in low..PAST_FOLLOWED {
        let past = is_past(n, j);
        if past {
            return Some(all);
        }
        let Some(one) = found(facts, x, n, near) else {
            return None;
        };
        near = behind(one.at);
        let both = hull(all, one.interval);
        all = both;
    }
    None
}
