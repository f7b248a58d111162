//! What an analysis remembers while it goes on: how much work is left to it, the invariants of the loops that it met, and how it
//! treated the calls of the bodies that it is in. It decides which guesses are tried and when to give up; no clause mentions it, and
//! nothing depends on it.

use crate::objects::{copied, imply, joined};
use crate::scope::Scope;
use crate::state::AbsState;
use crate::stop::Stop;
use srcset::Pos;
use std::alloc::Global;
use std::cell::{Cell, RefCell};

/// The number of objects that are copied for the price of one more step.
const OBJECTS_A_STEP: usize = 16;

/// The number of summaries that are skipped for the price of a step.
const SUMMARIES_A_STEP: usize = 32;

/// The number of steps after which no loop is unrolled any more, or the part of all steps, if that is less.
const UNROLLING_STEPS: u64 = 2_000_000;

const UNROLLING_PART: u64 = 8;

/// After this number of summaries no loop is unrolled: each iteration may need more of them.
const UNROLLING_SUMMARIES: usize = 256;

/// A loop that was met, by its line and the loops around it: the state before it, and its invariant.
#[derive(Drop)]
struct MetLoop {
    at: Pos,
    depth: u32,
    before: AbsState,
    kept: AbsState,
}

/// A call that was met: the number of bodies around its own, and the number of the summary that was used for it. There is none if
/// the analysis stopped there because it needed one.
#[derive(Clone, Copy)]
struct MetCall {
    bodies: usize,
    summary: Option<usize>,
}

/// The work that is left, and the loops and calls that were met.
#[derive(Drop)]
pub struct Memory {
    pub alloc: Global,
    /// Whether single elements of arrays are tracked.
    elements: bool,
    /// Whether there was a fact about one.
    met: Cell<bool>,
    steps: Cell<u64>,
    /// Single elements are tracked while more steps than these are left.
    half: u64,
    /// Loops are unrolled while more steps than these are left.
    floor: u64,
    depth: Cell<u32>,
    loops: RefCell<Vec<MetLoop>>,
    /// The number of bodies around the present one.
    bodies: Cell<usize>,
    /// The calls of the outermost body, then those of the one that it entered, and so on. A body is analysed anew each time that a
    /// summary was found which it needed, and then meets the same calls again.
    calls: RefCell<Vec<MetCall>>,
    /// Which of the calls comes next.
    next: Cell<usize>,
}

/// Of this number of steps, how many are left when no loop is unrolled any more.
fn floor_of(steps: u64) -> u64 {
    let part = steps / UNROLLING_PART;
    let taken = if part < UNROLLING_STEPS {
        part
    } else {
        UNROLLING_STEPS
    };
    steps.saturating_sub(taken)
}

/// An empty memory with this number of steps, half of which may be taken while single elements of arrays are tracked, if they are.
pub fn new_memory(alloc: Global, steps: u64, elements: bool) -> Memory {
    Memory {
        alloc,
        elements,
        met: Cell::new(false),
        steps: Cell::new(steps),
        half: steps / 2,
        floor: floor_of(steps),
        depth: Cell::new(0),
        loops: RefCell::new(Vec::new(alloc)),
        bodies: Cell::new(0),
        calls: RefCell::new(Vec::new(alloc)),
        next: Cell::new(0),
    }
}

/// Tests whether single elements of arrays are tracked.
pub fn follows_elements(memory: &Memory) -> bool {
    memory.elements
}

/// Tests whether there was a fact about single elements.
pub fn met_elements(memory: &Memory) -> bool {
    memory.met.get()
}

/// The number of calls of the outermost bodies that were met, of this number of bodies.
fn count_outside(calls: &[MetCall], bodies: usize) -> usize {
    let mut count = 0;
    for n in 0..calls.len() {
        if calls[n].bodies < bodies {
            count = n.saturating_add(1);
        }
    }
    count
}

/// Enters a body with this number of others around it: no loop is around it. The calls of it that were met before are kept, and those
/// of others within it are not.
pub fn enter_body(memory: &Memory, bodies: usize) {
    memory.depth.set(0);
    memory.bodies.set(bodies);
    match memory.calls.try_borrow_mut() {
        Err(_) => {}
        Ok(mut calls) => {
            let first = count_outside(calls.as_slice(), bodies);
            let count = count_outside(calls.as_slice(), bodies.saturating_add(1));
            calls.truncate(count);
            memory.next.set(first);
        }
    }
}

/// The summary of a call that was met: the one that was needed is the latest.
fn summary_of_call(calls: &[MetCall], n: usize, count: usize) -> Option<usize> {
    match calls.get(n) {
        None => None,
        Some(call) => match call.summary {
            None => count.checked_sub(1),
            Some(number) => Some(number),
        },
    }
}

/// The summary that was used before for the next call, if there was one.
pub fn expected_summary(scope: &Scope<'_>) -> Option<usize> {
    match scope.memory.calls.try_borrow() {
        Err(_) => None,
        Ok(calls) => summary_of_call(
            calls.as_slice(),
            scope.memory.next.get(),
            scope.summaries.len(),
        ),
    }
}

fn is_kept(calls: &[MetCall], n: usize, summary: Option<usize>) -> bool {
    match calls.get(n) {
        None => false,
        Some(call) => call.summary == summary,
    }
}

fn put_call(calls: &mut Vec<MetCall>, n: usize, new: MetCall) -> Result<(), Stop> {
    if is_kept(calls.as_slice(), n, new.summary) {
        return Ok(());
    }
    calls.truncate(n);
    match calls.push(new) {
        Ok(()) => Ok(()),
        Err(_) => Err(Stop::Memory),
    }
}

/// Records which summary is used for the next call, or that one is needed.
///
/// Errors: memory ran out.
pub fn pass_call(scope: &Scope<'_>, summary: Option<usize>) -> Result<(), Stop> {
    let n = scope.memory.next.get();
    scope.memory.next.set(n.saturating_add(1));
    let new = MetCall {
        bodies: scope.memory.bodies.get(),
        summary,
    };
    match scope.memory.calls.try_borrow_mut() {
        Err(_) => Ok(()),
        Ok(mut calls) => put_call(&mut calls, n, new),
    }
}

/// Enters a loop.
pub fn enter_loop(memory: &Memory) {
    memory.depth.set(memory.depth.get().saturating_add(1));
}

/// Leaves the loop.
pub fn leave_loop(memory: &Memory) {
    memory.depth.set(memory.depth.get().saturating_sub(1));
}

/// Takes this number of steps. Returns whether the work left is enough; if not, none is left.
fn take(memory: &Memory, cost: u64) -> bool {
    let left = memory.steps.get();
    if left < cost {
        memory.steps.set(0);
        return false;
    }
    memory.steps.set(left - cost);
    true
}

fn cost_of(count: usize) -> u64 {
    1 + ((count / OBJECTS_A_STEP) as u64)
}

/// Takes the step of a comparison or of a look at a summary, which costs more with many objects. Returns whether the work left is
/// enough.
pub fn take_step(scope: &Scope<'_>) -> bool {
    let objects = scope.outer.len().saturating_add(scope.objects.len());
    take(scope.memory, cost_of(objects))
}

/// Tests whether there is work left to go on with this number of facts about single elements: they take at most half of the steps.
fn may_go_on(memory: &Memory, facts: usize) -> bool {
    if facts == 0 {
        return true;
    }
    memory.met.set(true);
    !memory.elements || memory.half < memory.steps.get()
}

/// Takes the step of a statement, which costs more with many facts. Returns whether the work left is enough.
pub fn take_statement(scope: &Scope<'_>, state: &AbsState) -> bool {
    match &state.objects {
        None => take(scope.memory, 1),
        Some(known) => {
            let count = known.objects.len().saturating_add(known.facts.len());
            may_go_on(scope.memory, known.facts.len()) && take(scope.memory, cost_of(count))
        }
    }
}

/// Takes the steps of a search among all summaries. Returns whether the work left is enough.
pub fn take_search(scope: &Scope<'_>) -> bool {
    let cost = 1 + ((scope.summaries.len() / SUMMARIES_A_STEP) as u64);
    take(scope.memory, cost)
}

/// Tests whether there is work left to unroll a loop.
pub fn may_unroll(scope: &Scope<'_>) -> bool {
    scope.summaries.len() < UNROLLING_SUMMARIES && scope.memory.floor < scope.memory.steps.get()
}

fn number_of(loops: &[MetLoop], at: Pos, depth: u32) -> Option<usize> {
    for n in 0..loops.len() {
        if loops[n].at == at && loops[n].depth == depth {
            return Some(n);
        }
    }
    None
}

fn met_at<'l>(loops: &'l [MetLoop], at: Pos, depth: u32) -> Option<&'l MetLoop> {
    match number_of(loops, at, depth) {
        None => None,
        Some(n) => loops.get(n),
    }
}

fn kept_of(alloc: Global, met: &MetLoop, state: &AbsState) -> Result<Option<AbsState>, Stop> {
    let alike = imply(state, &met.before) && imply(&met.before, state);
    if !alike {
        return Ok(None);
    }
    let kept = copied(alloc, &met.kept)?;
    Ok(Some(kept))
}

fn kept_in(
    scope: &Scope<'_>,
    loops: &[MetLoop],
    at: Pos,
    state: &AbsState,
) -> Result<Option<AbsState>, Stop> {
    match met_at(loops, at, scope.memory.depth.get()) {
        None => Ok(None),
        Some(met) => kept_of(scope.alloc, met, state),
    }
}

/// The invariant of a loop that was met with this state before it.
///
/// Errors: memory ran out.
pub fn recalled(scope: &Scope<'_>, at: Pos, state: &AbsState) -> Result<Option<AbsState>, Stop> {
    match scope.memory.loops.try_borrow() {
        Err(_) => Ok(None),
        Ok(loops) => kept_in(scope, loops.as_slice(), at, state),
    }
}

fn widened_by(alloc: Global, met: &MetLoop, state: AbsState) -> Result<AbsState, Stop> {
    if !imply(&met.before, &state) {
        return Ok(state);
    }
    let kept = copied(alloc, &met.kept)?;
    joined(alloc, state, kept)
}

fn begun_in(
    scope: &Scope<'_>,
    loops: &[MetLoop],
    at: Pos,
    state: AbsState,
) -> Result<AbsState, Stop> {
    match met_at(loops, at, scope.memory.depth.get()) {
        None => Ok(state),
        Some(met) => widened_by(scope.alloc, met, state),
    }
}

/// The first guess of a loop's invariant: that of the loop when it was met with a wider state, if it was.
///
/// Errors: memory ran out.
pub fn first_guess(scope: &Scope<'_>, at: Pos, state: AbsState) -> Result<AbsState, Stop> {
    match scope.memory.loops.try_borrow() {
        Err(_) => Ok(state),
        Ok(loops) => begun_in(scope, loops.as_slice(), at, state),
    }
}

fn put(loops: &mut Vec<MetLoop>, new: MetLoop) -> Result<(), Stop> {
    match number_of(loops.as_slice(), new.at, new.depth) {
        Some(n) => {
            if n < loops.len() {
                loops[n] = new;
            }
            Ok(())
        }
        None => match loops.push(new) {
            Ok(()) => Ok(()),
            Err(_) => Err(Stop::Memory),
        },
    }
}

/// Records the invariant of a loop.
///
/// Errors: memory ran out.
pub fn remember(
    scope: &Scope<'_>,
    at: Pos,
    before: &AbsState,
    kept: &AbsState,
) -> Result<(), Stop> {
    let new = MetLoop {
        at,
        depth: scope.memory.depth.get(),
        before: copied(scope.alloc, before)?,
        kept: copied(scope.alloc, kept)?,
    };
    match scope.memory.loops.try_borrow_mut() {
        Err(_) => Ok(()),
        Ok(mut loops) => put(&mut loops, new),
    }
}
