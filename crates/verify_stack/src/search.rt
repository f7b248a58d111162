//! The search for the stack usage of functions, or for a recursion: depth first, from main on. It is not trusted, since its result is
//! checked.

use crate::bounds::Recursion;
use crate::calls::body_calls;
use std::alloc::{AllocError, Global};
use typed_ast::Program;

/// A function whose calls are followed.
#[derive(Drop)]
struct Visit {
    function: usize,
    size: u64,
    calls: Vec<usize>,
    /// How many of the calls are done, and the greatest usage among them.
    done: usize,
    most: u64,
}

/// The progress of the search: the usages known so far, which functions are visited or were, and the visits from main on, each for a
/// call in the one before. The visits are kept here and not on the host's stack, which a long chain of calls would exhaust.
#[derive(Drop)]
struct Progress {
    usages: Vec<Option<u64>>,
    begun: Vec<bool>,
    visits: Vec<Visit>,
}

/// The result of a search.
#[derive(Drop)]
pub enum Found {
    /// The usage of each function that main reaches.
    Usages(Vec<Option<u64>>),
    /// A function that calls itself.
    Recursion(Recursion),
}

/// Begins to visit a function.
fn begin(
    alloc: Global,
    program: &Program,
    sizes: &[u64],
    progress: &mut Progress,
    f: usize,
) -> Result<(), AllocError> {
    let Some(function) = program.functions.get(f) else {
        return Ok(());
    };
    if let Some(begun) = progress.begun.get_mut(f) {
        *begun = true;
    }
    let calls = body_calls(alloc, function)?;
    let visit = Visit {
        function: f,
        size: sizes.get(f).copied().unwrap_or(0),
        calls,
        done: 0,
        most: 0,
    };
    progress.visits.push(visit)?;
    Ok(())
}

/// The recursion of a function that is visited and called again: the visits from main to it, and those after it.
fn recursion(alloc: Global, visits: &[Visit], function: usize) -> Result<Recursion, AllocError> {
    let mut way = Vec::new(alloc);
    let mut cycle = Vec::new(alloc);
    let mut passed = false;
    for (depth, visit) in visits.iter().enumerate() {
        if passed {
            cycle.push(visit.function)?;
        } else if depth > 0 {
            way.push(visit.function)?;
        }
        if visit.function == function {
            passed = true;
        }
    }
    cycle.push(function)?;
    Ok(Recursion {
        function,
        way,
        cycle,
    })
}

/// Ends the visit of a function.
fn end(progress: &mut Progress, visit: &Visit) {
    if let Some(usage) = progress.usages.get_mut(visit.function) {
        *usage = Some(visit.size.saturating_add(visit.most));
    }
}

fn is_begun(progress: &Progress, f: usize) -> bool {
    match progress.begun.get(f) {
        None => false,
        Some(begun) => *begun,
    }
}

/// The usage of a function, where that is found. A function that is not there uses nothing.
fn usage(progress: &Progress, f: usize) -> Option<u64> {
    match progress.usages.get(f) {
        None => Some(0),
        Some(usage) => *usage,
    }
}

/// The same visit, after a call of a function with this usage.
fn behind_call(visit: Visit, usage: u64) -> Visit {
    Visit {
        function: visit.function,
        size: visit.size,
        calls: visit.calls,
        done: visit.done.saturating_add(1),
        most: visit.most.max(usage),
    }
}

/// Continues the innermost visit with the next of its calls; returns the called function if that is being visited.
fn follow(
    alloc: Global,
    program: &Program,
    sizes: &[u64],
    progress: &mut Progress,
    visit: Visit,
    f: usize,
) -> Result<Option<usize>, AllocError> {
    match usage(progress, f) {
        Some(usage) => {
            progress.visits.push(behind_call(visit, usage))?;
            Ok(None)
        }
        None => {
            progress.visits.push(visit)?;
            if is_begun(progress, f) {
                return Ok(Some(f));
            }
            begin(alloc, program, sizes, progress, f)?;
            Ok(None)
        }
    }
}

/// One turn of the search.
fn turn(
    alloc: Global,
    program: &Program,
    sizes: &[u64],
    progress: &mut Progress,
    visit: Visit,
) -> Result<Option<usize>, AllocError> {
    match visit.calls.get(visit.done) {
        None => {
            end(progress, &visit);
            Ok(None)
        }
        Some(f) => {
            let f = *f;
            follow(alloc, program, sizes, progress, visit, f)
        }
    }
}

fn nothing(alloc: Global, count: usize) -> Result<Progress, AllocError> {
    let mut usages = Vec::new(alloc);
    usages.resize(count, None)?;
    let mut begun = Vec::new(alloc);
    begun.resize(count, false)?;
    Ok(Progress {
        usages,
        begun,
        visits: Vec::new(alloc),
    })
}

/// Searches a program from main on. It takes a turn for each function, and two for each call.
///
/// Errors: memory ran out.
pub fn find_usages(alloc: Global, program: &Program, sizes: &[u64]) -> Result<Found, AllocError> {
    let mut progress = nothing(alloc, program.functions.len())?;
    begin(alloc, program, sizes, &mut progress, program.main)?;
    // The search ends long before this number of turns; the range alone shows that it ends.
    for _turn in 0..u64::MAX {
        let Some(visit) = progress.visits.pop() else {
            break;
        };
        if let Some(again) = turn(alloc, program, sizes, &mut progress, visit)? {
            return Ok(Found::Recursion(recursion(alloc, &progress.visits, again)?));
        }
    }
    Ok(Found::Usages(progress.usages))
}
