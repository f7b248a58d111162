//! The deepest chain of calls.

use crate::functions::Function;
use std::alloc::{AllocError, Global};

/// The quantity summed along a chain of calls.
#[derive(Clone, Copy, Debug, PartialEq, Eq)]
pub enum Cost {
    /// The bytes of frames.
    Frame,
    /// Weights.
    Weight,
}

impl Cost {
    /// The cost of one call of a function.
    fn of(self, function: &Function) -> u64 {
        match self {
            Cost::Frame => u64::from(function.frame),
            Cost::Weight => u64::from(function.weight),
        }
    }
}

/// A chain of calls from one function on.
#[derive(Drop)]
pub enum Chain {
    /// No function that is reached calls itself, directly or through others: the greatest sum, and the functions that have it.
    Deepest(u64, Vec<usize>),
    /// Functions that call each other in a cycle, the first of them again at its end.
    Circle(Vec<usize>),
}

/// The greatest sum of the callees of a function that are settled, and which callee has it.
#[derive(Clone, Copy)]
struct Best {
    sum: u64,
    callee: Option<usize>,
}

/// The results for the functions so far.
#[derive(Drop)]
struct Depths {
    // How many of the calls of each function are not settled.
    left: Vec<usize>,
    best: Vec<Best>,
    // The functions that call each.
    callers: Vec<Vec<usize>>,
    // The settled functions, those that call nothing first.
    settled: Vec<usize>,
}

/// The greatest sum of costs along the calls from a function on, where these contain no cycle.
pub fn deepest(
    alloc: Global,
    functions: &[Function],
    from: usize,
    cost: Cost,
) -> Result<Chain, AllocError> {
    let mut depths = Depths::new(alloc, functions)?;
    for turn in 0..functions.len() {
        let Some(number) = depths.settled.get(turn).copied() else {
            break;
        };
        let sum = depths.sum(functions, number, cost);
        depths.settle(number, sum)?;
    }
    if depths.is_settled(from) {
        let sum = depths.sum(functions, from, cost);
        Ok(Chain::Deepest(sum, depths.chain(alloc, from)?))
    } else {
        Ok(Chain::Circle(depths.circle(alloc, functions, from)?))
    }
}

impl Depths {
    /// The initial state: only functions that call nothing are settled.
    fn new(alloc: Global, functions: &[Function]) -> Result<Depths, AllocError> {
        let mut depths = Depths {
            left: Vec::new(alloc),
            best: Vec::new(alloc),
            callers: Vec::new(alloc),
            settled: Vec::new(alloc),
        };
        for (number, function) in functions.iter().enumerate() {
            depths.left.push(function.calls.len())?;
            depths.best.push(Best {
                sum: 0,
                callee: None,
            })?;
            depths.callers.push(Vec::new(alloc))?;
            if function.calls.is_empty() {
                depths.settled.push(number)?;
            }
        }
        for (number, function) in functions.iter().enumerate() {
            depths.note_calls(number, function)?;
        }
        Ok(depths)
    }

    /// Records a function as a caller of those that it calls.
    fn note_calls(&mut self, number: usize, function: &Function) -> Result<(), AllocError> {
        for callee in &function.calls {
            if let Some(callers) = self.callers.get_mut(*callee) {
                callers.push(number)?;
            }
        }
        Ok(())
    }

    /// The sum of a function's cost and the greatest of its callees.
    fn sum(&self, functions: &[Function], number: usize, cost: Cost) -> u64 {
        let below = match self.best.get(number) {
            Some(best) => best.sum,
            None => 0,
        };
        match functions.get(number) {
            Some(function) => below.saturating_add(cost.of(function)),
            None => below,
        }
    }

    /// Adds a function's sum to its callers; those whose last call this was are settled.
    fn settle(&mut self, number: usize, sum: u64) -> Result<(), AllocError> {
        let Some(callers) = self.callers.get(number) else {
            return Ok(());
        };
        for caller in callers {
            if let Some(best) = self.best.get_mut(*caller) {
                if best.sum < sum {
                    *best = Best {
                        sum,
                        callee: Some(number),
                    };
                }
            }
            if let Some(left) = self.left.get_mut(*caller) {
                *left = left.saturating_sub(1);
                if *left == 0 {
                    self.settled.push(*caller)?;
                }
            }
        }
        Ok(())
    }

    fn is_settled(&self, number: usize) -> bool {
        matches!(self.left.get(number), Some(0))
    }

    /// The functions from this one on, along the greatest sums.
    fn chain(&self, alloc: Global, from: usize) -> Result<Vec<usize>, AllocError> {
        let mut chain = vec![in alloc; from]?;
        let mut at = from;
        for _ in 0..self.best.len() {
            match self.best.get(at) {
                Some(
                    Best {
                        callee: Some(callee),
                        ..
                    },
                ) => at = *callee,
                _ => break,
            }
            chain.push(at)?;
        }
        Ok(chain)
    }

    /// A cycle that is reached from a function that is not settled: each calls one that is not settled.
    fn circle(
        &self,
        alloc: Global,
        functions: &[Function],
        from: usize,
    ) -> Result<Vec<usize>, AllocError> {
        let mut path = Vec::new(alloc);
        let mut places = vec![in alloc; None; functions.len()]?;
        let mut at = from;
        for turn in 0..functions.len() {
            if let Some(Some(start)) = places.get(at).copied() {
                return closed(alloc, path.as_slice(), start, at);
            }
            if let Some(place) = places.get_mut(at) {
                *place = Some(turn);
            }
            path.push(at)?;
            match self.open_callee(functions, at) {
                Some(callee) => at = callee,
                None => break,
            }
        }
        match places.get(at).copied().flatten() {
            Some(start) => closed(alloc, path.as_slice(), start, at),
            None => Ok(path),
        }
    }

    /// The first callee of a function that is not settled.
    fn open_callee(&self, functions: &[Function], number: usize) -> Option<usize> {
        functions
            .get(number)?
            .calls
            .iter()
            .find(|callee| !self.is_settled(**callee))
            .copied()
    }
}

/// The part of a path from `start` on, with its first function again at the end.
fn closed(
    alloc: Global,
    path: &[usize],
    start: usize,
    first: usize,
) -> Result<Vec<usize>, AllocError> {
    let mut circle = Vec::from_slice(alloc, path.get(start..).unwrap_or_default())?;
    circle.push(first)?;
    Ok(circle)
}
