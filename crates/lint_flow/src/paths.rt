//! The dataflow state of a function's objects where paths come together.

use std::alloc::{AllocError, Global};

/// The state at a point of a function, over all paths that lead there.
#[derive(Drop)]
struct State {
    // Whether a path leads there.
    is_live: bool,
    // For each object, whether it has a value on every path.
    has_value: Vec<bool>,
}

/// A point of a function, by the number of its state.
#[derive(Clone, Copy, Debug, PartialEq, Eq)]
pub(crate) struct Point(usize);

/// The states of a function's points.
#[derive(Drop)]
pub(crate) struct Paths {
    alloc: Global,
    states: Vec<State>,
}

impl Paths {
    pub(crate) fn new(alloc: Global) -> Paths {
        Paths {
            alloc,
            states: Vec::new(alloc),
        }
    }

    /// The beginning of a function with `objects` objects, of which the first `given` have a value. The points of the function before are freed.
    pub(crate) fn begin(&mut self, objects: usize, given: usize) -> Result<Point, AllocError> {
        self.states.clear();
        let mut has_value = Vec::new(self.alloc);
        for number in 0..objects {
            has_value.push(number < given)?;
        }
        self.put(true, has_value)
    }

    /// A point to which no path leads.
    pub(crate) fn nowhere(&mut self) -> Result<Point, AllocError> {
        let none = Vec::new(self.alloc);
        self.put(false, none)
    }

    /// A copy of a point, with the same state.
    pub(crate) fn again(&mut self, point: Point) -> Result<Point, AllocError> {
        match self.states.get(point.0) {
            Some(state) => {
                let is_live = state.is_live;
                let has_value = Vec::from_slice(self.alloc, state.has_value.as_slice())?;
                self.put(is_live, has_value)
            }
            None => Ok(point),
        }
    }

    fn put(&mut self, is_live: bool, has_value: Vec<bool>) -> Result<Point, AllocError> {
        let number = self.states.len();
        self.states.push(State { is_live, has_value })?;
        Ok(Point(number))
    }

    /// Whether a path leads to a point.
    pub(crate) fn is_live(&self, point: Point) -> bool {
        match self.states.get(point.0) {
            Some(state) => state.is_live,
            None => false,
        }
    }

    /// Whether an object has a value on every path to a point.
    pub(crate) fn has_value(&self, point: Point, object: usize) -> bool {
        match self.states.get(point.0) {
            Some(state) => !state.is_live || state.has_value.get(object).copied().unwrap_or(true),
            None => true,
        }
    }

    /// From here on an object has a value, or has none.
    pub(crate) fn note(&mut self, point: Point, object: usize, has_value: bool) {
        if let Some(state) = self.states.get_mut(point.0) {
            if let Some(known) = state.has_value.get_mut(object) {
                *known = has_value;
            }
        }
    }

    /// Two points come together in one; neither is used further.
    pub(crate) fn join(&mut self, first: Point, second: Point) -> Point {
        if !self.is_live(second) {
            return first;
        }
        if !self.is_live(first) {
            return second;
        }
        for object in 0..self.objects(first) {
            if !self.has_value(second, object) {
                self.note(first, object, false);
            }
        }
        first
    }

    /// How many objects a point knows of.
    fn objects(&self, point: Point) -> usize {
        match self.states.get(point.0) {
            Some(state) => state.has_value.len(),
            None => 0,
        }
    }
}
