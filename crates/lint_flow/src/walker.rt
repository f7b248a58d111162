//! The state of a walk over a program.

use crate::paths::{Paths, Point};
use crate::shapes::{Shapes, numbers};
use lint::Warning;
use std::alloc::{AllocError, Global};
use typed_ast::{Function, Program};

/// A `switch` that is walked.
#[derive(Clone, Copy)]
pub(crate) struct Choice {
    /// The point before its labels.
    pub(crate) entry: Point,
    pub(crate) has_default: bool,
}

/// The point that is walked and the warnings so far.
#[derive(Drop)]
pub(crate) struct Walker {
    pub(crate) paths: Paths,
    pub(crate) shapes: Shapes,
    pub(crate) warnings: Vec<Warning>,
    /// The present point.
    pub(crate) now: Point,
    /// Where the `break`s of each statement around lead to.
    pub(crate) breaks: Vec<Point>,
    /// The same of the `continue`s.
    pub(crate) continues: Vec<Point>,
    pub(crate) choices: Vec<Choice>,
    /// Whether the objects of the function were reported already.
    pub(crate) told: Vec<bool>,
    /// Whether the function does anything but give a result.
    pub(crate) has_effect: bool,
    /// The same of the functions before it.
    pub(crate) effects: Vec<bool>,
    /// The names of the functions whose ends no path reaches.
    pub(crate) endless: Vec<usize>,
}

impl Walker {
    pub(crate) fn new(alloc: Global, program: &Program) -> Result<Walker, AllocError> {
        let shapes = Shapes::new(alloc, program)?;
        let mut paths = Paths::new(alloc);
        let now = paths.nowhere()?;
        Ok(Walker {
            paths,
            shapes,
            warnings: Vec::new(alloc),
            now,
            breaks: Vec::new(alloc),
            continues: Vec::new(alloc),
            choices: Vec::new(alloc),
            told: Vec::new(alloc),
            has_effect: false,
            effects: Vec::new(alloc),
            endless: Vec::new(alloc),
        })
    }

    /// A function begins.
    pub(crate) fn enter(&mut self, alloc: Global, function: &Function) -> Result<(), AllocError> {
        let count = function.objects.len();
        let given = numbers(function.function_type.parameters.as_slice());
        self.shapes.enter(alloc, function)?;
        self.now = self.paths.begin(count, given)?;
        self.told = vec![in alloc; false; count]?;
        self.has_effect = false;
        Ok(())
    }

    /// The present point and another come together.
    pub(crate) fn meet(&mut self, other: Point) {
        let now = self.now;
        self.now = self.paths.join(now, other);
    }

    /// No path continues here.
    pub(crate) fn stop(&mut self) -> Result<(), AllocError> {
        self.now = self.paths.nowhere()?;
        Ok(())
    }

    /// The state after a condition is known on both paths; returns the point of the second.
    pub(crate) fn split(&mut self, is_condition: bool) -> Result<Point, AllocError> {
        let now = self.now;
        if is_condition {
            self.paths.again(now)
        } else {
            Ok(now)
        }
    }
}
