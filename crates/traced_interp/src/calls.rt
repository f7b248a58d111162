//! The calls that are active, and the trace state of each.

use srcset::Pos;
use std::alloc::{AllocError, Global};

/// A place that is none.
const NOWHERE: Pos = Pos { file: 0, line: 0 };

/// An object that gets its first value, by its number in its function, and the place of its declarator.
#[derive(Clone, Copy)]
pub(crate) struct Defined {
    pub at: Pos,
    pub object: usize,
}

#[derive(Drop)]
struct Call {
    function: usize,
    // The line of it that was reported last.
    told: Pos,
    // The loops that it is in, the innermost last: the place to report for each as it continues.
    loops: Vec<Pos>,
    defined: Defined,
}

/// The calls that are active, the present one last.
#[derive(Drop)]
pub(crate) struct Calls {
    alloc: Global,
    list: Vec<Call>,
}

impl Calls {
    /// None.
    pub fn new(alloc: Global) -> Calls {
        Calls {
            alloc,
            list: Vec::new(alloc),
        }
    }

    /// A call of the function with this number begins.
    pub fn push(&mut self, function: usize) -> Result<(), AllocError> {
        let loops = Vec::new(self.alloc);
        self.list.push(Call {
            function,
            told: NOWHERE,
            loops,
            defined: Defined {
                at: NOWHERE,
                object: 0,
            },
        })?;
        Ok(())
    }

    /// Ends the present call; returns the number of its function.
    pub fn pop(&mut self) -> Option<usize> {
        match self.list.pop() {
            Some(call) => Some(call.function),
            None => None,
        }
    }

    /// The number of the present call's function.
    pub fn function(&self) -> usize {
        match self.list.last() {
            Some(call) => call.function,
            None => usize::MAX,
        }
    }

    /// Whether this is the line of the present call that was reported last.
    pub fn has_told(&self, at: Pos) -> bool {
        match self.list.last() {
            Some(call) => call.told == at,
            None => true,
        }
    }

    /// Records that a line of the present call is reported.
    pub fn tell(&mut self, at: Pos) {
        if let Some(call) = self.list.last_mut() {
            call.told = at;
        }
    }

    /// A loop begins, with this place to report as it continues.
    pub fn open_loop(&mut self, at: Pos) -> Result<(), AllocError> {
        if let Some(call) = self.list.last_mut() {
            call.loops.push(at)?;
        }
        Ok(())
    }

    /// The innermost loop of the present call ends.
    pub fn close_loop(&mut self) {
        if let Some(call) = self.list.last_mut() {
            let _ended = call.loops.pop();
        }
    }

    /// The place to report for the innermost loop of the present call as it continues.
    pub fn loop_place(&self) -> Option<Pos> {
        match self.list.last() {
            Some(call) => call.loops.last().copied(),
            None => None,
        }
    }

    /// An object of the present call is to get its first value.
    pub fn define(&mut self, at: Pos, object: usize) {
        if let Some(call) = self.list.last_mut() {
            call.defined = Defined { at, object };
        }
    }

    /// The object that was to get its first value.
    pub fn defined(&self) -> Option<Defined> {
        match self.list.last() {
            Some(call) => Some(call.defined),
            None => None,
        }
    }
}
