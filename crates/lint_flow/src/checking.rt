//! The warnings of a program.

use crate::walker::Walker;
use lint::Warning;
use std::alloc::{AllocError, Global};
use typed_ast::{Function, Program};

/// The findings in a typed program.
#[derive(Drop)]
pub struct Findings {
    /// The warnings, in no order.
    pub warnings: Vec<Warning>,
    /// The names of the functions whose ends no path reaches.
    pub endless: Vec<usize>,
}

/// The findings in a typed program.
///
/// A function of n nodes takes at most n * n steps, since each branch copies the state of the function's objects; there are at most 8,000 nodes in a function.
pub fn program_findings(alloc: Global, program: &Program) -> Result<Findings, AllocError> {
    let mut walker = Walker::new(alloc, program)?;
    for function in &program.functions {
        walker.function(alloc, function)?;
    }
    Ok(Findings {
        warnings: walker.warnings,
        endless: walker.endless,
    })
}

impl Walker {
    fn function(&mut self, alloc: Global, function: &Function) -> Result<(), AllocError> {
        self.enter(alloc, function)?;
        self.statement(&function.body)?;
        let has_effect = self.has_effect;
        self.effects.push(has_effect)?;
        if !self.paths.is_live(self.now) {
            self.endless.push(function.name)?;
        }
        Ok(())
    }
}
