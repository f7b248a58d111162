//! Functions: their types, and the stack that they take.

use crate::checking::{Checked, check_program, none_of};
use crate::sources::stack_of;
use crate::types::function_text;
use cc::compile_with;
use lsp_program::{FunctionFact, Unit};
use std::alloc::{AllocError, Global};
use typed_ast::Function;

impl Checked {
    /// The function of this name.
    pub(crate) fn function(&self, name: &str) -> Option<&Function> {
        self.program
            .functions
            .iter()
            .find(|function| self.names.shown_text(function.name) == name)
    }
}

/// The compiler's facts about the function of this name; `None` where it rejects the program, or where the function has no body.
pub fn function_fact(
    alloc: Global,
    unit: Unit<'_>,
    name: &str,
) -> Result<Option<FunctionFact>, AllocError> {
    let Some(type_text) = type_of(alloc, unit, name)? else {
        return Ok(None);
    };
    match compile_with(alloc, unit.set, unit.main, stack_of(unit)) {
        Ok(built) => Ok(with_frame(type_text, built.frames.as_slice(), name)),
        Err(fault) => none_of(&fault),
    }
}

fn type_of(alloc: Global, unit: Unit<'_>, name: &str) -> Result<Option<String>, AllocError> {
    let Some(whole) = check_program(alloc, unit.set, unit.main, stack_of(unit))? else {
        return Ok(None);
    };
    match whole.function(name) {
        Some(function) => Ok(Some(function_text(alloc, &function.function_type)?)),
        None => Ok(None),
    }
}

fn with_frame(
    type_text: String,
    frames: &[(String, u32, u32)],
    name: &str,
) -> Option<FunctionFact> {
    let (_, frame, weight) = frames
        .iter()
        .find(|(function, _, _)| function.as_str() == name)?;
    Some(FunctionFact {
        type_text,
        frame: *frame,
        weight: *weight,
    })
}
