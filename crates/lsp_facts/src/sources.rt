//! The files of a program, as the compiler takes them.

use cc::StackSize;
use lint_report::Files;
use lsp_program::Unit;
use std::alloc::{AllocError, Global};

/// The size of the stack; the usual one where the number is none.
pub(crate) fn stack_of(unit: Unit<'_>) -> StackSize {
    match StackSize::new(unit.stack) {
        Some(size) => size,
        None => StackSize::usual(),
    }
}

/// The files with a token a line.
pub(crate) fn files_of<'a>(alloc: Global, unit: Unit<'a>) -> Result<Files<'a>, AllocError> {
    Files::of(alloc, unit.set, unit.names, made_file(unit))
}

/// The name of the file that no person wrote; empty where there is none.
fn made_file<'a>(unit: Unit<'a>) -> &'a str {
    if unit.main == unit.given {
        ""
    } else {
        unit.main
    }
}
