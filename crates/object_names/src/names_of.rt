//! The names of a set of files, by its syntax tree.

use crate::naming::{ProgramNames, program_names};
use lexer::{Token, tokens};
use parser::parse;
use pp::preprocess;
use srcset::{Code, Fault, FileSet, Names};
use std::alloc::{AllocError, Global};
use tree::Unit;
use typed_ast::Program;

/// The names of the typed program of the file `main` of the set, whose names have their numbers in `names`.
///
/// Errors: memory ran out.
pub fn names_of_set(
    alloc: Global,
    set: &FileSet,
    main: &str,
    names: &mut Names,
    program: &Program,
) -> Result<ProgramNames, AllocError> {
    let unit = match unit_of(alloc, set, main, names)? {
        Some(unit) => unit,
        None => Unit {
            externals: Vec::new(alloc),
        },
    };
    program_names(alloc, &unit, program, names)
}

/// The tree of the sources; `None` where a phase rejects them.
fn unit_of(
    alloc: Global,
    set: &FileSet,
    main: &str,
    names: &mut Names,
) -> Result<Option<Unit>, AllocError> {
    let Some(tokens) = tokens_of(alloc, set, main, names)? else {
        return Ok(None);
    };
    match parse(alloc, tokens.as_slice(), names) {
        Ok(unit) => Ok(Some(unit)),
        Err(fault) => refused(&fault),
    }
}

/// The tokens of the sources; `None` where a phase rejects them.
fn tokens_of(
    alloc: Global,
    set: &FileSet,
    main: &str,
    names: &mut Names,
) -> Result<Option<Vec<Token>>, AllocError> {
    match preprocess(alloc, set, names, main) {
        Ok(list) => match tokens(alloc, list.as_slice(), names) {
            Ok(tokens) => Ok(Some(tokens)),
            Err(fault) => refused(&fault),
        },
        Err(fault) => refused(&fault),
    }
}

/// The result of a phase that rejects the files: none, but a failed allocation is an error.
fn refused<T>(fault: &Fault) -> Result<Option<T>, AllocError> {
    if fault.code == Code::OutOfMemory.number() {
        Err(AllocError)
    } else {
        Ok(None)
    }
}
