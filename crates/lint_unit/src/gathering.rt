//! The warnings of all phases.

use lexer::{Token, tokens};
use lint::{Kind, Warning};
use lint_flow::program_findings;
use lint_tree::unit_warnings;
use parser::parse;
use pp::preprocess;
use srcset::{Code, Fault, FileSet, Names, Pos};
use std::alloc::{AllocError, Global};
use tree::Unit;
use typed_ast::Program;
use typing::check;

/// The warnings of the tree and of the typed program of a set of files; `None` where a phase refuses them.
pub(crate) fn gathered(
    alloc: Global,
    set: &FileSet,
    main: &str,
    stack: u32,
    names: &mut Names,
) -> Result<Option<Vec<Warning>>, AllocError> {
    match unit_of(alloc, set, main, names)? {
        Some(unit) => with_program(alloc, unit, main, stack, names),
        None => Ok(None),
    }
}

/// The warnings of a tree and of its typed program.
fn with_program(
    alloc: Global,
    unit: Unit,
    main: &str,
    stack: u32,
    names: &Names,
) -> Result<Option<Vec<Warning>>, AllocError> {
    let found = unit_warnings(alloc, &unit, names)?;
    match program_of(alloc, unit, main, stack, names)? {
        Some(program) => with_flow(alloc, found.as_slice(), &program),
        None => Ok(None),
    }
}

/// The warnings, and those of the typed program. The tree does not know the values of constants: a function whose end no path of the typed program reaches
/// has no warning about its end.
fn with_flow(
    alloc: Global,
    found: &[Warning],
    program: &Program,
) -> Result<Option<Vec<Warning>>, AllocError> {
    let findings = program_findings(alloc, program)?;
    let mut all = Vec::new(alloc);
    for warning in found {
        if !is_refuted(*warning, findings.endless.as_slice()) {
            all.push(*warning)?;
        }
    }
    all.extend_from_slice(findings.warnings.as_slice())?;
    Ok(Some(all))
}

/// Whether a warning is about the end of a function whose end no path reaches.
fn is_refuted(warning: Warning, endless: &[usize]) -> bool {
    match warning.name {
        Some(name) => warning.kind == Kind::ReturnType && endless.contains(&name),
        None => false,
    }
}

/// The tree of the sources.
fn unit_of(
    alloc: Global,
    set: &FileSet,
    main: &str,
    names: &mut Names,
) -> Result<Option<Unit>, AllocError> {
    let Some(tokens) = tokens_of(alloc, set, main, names)? else {
        return Ok(None);
    };
    match parse(alloc, tokens.as_slice(), names) {
        Ok(unit) => Ok(Some(unit)),
        Err(fault) => refused(&fault),
    }
}

/// The tokens of the sources.
fn tokens_of(
    alloc: Global,
    set: &FileSet,
    main: &str,
    names: &mut Names,
) -> Result<Option<Vec<Token>>, AllocError> {
    match preprocess(alloc, set, names, main) {
        Ok(list) => match tokens(alloc, list.as_slice(), names) {
            Ok(tokens) => Ok(Some(tokens)),
            Err(fault) => refused(&fault),
        },
        Err(fault) => refused(&fault),
    }
}

/// The typed program of a tree.
fn program_of(
    alloc: Global,
    unit: Unit,
    main: &str,
    stack: u32,
    names: &Names,
) -> Result<Option<Program>, AllocError> {
    let file = names.find(main.as_bytes()).unwrap_or_default();
    match check(alloc, unit, names, Pos { file, line: 1 }, stack) {
        Ok(program) => Ok(Some(program)),
        Err(fault) => refused(&fault),
    }
}

/// The result of a phase that refuses the files: nothing, but a refused growth is reported.
fn refused<T>(fault: &Fault) -> Result<Option<T>, AllocError> {
    if fault.code == Code::OutOfMemory.number() {
        Err(AllocError)
    } else {
        Ok(None)
    }
}
