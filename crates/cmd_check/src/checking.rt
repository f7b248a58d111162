//! `check`.

use crate::refused::{put_refused, put_unread};
use cc::compile_with;
use cli_args::{Program, Role, Telling};
use cli_io::{put_out, say_memory, say_usage};
use cli_sources::{Sources, read_sources, stack_size};
use explain_cmd::VERSION;
use lint::{Kind, selects, unknown_word};
use lint_report::{Asked, Form, Said};
use lint_unit::warn_of_sources;
use std::alloc::{AllocError, Global};
use std::io::Write;

const NO_WARNING: &str = "--warn takes all, none, or names of warnings with commas between";

/// The warnings that a command reports, and how.
#[derive(Clone, Copy)]
pub struct Warned<'a> {
    /// The requested warnings, with commas between.
    pub words: &'a str,
    /// Whether a warning is an error.
    pub are_errors: bool,
    pub telling: Telling,
}

/// Reports the warnings of a program, or the fault for which it is refused; returns the exit status: 1 where it is refused, or has a warning and warnings are
/// errors.
pub fn check_program(rt: &HostRuntime, program: &Program<'_>, warned: Warned<'_>) -> u8 {
    if unknown_word(warned.words) {
        return say_usage(rt, NO_WARNING);
    }
    let sources = match read_sources(rt, program) {
        Ok(sources) => sources,
        Err(fault) => return put_unread(rt, fault, warned.telling),
    };
    match compile_with(rt.alloc(), &sources.set, sources.main, stack_size(program)) {
        Ok(_) => check_sources(rt, program, &sources, warned),
        Err(fault) => put_refused(rt, program, &sources, fault, warned.telling),
    }
}

/// Reports the warnings of a program that is not refused.
fn check_sources(
    rt: &HostRuntime,
    program: &Program<'_>,
    sources: &Sources<'_>,
    warned: Warned<'_>,
) -> u8 {
    match said(rt.alloc(), program, sources, warned) {
        Ok(said) => put_said(rt, &said, warned.are_errors),
        Err(_) => say_memory(rt),
    }
}

fn said(
    alloc: Global,
    program: &Program<'_>,
    sources: &Sources<'_>,
    warned: Warned<'_>,
) -> Result<Said, AllocError> {
    let names = sources.names(alloc)?;
    let words = wanted(alloc, program, warned.words)?;
    let asked = Asked {
        names: names.as_slice(),
        main: sources.main,
        given: sources.given,
        stack: program.stack,
        words: words.as_str(),
        are_errors: warned.are_errors,
        form: report_form(warned.telling),
        version: plain_version(),
    };
    warn_of_sources(alloc, &sources.set, asked)
}

/// The warnings of these words without those that the command leaves out, as a list with commas between.
fn wanted(alloc: Global, program: &Program<'_>, words: &str) -> Result<String, AllocError> {
    let mut wanted = String::from_str(alloc, "none")?;
    for kind in Kind::all() {
        if selects(words, *kind) && !is_unwarned(program, kind.name()) {
            wanted.push_str(",")?;
            wanted.push_str(kind.name())?;
        }
    }
    Ok(wanted)
}

/// Whether the command leaves the warnings of this name out, or all of them.
fn is_unwarned(program: &Program<'_>, name: &str) -> bool {
    program.words.iter().any(|word| word.role == Role::Unwarned
        && (word.text == "all" || word.text == name))
}

/// Prints a report; returns the exit status.
fn put_said(rt: &HostRuntime, said: &Said, are_errors: bool) -> u8 {
    let status = if are_errors && said.count != 0 { 1 } else { 0 };
    let written = put_out(rt, said.out.as_bytes(), status);
    if written == status {
        let _said = rt.stderr().write_all(said.err.as_bytes());
    }
    written
}

/// The form of a report.
pub fn report_form(telling: Telling) -> Form {
    match telling {
        Telling::Text => Form::Text,
        Telling::Json => Form::Json,
        Telling::Sarif => Form::Sarif,
    }
}

/// The version without the kit.
pub fn plain_version() -> &'static str {
    match VERSION.find(',') {
        Some(end) => VERSION.get(..end).unwrap_or_default(),
        None => VERSION,
    }
}
