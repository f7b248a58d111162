//! A program that is verified, and built where it is shown.

use cli_args::{Program, VerifyWords};
use cli_io::{TAKEN, put_executable, put_out, say_memory, say_usage};
use cli_sources::{Sources, is_taken, read_sources, stack_size};
use cmd_check::{plain_version, put_refused, put_unread, report_form};
use srcset::Fault;
use std::alloc::{AllocError, Global};
use verify_report::{Asked, Said, verify_sources};

/// The exit status of a program of which it could not be shown that it is defined and that its stack suffices.
const NOT_SHOWN: u8 = 3;

/// Standard output has the verdict already.
const NO_STREAM: &str = "the verdict goes to standard output: -o OUT wants a path";

/// Reports whether a program has undefined behaviour, on any input, and how much of its stack it takes, and where it has none and its stack suffices writes its
/// executable file at the path that is given; returns the exit status: 0 where it is defined and the stack suffices, 3 where that was not shown, 1 where the
/// program is refused.
pub fn verify_program(rt: &HostRuntime, program: &Program<'_>, words: &VerifyWords<'_>) -> u8 {
    let telling = words.telling;
    let path = words.out.unwrap_or_default();
    if path == "-" {
        return say_usage(rt, NO_STREAM);
    }
    if is_taken(rt, program, path) {
        return say_usage(rt, TAKEN);
    }
    let sources = match read_sources(rt, program) {
        Ok(sources) => sources,
        Err(fault) => return put_unread(rt, fault, telling),
    };
    if sources.are_at(rt, path) {
        return say_usage(rt, TAKEN);
    }
    match said(rt.alloc(), program, &sources, words) {
        Ok(Ok(said)) => put_verdict(rt, &said, words.out),
        Ok(Err(fault)) => put_refused(rt, program, &sources, fault, telling),
        Err(_) => say_memory(rt),
    }
}

/// The report on the program, or the fault for which it is refused.
fn said(
    alloc: Global,
    program: &Program<'_>,
    sources: &Sources<'_>,
    words: &VerifyWords<'_>,
) -> Result<Result<Said, Fault>, AllocError> {
    let names = sources.names(alloc)?;
    let asked = Asked {
        names: names.as_slice(),
        main: sources.main,
        given: sources.given,
        stack: stack_size(program),
        effort: words.effort,
        form: report_form(words.telling),
        version: plain_version(),
    };
    Ok(verify_sources(alloc, &sources.set, &asked))
}

/// Writes the verdict, and the executable file of a program that is shown.
fn put_verdict(rt: &HostRuntime, said: &Said, out: Option<&str>) -> u8 {
    let Some(verified) = &said.file else {
        return put_out(rt, said.out.as_bytes(), NOT_SHOWN);
    };
    let status = put_out(rt, said.out.as_bytes(), 0);
    match out {
        Some(path) if status == 0 => put_executable(rt, path, verified.built.elf.as_slice()),
        _ => status,
    }
}
