//! The faults of a program that is refused, in the forms for tools.

use cli_args::{Program, Telling};
use cli_io::{put_out, say, say_memory};
use cli_sources::{Sources, stack_size};
use explain::{Stage, USUAL_FAULTS};
use explain_cmd::{Bounds, Form, Said, explain_faults, explain_unread};
use explain_render::Style;
use srcset::{Code, Fault};
use std::alloc::{AllocError, Global};

/// Reports why a file was not read, which when out of memory is the line of 801 in each form; returns the exit status.
pub fn put_unread(rt: &HostRuntime, fault: Fault, telling: Telling) -> u8 {
    if telling == Telling::Text || fault.code == Code::OutOfMemory.number() {
        say(rt, &fault)
    } else {
        put_told(rt, explain_unread(rt.alloc(), fault, form(telling)))
    }
}

/// Reports why a program is refused, which when out of memory is the line of 801 in each form; returns the exit status.
pub fn put_refused(
    rt: &HostRuntime,
    program: &Program<'_>,
    sources: &Sources<'_>,
    fault: Fault,
    telling: Telling,
) -> u8 {
    if telling == Telling::Text || fault.code == Code::OutOfMemory.number() {
        say(rt, &sources.told(rt.alloc(), fault))
    } else {
        tell_refused(rt, program, sources, telling)
    }
}

/// Reports why a program is refused, as `explain` does in this form; returns the exit status.
fn tell_refused(
    rt: &HostRuntime,
    program: &Program<'_>,
    sources: &Sources<'_>,
    telling: Telling,
) -> u8 {
    put_told(rt, refused(rt.alloc(), program, sources, form(telling)))
}

fn refused(
    alloc: Global,
    program: &Program<'_>,
    sources: &Sources<'_>,
    form: Form,
) -> Result<Said, AllocError> {
    let names = sources.names(alloc)?;
    let bounds = Bounds {
        stage: Stage::Whole,
        stack: stack_size(program),
        most: USUAL_FAULTS,
    };
    explain_faults(
        alloc,
        &sources.set,
        names.as_slice(),
        sources.main,
        sources.given,
        bounds,
        form,
    )
}

fn put_told(rt: &HostRuntime, told: Result<Said, AllocError>) -> u8 {
    match told {
        Ok(said) => put_out(rt, said.out.as_slice(), said.status),
        Err(_) => say_memory(rt),
    }
}

fn form(telling: Telling) -> Form {
    match telling {
        Telling::Sarif => Form::Sarif,
        Telling::Json => Form::Json,
        Telling::Text => Form::Text(Style::Plain),
    }
}
