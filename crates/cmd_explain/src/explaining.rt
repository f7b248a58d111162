//! `explain`.

use crate::beside::look_beside;
use cli_args::{Colours, Program, Stage, Telling};
use cli_io::{put_out, say, say_memory, unread};
use cli_sources::{Sources, read_sources, stack_size};
use explain::Run;
use explain_cmd::{
    Bounds, Form, Said, explain_run, explain_unread, fault_source, find_faults, tell_faults,
};
use explain_render::Style;
use srcset::{Code, Fault};
use std::alloc::{AllocError, Global};
use std::io::{ErrorKind, IsTerminal, Read, Write};
use std::{env, fs};

/// How a command explains.
#[derive(Clone, Copy)]
pub struct Told {
    pub stage: Stage,
    /// The maximum number of ticks of the interpreter.
    pub max: u64,
    /// The maximum number of faults.
    pub most: usize,
    pub telling: Telling,
    pub colours: Colours,
}

/// Explains the result of a command: its faults, or the undefined behaviour of a program that is interpreted; returns the exit status.
pub fn explain_program(rt: &HostRuntime, program: &Program<'_>, told: Told) -> u8 {
    let form = form(rt, told);
    let sources = match read_sources(rt, program) {
        Ok(sources) => sources,
        Err(fault) => return say_unread(rt, fault, form),
    };
    let Ok(said) = said(rt, program, &sources, told, form) else {
        return say_memory(rt);
    };
    if told.stage == Stage::Interp && said.status == 0 {
        return explain_interp(rt, program, &sources, told.max, form);
    }
    put_named(rt, &sources, &said)
}

/// The report on the faults of a program.
fn said(
    rt: &HostRuntime,
    program: &Program<'_>,
    sources: &Sources<'_>,
    told: Told,
    form: Form,
) -> Result<Said, AllocError> {
    let alloc = rt.alloc();
    let names = sources.names(alloc)?;
    let stage = match told.stage {
        Stage::Pp => explain::Stage::Preprocessing,
        Stage::Build | Stage::Interp => explain::Stage::Whole,
    };
    let bounds = Bounds {
        stage,
        stack: stack_size(program),
        most: told.most,
    };
    let found = find_faults(
        alloc,
        &sources.set,
        names.as_slice(),
        sources.main,
        sources.given,
        bounds,
    )?;
    match found {
        Some(found) => {
            let mut found = found;
            look_beside(rt, sources, &mut found)?;
            tell_faults(alloc, Some(&found), form)
        }
        None => tell_faults(alloc, None, form),
    }
}

/// Shows the source line of a fault, with a caret, where standard error is a terminal: this follows the one line of `build`. A program on
/// standard input cannot be read again.
pub fn show_line(rt: &HostRuntime, program: &Program<'_>) {
    if !rt.stderr().is_terminal() || reads_input(program) {
        return;
    }
    let Ok(sources) = read_sources(rt, program) else {
        return;
    };
    let style = style(rt, Colours::Auto);
    if let Ok(text) = line_of(rt.alloc(), program, &sources, style) {
        let _shown = rt.stderr().write_all(text.as_slice());
    }
}

/// Whether a file of the words is standard input.
fn reads_input(program: &Program<'_>) -> bool {
    program.main == "-" || program.words.iter().any(|word| word.text == "-")
}

/// The source line of the fault of a program.
fn line_of(
    alloc: Global,
    program: &Program<'_>,
    sources: &Sources<'_>,
    style: Style,
) -> Result<Vec<u8>, AllocError> {
    let names = sources.names(alloc)?;
    fault_source(
        alloc,
        &sources.set,
        names.as_slice(),
        sources.main,
        stack_size(program),
        style,
    )
}

/// Reports in a form why a file was not read.
fn say_unread(rt: &HostRuntime, fault: Fault, form: Form) -> u8 {
    if matches!(form, Form::Text(_)) || fault.code == Code::OutOfMemory.number() {
        let status = say(rt, &fault);
        say_why(rt, &fault);
        return status;
    }
    match explain_unread(rt.alloc(), fault, form) {
        Ok(said) => put_said(rt, &said),
        Err(_) => say_memory(rt),
    }
}

/// Prints why a file cannot be read, where the reason is known.
fn say_why(rt: &HostRuntime, fault: &Fault) {
    if fault.code != Code::CannotRead.number() || fault.file.is_empty() {
        return;
    }
    let why = match fs::open(rt, fault.file.as_str()) {
        Ok(_) => "it is a folder, or reading it failed",
        Err(error) => match error.kind() {
            ErrorKind::NotFound => "there is no such file",
            ErrorKind::PermissionDenied => "it may not be read: its permissions forbid it",
            _ => return,
        },
    };
    let _said = eprintln!(rt; "  help: {why}");
}

/// Interprets the program over standard input, which is read to its end first; writes its output, and explains its undefined
/// behaviour. The exit status is that of `interp`.
fn explain_interp(
    rt: &HostRuntime,
    program: &Program<'_>,
    sources: &Sources<'_>,
    max: u64,
    form: Form,
) -> u8 {
    let mut input = Vec::new(rt.alloc());
    if let Err(error) = rt.stdin().read_to_end(&mut input) {
        return say(rt, &unread(rt.alloc(), "", &error));
    }
    match run_said(rt.alloc(), program, sources, input.as_slice(), max, form) {
        Ok(said) => put_said(rt, &said),
        Err(_) => say_memory(rt),
    }
}

/// The report on a run over an input.
fn run_said(
    alloc: Global,
    program: &Program<'_>,
    sources: &Sources<'_>,
    input: &[u8],
    max: u64,
    form: Form,
) -> Result<Said, AllocError> {
    let names = sources.names(alloc)?;
    explain_run(
        alloc,
        &sources.set,
        names.as_slice(),
        sources.main,
        &Run {
            input,
            max,
            stack: stack_size(program),
        },
        form,
    )
}

/// Writes a command's report on a program, in which a fault of the whole unit names the main file of the words; returns the exit status.
fn put_named(rt: &HostRuntime, sources: &Sources<'_>, said: &Said) -> u8 {
    match sources.behind_unit(said.err.as_slice()) {
        Some(behind) => {
            let _named = rt.stderr().write_all(sources.given.as_bytes());
            let _said = rt.stderr().write_all(behind);
            said.status
        }
        None => put_said(rt, said),
    }
}

/// Writes a command's report; returns the exit status.
fn put_said(rt: &HostRuntime, said: &Said) -> u8 {
    let status = put_out(rt, said.out.as_slice(), said.status);
    if status == said.status {
        let _said = rt.stderr().write_all(said.err.as_slice());
    }
    status
}

/// The form of the words.
fn form(rt: &HostRuntime, told: Told) -> Form {
    match told.telling {
        Telling::Sarif => Form::Sarif,
        Telling::Json => Form::Json,
        Telling::Text => Form::Text(style(rt, told.colours)),
    }
}

/// Whether the text on standard error has colours.
fn style(rt: &HostRuntime, colours: Colours) -> Style {
    let is_coloured = match colours {
        Colours::Always => true,
        Colours::Never => false,
        Colours::Auto => rt.stderr().is_terminal() && !is_set(rt, "NO_COLOR"),
    };
    if is_coloured {
        Style::Coloured
    } else {
        Style::Plain
    }
}

/// Whether a variable of the environment is there, and not empty.
fn is_set(rt: &HostRuntime, name: &str) -> bool {
    match env::var(rt, name) {
        Ok(value) => !value.is_empty(),
        Err(_) => false,
    }
}
