//! `interp` with a trace.

use cc::{checked_program, interpret_observed};
use cli_args::{Program, Trace};
use cli_io::{Line, OutFile, TAKEN, say, say_memory, say_port, say_unwritten, say_usage, tell};
use cli_sources::{Sources, is_taken, read_sources, stack_size};
use io_ports::IoPort;
use object_names::names_of_set;
use srcset::Names;
use std::alloc::{AllocError, Global};
use std::io;
use std::io::{BufReader, BufWriter, Stdin, Stdout, Write};
use traced_interp::{SourceLines, Trace as Tracing, TraceForm};

/// The form in which a run of the interpreter is traced.
#[derive(Clone, Copy)]
pub struct InterpForm<'a> {
    /// The maximum number of ticks.
    pub max: u64,
    pub trace: Trace<'a>,
    /// Whether each event is printed as a JSON object.
    pub is_json: bool,
}

/// A program that is to be interpreted, with the data that its trace shows.
#[derive(Drop)]
struct Shown {
    typed: typed_ast::Program,
    names: Names,
    objects: object_names::ProgramNames,
    lines: SourceLines,
}

/// Interprets a program with a trace; returns the exit status.
pub fn interp_traced(rt: &HostRuntime, program: &Program<'_>, form: InterpForm<'_>) -> u8 {
    if is_taken(rt, program, trace_path(form.trace)) {
        return say_usage(rt, TAKEN);
    }
    let sources = match read_sources(rt, program) {
        Ok(sources) => sources,
        Err(fault) => return say(rt, &fault),
    };
    if sources.are_at(rt, trace_path(form.trace)) {
        return say_usage(rt, TAKEN);
    }
    let mut names = Names::new(rt.alloc());
    let stack = stack_size(program);
    match checked_program(rt.alloc(), &sources.set, sources.main, &mut names, stack) {
        Ok(typed) => match find_shown(rt.alloc(), &sources, names, typed) {
            Ok(found) => trace_to(rt, found, form),
            Err(_) => say_memory(rt),
        },
        Err(fault) => say(rt, &sources.told(rt.alloc(), fault)),
    }
}

/// The data that the trace of a program shows.
fn find_shown(
    alloc: Global,
    sources: &Sources<'_>,
    names: Names,
    typed: typed_ast::Program,
) -> Result<Shown, AllocError> {
    let mut names = names;
    let objects = names_of_set(alloc, &sources.set, sources.main, &mut names, &typed)?;
    let files = sources.names(alloc)?;
    let lines = SourceLines::of(alloc, &sources.set, files.as_slice())?;
    Ok(Shown {
        typed,
        names,
        objects,
        lines,
    })
}

/// Interprets a program; its trace goes to the destination given by the words.
fn trace_to(rt: &HostRuntime, found: Shown, form: InterpForm<'_>) -> u8 {
    match form.trace {
        Trace::File(path) => match BufWriter::new(rt.alloc(), OutFile::plain(rt, path)) {
            Ok(out) => run_told(rt, found, form, out),
            Err(_) => say_memory(rt),
        },
        Trace::Shown | Trace::None => match BufWriter::new(rt.alloc(), rt.stderr()) {
            Ok(out) => run_told(rt, found, form, out),
            Err(_) => say_memory(rt),
        },
    }
}

/// Interprets a program over standard input and output; its trace goes to the writer.
fn run_told<W: Write + Drop>(rt: &HostRuntime, found: Shown, form: InterpForm<'_>, out: W) -> u8 {
    let Ok(mut port) = streams(rt) else {
        return say_memory(rt);
    };
    let Ok(mut line) = Line::new(rt.alloc()) else {
        return say_memory(rt);
    };
    let Shown {
        typed,
        names,
        objects,
        lines,
    } = found;
    let mut trace = Tracing::new(rt.alloc(), &names, objects, lines, trace_form(form), out);
    let max = form.max;
    let status = interpret_observed(
        rt.alloc(),
        &typed,
        &names,
        &mut port,
        max,
        &mut line,
        &mut trace,
    );
    let written = trace.finish();
    if let Err(fault) = port.finish() {
        return say_port(rt, fault);
    }
    if !written.has_memory {
        return say_memory(rt);
    }
    let status = tell(rt, &mut line, status);
    if written.is_whole {
        status
    } else {
        say_unwritten(rt, trace_path(form.trace))
    }
}

fn trace_form(form: InterpForm<'_>) -> TraceForm {
    if form.is_json {
        TraceForm::Json
    } else {
        TraceForm::Text
    }
}

/// A port over standard input and output.
fn streams(rt: &HostRuntime) -> io::Result<IoPort<Stdin, BufWriter<Stdout>>> {
    let input = BufReader::new(rt.alloc(), rt.stdin())?;
    match BufWriter::new(rt.alloc(), rt.stdout()) {
        Ok(output) => Ok(IoPort::new(input, output)),
        Err(error) => Err(error),
    }
}

/// The path of the file of a trace; empty where it goes to standard error.
pub fn trace_path<'a>(trace: Trace<'a>) -> &'a str {
    match trace {
        Trace::File(path) => path,
        Trace::Shown | Trace::None => "",
    }
}
