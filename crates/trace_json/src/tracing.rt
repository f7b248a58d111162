//! The run, and its trace.

use cc::{StackSize, checked_program, interpret_observed};
use machine_kept::Feed;
use object_names::{ProgramNames, names_of_set};
use srcset::{Fault, FileSet, Names};
use std::alloc::{AllocError, Global};
use traced_interp::{SourceLines, Trace, TraceForm};
use typed_ast::Program;

/// The message where the port failed to read: 802.
const CANNOT_READ: &[u8] = b"cc: port fault 802\n";

/// The request for a run.
#[derive(Clone, Copy)]
pub struct Asked<'a> {
    /// The name of the main file.
    pub main: &'a str,
    pub input: &'a [u8],
    /// Whether the input may continue after these bytes: a read there waits, and does not see the end of the input.
    pub is_open: bool,
    /// At most this number of ticks.
    pub max: u64,
    /// The tick from which on the run is traced; events before the first tick belong to tick 0.
    pub from: u64,
}

/// The result of a traced run.
#[derive(Drop)]
pub struct Told {
    /// A JSON object a line, each with its newline.
    pub lines: Vec<u8>,
    /// Why the program did not end by itself, with its newline; empty where it did, and where it waits.
    pub message: Vec<u8>,
    /// The exit status of `zkc interp`.
    pub status: u8,
    /// Whether the run waits for input: it reads past the end of an input that is open.
    pub waits: bool,
}

/// Executes the program of the set over the input, and traces it.
///
/// Fails as the compiler does, with the usual stack; and with 801 where memory runs out for the trace.
pub fn trace_lines(alloc: Global, set: &FileSet, asked: Asked<'_>) -> Result<Told, Fault> {
    let mut names = Names::new(alloc);
    match checked_program(alloc, set, asked.main, &mut names, StackSize::usual()) {
        Ok(typed) => match trace_checked(alloc, set, asked, names, typed) {
            Ok(told) => Ok(told),
            Err(_) => Err(Fault::memory(alloc)),
        },
        Err(fault) => Err(fault),
    }
}

/// Traces the run of a program whose names are numbered in `names`.
fn trace_checked(
    alloc: Global,
    set: &FileSet,
    asked: Asked<'_>,
    names: Names,
    typed: Program,
) -> Result<Told, AllocError> {
    let mut names = names;
    let objects = names_of_set(alloc, set, asked.main, &mut names, &typed)?;
    let lines = SourceLines::of(alloc, set, &[])?;
    match asked.input.to_vec(alloc) {
        Ok(input) => {
            let port = Feed::over(alloc, input, !asked.is_open);
            run_told(alloc, asked, port, &typed, &names, objects, lines)
        }
        Err(_) => Err(AllocError),
    }
}

/// Traces the run of a program over a port. JSON shows no source lines, so there may be none.
fn run_told(
    alloc: Global,
    asked: Asked<'_>,
    port: Feed,
    typed: &Program,
    names: &Names,
    objects: ProgramNames,
    lines: SourceLines,
) -> Result<Told, AllocError> {
    let mut port = port;
    let mut message = Vec::new(alloc);
    let trace = Trace::new(
        alloc,
        names,
        objects,
        lines,
        TraceForm::Json,
        Vec::new(alloc),
    );
    let mut trace = trace.since(asked.from);
    let status = interpret_observed(
        alloc,
        typed,
        names,
        &mut port,
        asked.max,
        &mut message,
        &mut trace,
    );
    let (written, lines) = trace.into_writer();
    // A vector refuses bytes only where memory runs out.
    let wants_memory = !written.is_whole;
    if wants_memory {
        return Err(AllocError);
    }
    Ok(ended(status, message, lines))
}

/// The result of a run that ended with this status and message. The port fails to read only where the input is open and used up.
fn ended(status: u8, message: Vec<u8>, lines: Vec<u8>) -> Told {
    let waits = message.as_slice() == CANNOT_READ;
    let mut message = message;
    if waits {
        message.clear();
    }
    Told {
        lines,
        message,
        status,
        waits,
    }
}
