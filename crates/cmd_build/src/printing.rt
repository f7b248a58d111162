//! `pp` and `list`: a text to a file or to standard output.

use cc::{Cmd, StackSize, perform};
use cli_args::Program;
use cli_io::{Line, OutFile, TAKEN, say, say_memory, say_unwritten, say_usage, tell};
use cli_sources::{Sources, is_taken, read_sources, stack_size};
use io_ports::IoPort;
use std::alloc::Global;
use std::io;
use std::io::{BufReader, BufWriter, Write};

/// Prints the tokens of a program (`Cmd::Pp`) or the listing of its code (`Cmd::List`) to the file at a path; returns the exit status.
pub fn print_text(rt: &HostRuntime, program: &Program<'_>, command: Cmd<'_>, out: &str) -> u8 {
    if is_taken(rt, program, out) {
        return say_usage(rt, TAKEN);
    }
    let sources = match read_sources(rt, program) {
        Ok(sources) => sources,
        Err(fault) => return say(rt, &fault),
    };
    if sources.are_at(rt, out) {
        return say_usage(rt, TAKEN);
    }
    print_set(rt, &sources, command, out, stack_size(program))
}

/// Prints the text. Flushes the output before returning the status.
fn print_set(
    rt: &HostRuntime,
    sources: &Sources<'_>,
    command: Cmd<'_>,
    path: &str,
    stack: StackSize,
) -> u8 {
    let Ok(mut line) = Line::new(rt.alloc()) else {
        return say_memory(rt);
    };
    let Ok(mut out) = BufWriter::new(rt.alloc(), OutFile::plain(rt, path)) else {
        return say_memory(rt);
    };
    let Ok(mut port) = no_port(rt.alloc()) else {
        return say_memory(rt);
    };
    let status = perform(
        rt.alloc(),
        command,
        &sources.set,
        sources.main,
        b"",
        &mut port,
        &mut out,
        &mut line,
        stack,
    );
    if out.flush().is_err() && status == 0 {
        return say_unwritten(rt, path);
    }
    line.rename(rt.alloc(), sources.main, sources.given);
    tell(rt, &mut line, status)
}

/// A port without input or output.
fn no_port(alloc: Global) -> io::Result<IoPort<io::Empty, io::Sink>> {
    match BufReader::with_capacity(alloc, 0, io::empty()) {
        Ok(reader) => Ok(IoPort::new(reader, io::sink())),
        Err(error) => Err(error),
    }
}
