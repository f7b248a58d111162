//! `run` and `interp`: a program over standard input and output.

use cc::{Cmd, StackSize, perform};
use cli_args::Program;
use cli_io::{Line, Watching, say, say_memory, say_port, tell, unread};
use cli_sources::{read_sources, stack_size};
use io_ports::IoPort;
use srcset::FileSet;
use std::io::{BufReader, BufWriter, IsTerminal, Stdin, Stdout};
use std::{fs, io};

/// Runs the executable file of the command line, for at most `max` instructions; returns the exit status.
pub fn run(rt: &HostRuntime, program: &Program<'_>, max: u64) -> u8 {
    match fs::read(rt, program.main) {
        Ok(file) => {
            let set = FileSet::new(rt.alloc());
            let names = Names {
                main: program.main,
                given: program.main,
            };
            over_streams(
                rt,
                Cmd::Run(max),
                &set,
                names,
                file.as_slice(),
                stack_size(program),
            )
        }
        Err(error) => say(rt, &unread(rt.alloc(), program.main, &error)),
    }
}

/// Interprets a program, for at most `max` ticks; returns the exit status.
pub fn interp(rt: &HostRuntime, program: &Program<'_>, max: u64) -> u8 {
    let sources = match read_sources(rt, program) {
        Ok(sources) => sources,
        Err(fault) => return say(rt, &fault),
    };
    let names = Names {
        main: sources.main,
        given: sources.given,
    };
    over_streams(
        rt,
        Cmd::Interp(max),
        &sources.set,
        names,
        b"".as_slice(),
        stack_size(program),
    )
}

/// The name of the file that is translated or run, and its name on the command line.
#[derive(Clone, Copy)]
struct Names<'a> {
    main: &'a str,
    given: &'a str,
}

/// A command over standard input and output. Prints at most one line: a failed final flush takes precedence over
/// the run's outcome.
fn over_streams(
    rt: &HostRuntime,
    command: Cmd<'_>,
    set: &FileSet,
    names: Names<'_>,
    file: &[u8],
    stack: StackSize,
) -> u8 {
    let Ok(mut line) = Line::new(rt.alloc()) else {
        return say_memory(rt);
    };
    let Ok(inner) = streams(rt) else {
        return say_memory(rt);
    };
    let mut port = Watching::new(
        rt,
        inner,
        rt.stderr().is_terminal(),
        rt.stdout().is_terminal(),
    );
    let status = perform(
        rt.alloc(),
        command,
        set,
        names.main,
        file,
        &mut port,
        &mut io::sink(),
        &mut line,
        stack,
    );
    port.clear();
    match port.inner.finish() {
        Err(fault) if status != 126 || line.is_empty() => say_port(rt, fault),
        _ => {
            line.rename(rt.alloc(), names.main, names.given);
            tell(rt, &mut line, status)
        }
    }
}

/// A port over standard input and output.
fn streams(rt: &HostRuntime) -> io::Result<IoPort<Stdin, BufWriter<Stdout>>> {
    let input = BufReader::new(rt.alloc(), rt.stdin())?;
    match BufWriter::new(rt.alloc(), rt.stdout()) {
        Ok(output) => Ok(IoPort::new(input, output)),
        Err(error) => Err(error),
    }
}
