//! `run` with a trace, with the machine shown after a number of instructions, or with the names of functions.

use crate::interpreting::trace_path;
use cc::{StackSize, compile_with};
use cli_args::{Program, Role, Trace};
use cli_io::{OutFile, TAKEN, say, say_memory, say_port, say_unwritten, say_usage, unread};
use cli_sources::{Sources, is_taken, read_sources, stack_size};
use io_ports::{IoPort, Port};
use loader::{LoadFault, Loaded, load};
use rv32::State;
use sim::{Machine, Outcome};
use srcset::Fault;
use std::alloc::{AllocError, Global};
use std::io::{BufReader, BufWriter, Stdin, Stdout, Write};
use std::{fs, io};
use symbol_table::{SymbolTable, symbol_table};
use traced_run::{TextTrace, TraceEnd, machine_text, place_text, traced_run};

/// The form in which a run is traced.
#[derive(Clone, Copy)]
pub struct RunForm<'a> {
    /// The maximum number of instructions.
    pub max: u64,
    /// After how many the machine is shown.
    pub at: Option<u64>,
    pub trace: Trace<'a>,
}

/// Runs the executable file of the words, and reports on it; returns the exit status.
pub fn run_traced(rt: &HostRuntime, program: &Program<'_>, form: RunForm<'_>) -> u8 {
    if is_taken(rt, program, trace_path(form.trace)) {
        return say_usage(rt, TAKEN);
    }
    let file = match fs::read(rt, program.main) {
        Ok(file) => file,
        Err(error) => return say(rt, &unread(rt.alloc(), program.main, &error)),
    };
    match load(rt.alloc(), file.as_slice()) {
        Ok(loaded) => run_loaded(rt, program, file.as_slice(), loaded, form),
        Err(fault) => say(rt, &load_fault(rt.alloc(), fault, program.main)),
    }
}

fn load_fault(alloc: Global, fault: LoadFault, name: &str) -> Fault {
    match fault {
        LoadFault::Memory => Fault::memory(alloc),
        _ => Fault::at(alloc, fault.code(), name, 0),
    }
}

/// Runs a program that was loaded, with the names of functions where the words have sources.
fn run_loaded(
    rt: &HostRuntime,
    program: &Program<'_>,
    file: &[u8],
    loaded: Loaded,
    form: RunForm<'_>,
) -> u8 {
    if !program.has(Role::File) {
        return run_over_streams(rt, loaded, form, None);
    }
    match map_of(rt, program, file) {
        Ok(Some(map)) => run_over_streams(rt, loaded, form, Some(&map)),
        Ok(None) => say_usage(rt, "FILE is not what the sources of --map build"),
        Err(fault) => say(rt, &fault),
    }
}

/// The functions of the file that the sources of the words build, the main one first; `None` where that is not this file.
fn map_of(
    rt: &HostRuntime,
    program: &Program<'_>,
    file: &[u8],
) -> Result<Option<SymbolTable>, Fault> {
    let Ok(built_from) = sources_of(rt.alloc(), program) else {
        return Err(Fault::memory(rt.alloc()));
    };
    let sources = read_sources(rt, &built_from)?;
    match table_of(rt.alloc(), &sources, stack_size(program), file) {
        Ok(table) => Ok(table),
        Err(fault) => Err(sources.told(rt.alloc(), fault)),
    }
}

fn table_of(
    alloc: Global,
    sources: &Sources<'_>,
    stack: StackSize,
    file: &[u8],
) -> Result<Option<SymbolTable>, Fault> {
    let built = compile_with(alloc, &sources.set, sources.main, stack)?;
    if built.elf.as_slice() != file {
        return Ok(None);
    }
    match symbol_table(alloc, &sources.set, sources.main, stack, &built) {
        Ok(table) => Ok(Some(table)),
        Err(fault) => Err(fault),
    }
}

/// The program of the sources: the first is the main file.
fn sources_of<'a>(alloc: Global, program: &Program<'a>) -> Result<Program<'a>, AllocError> {
    let mut main = "";
    let mut words = Vec::new(alloc);
    for word in &program.words {
        if word.role == Role::File && main.is_empty() {
            main = word.text;
        } else {
            words.push(*word)?;
        }
    }
    Ok(Program {
        main,
        words,
        stack: program.stack,
    })
}

/// Runs the program over standard input and output, as the words request.
fn run_over_streams(
    rt: &HostRuntime,
    loaded: Loaded,
    form: RunForm<'_>,
    map: Option<&SymbolTable>,
) -> u8 {
    let Ok(mut port) = streams(rt) else {
        return say_memory(rt);
    };
    let mut machine = Machine::new(loaded);
    let end = run_as_asked(rt, &mut machine, &mut port, form, map);
    if let Err(fault) = port.finish() {
        return say_port(rt, fault);
    }
    if form.at.is_some() && !show_machine(rt, machine.state(), map) {
        return say_memory(rt);
    }
    match end {
        End::Memory => say_memory(rt),
        End::Told(TraceEnd::Unwritten) => say_unwritten(rt, trace_path(form.trace)),
        End::Told(TraceEnd::Stopped(Outcome::Budget)) if form.at.is_some() => 0,
        End::Told(TraceEnd::Stopped(outcome)) => tell_end(rt, outcome, map),
    }
}

/// A port over standard input and output.
fn streams(rt: &HostRuntime) -> io::Result<IoPort<Stdin, BufWriter<Stdout>>> {
    let input = BufReader::new(rt.alloc(), rt.stdin())?;
    match BufWriter::new(rt.alloc(), rt.stdout()) {
        Ok(output) => Ok(IoPort::new(input, output)),
        Err(error) => Err(error),
    }
}

/// How a traced run ended.
#[derive(Clone, Copy)]
enum End {
    Told(TraceEnd),
    /// Memory ran out.
    Memory,
}

/// Shows the machine; returns whether there was memory for that.
fn show_machine(rt: &HostRuntime, state: &State, map: Option<&SymbolTable>) -> bool {
    match machine_text(rt.alloc(), state, map) {
        Ok(text) => {
            let _said = rt.stderr().write_all(text.as_bytes());
            true
        }
        Err(_) => false,
    }
}

/// A run of at most as many instructions as the words allow, with its trace where they request one.
fn run_as_asked<P: Port>(
    rt: &HostRuntime,
    machine: &mut Machine,
    port: &mut P,
    form: RunForm<'_>,
    map: Option<&SymbolTable>,
) -> End {
    match form.trace {
        Trace::File(path) => match BufWriter::new(rt.alloc(), OutFile::plain(rt, path)) {
            Ok(out) => run_to(
                machine,
                port,
                form.max,
                TextTrace::new(rt.alloc(), map, out),
            ),
            Err(_) => End::Memory,
        },
        Trace::Shown => match BufWriter::new(rt.alloc(), rt.stderr()) {
            Ok(out) => run_to(
                machine,
                port,
                form.max,
                TextTrace::new(rt.alloc(), map, out),
            ),
            Err(_) => End::Memory,
        },
        Trace::None => {
            let count = form.at.unwrap_or(form.max);
            End::Told(TraceEnd::Stopped(machine.run(port, count)))
        }
    }
}

/// A run with its trace, whose last lines are flushed.
fn run_to<P: Port, W: Write + Drop>(
    machine: &mut Machine,
    port: &mut P,
    max: u64,
    trace: TextTrace<'_, W>,
) -> End {
    let mut trace = trace;
    match traced_run(machine, port, max, &mut trace) {
        Ok(end) => {
            if trace.finish() {
                End::Told(end)
            } else {
                End::Told(TraceEnd::Unwritten)
            }
        }
        Err(_) => End::Memory,
    }
}

/// Prints how a run stopped, as `run` does, with the function where the map has it; returns the exit status.
fn tell_end(rt: &HostRuntime, outcome: Outcome, map: Option<&SymbolTable>) -> u8 {
    match outcome {
        Outcome::Ended(status) => status,
        Outcome::Budget => {
            let _said = eprintln!(rt; "cc: budget used");
            124
        }
        Outcome::Trapped(pc, cause) => {
            let _said = eprintln!(rt; "cc: trap {cause:?} at 0x{pc:08X}");
            match map {
                Some(map) => say_place(rt, map, pc),
                None => 125,
            }
        }
        Outcome::Port(fault) => say_port(rt, fault),
    }
}

/// Prints in which function a run trapped; returns the exit status.
fn say_place(rt: &HostRuntime, map: &SymbolTable, pc: u32) -> u8 {
    match place_text(rt.alloc(), map, pc) {
        Ok(place) => {
            let _where = eprintln!(rt; "cc: in {place}");
            125
        }
        Err(_) => say_memory(rt),
    }
}
