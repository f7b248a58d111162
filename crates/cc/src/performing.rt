//! One command over a port and two writers.

ghost use Rattle.std.specs.Prelude.{◌≡◌, ◌≢◌, ◌⊎◌, List, [], ℕ, MatchResult, Some, Ok};
ghost use Rattle.typed_ast.specs.View.{program_of};
ghost use Rattle.cc.specs.Performed.{InterpretedAs, Performs, Runs, Interprets, interpreted_status, Builds, BuildsInto, FailsBuild, Prints, PrintsAll, FailsPrint, ListsCode, ListsAll, FailsList, exit_status};
ghost use Rattle.cc.specs.inside.Stops.{load_stop};
ghost use Rattle.cc.specs.Reported.{SaysOutcome, SaysRun};

use crate::compiling::compile_with;
use crate::front::{checked_unit, preprocessed};
use crate::listing::{compile_listed, write_listing};
use crate::reporting::{say_budget, say_fault, say_memory, say_port, say_trap, say_undefined};
use crate::stopping::Stop;
use crate::writing::write_out;
use cabs::{Observer, Run, Unobserved, observe};
use elf_out::StackSize;
use io_ports::Port;
use loader::{LoadFault, load};
use pp::print;
use sim::{Machine, Outcome};
use srcset::{Code, Fault, FileSet, Names};
use std::alloc::Global;
use std::io::Write;
use typed_ast::Program;

/// A command to the compiler.
#[derive(Clone, Copy, Debug, PartialEq, Eq)]
pub enum Cmd<'c> {
    /// Compile the main file; the executable file goes to the port, which writes the file of this name.
    Build(&'c str),
    /// Print the tokens of the main file after preprocessing.
    Pp,
    /// Write the listing of the main file's code: the address, the word and the instruction of each word of its text.
    List,
    /// Run the executable file over the port, for at most this number of instructions.
    Run(u64),
    /// Interpret the program of the main file over the port, for at most this number of ticks.
    Interp(u64),
}

/// Executes a command, and returns the exit status. The stack of a program that is built has this size, and no function of a program that is built, listed or
/// interpreted weighs more.
///
/// `Build` compiles the file `main` of the set, and puts the executable file on the port: 0, or 1 with the
/// line of the fault on `err`. `Pp` writes the tokens of the file `main`, with those of the files that it includes, to `out`:
/// one space between, and a newline; 0, or 1 with the line of the fault on `err`. `List` writes the listing of the code of the file `main` to
/// `out`: 0, or 1 with the line of the fault on `err`. `Run` runs the executable file of the name `main` and the bytes `file` over
/// the port: the program's status, or, each with one line on `err`, 1 where the file is refused or memory runs
/// out, 124 where it did not end within the instructions allowed, 125 where it trapped, and 126 where the port
/// refused. `Interp` interprets the program of the file `main` of the set, over the port: the program's status, or, each
/// with one line on `err`, 1 where the set is refused or memory runs out, 123 at undefined behaviour, 124 where it did not end within
/// the ticks allowed, and 126 where the port refused. No line takes memory to print. Failures of `err` are ignored.
pub fn perform<P: Port, W: Write, E: Write>(
    alloc: Global,
    command: Cmd<'_>,
    set: &FileSet,
    main: &str,
    file: &[u8],
    port: &mut P,
    out: &mut W,
    err: &mut E,
    stack: StackSize,
) -> u8
    ensures { Performs stack command.entry set.now main.now file.now (P.refused_with port.new) (P.seen port.old) (P.seen port.new) (record { before = W.contents out.old; after = W.contents out.new }) (record { before = E.contents err.old; after = E.contents err.new }) result }
{
    match command {
        Cmd::Build(name) => build(alloc, set, main, name, port, err, stack),
        Cmd::Pp => print_tokens(alloc, set, main, out, err),
        Cmd::List => list_code(alloc, set, main, out, err, stack),
        Cmd::Run(max) => run(alloc, main, file, port, max, err),
        Cmd::Interp(max) => interp(alloc, set, main, port, max, err, stack),
    }
}

fn build<P: Port, E: Write>(
    alloc: Global,
    set: &FileSet,
    main: &str,
    name: &str,
    port: &mut P,
    err: &mut E,
    stack: StackSize,
) -> u8
    ensures { Builds stack set.now main.now name.now (P.refused_with port.new) (P.seen port.old) (P.seen port.new) (record { before = E.contents err.old; after = E.contents err.new }) result }
{
    match build_into(alloc, set, main, name, port, stack) {
        Ok(()) => 0,
        Err(fault) => {
            say_fault(alloc, &fault, err);
            1
        }
    }
}

/// Writes the executable file to the port.
fn build_into<P: Port>(
    alloc: Global,
    set: &FileSet,
    main: &str,
    name: &str,
    port: &mut P,
    stack: StackSize,
) -> Result<(), Fault>
    ensures { MatchResult result
        (λ _. BuildsInto stack set.now main.now (P.seen port.old) (P.seen port.new))
        (FailsBuild stack set.now main.now name.now (P.refused_with port.new) (P.seen port.old) (P.seen port.new)) }
{
    let built = compile_with(alloc, set, main, stack)?;
    match write_out(alloc, name, built.elf.as_slice(), port) {
        Ok(()) => Ok(()),
        Err(fault) => Err(fault),
    }
}

fn print_tokens<W: Write, E: Write>(
    alloc: Global,
    set: &FileSet,
    main: &str,
    out: &mut W,
    err: &mut E,
) -> u8
    ensures { Prints set.now main.now (record { before = W.contents out.old; after = W.contents out.new }) (record { before = E.contents err.old; after = E.contents err.new }) result }
{
    match print_into(alloc, set, main, out) {
        Ok(()) => 0,
        Err(fault) => {
            say_fault(alloc, &fault, err);
            1
        }
    }
}

/// Writes the text of the tokens.
fn print_into<W: Write>(alloc: Global, set: &FileSet, main: &str, out: &mut W) -> Result<(), Fault>
    ensures { MatchResult result
        (λ _. PrintsAll set.now main.now (record { before = W.contents out.old; after = W.contents out.new }))
        (FailsPrint set.now main.now (record { before = W.contents out.old; after = W.contents out.new })) }
{
    let mut names = Names::new(alloc);
    match preprocessed(alloc, set, main, &mut names) {
        Ok(list) => print(alloc, list.as_slice(), out),
        Err(stop) => Err(stop.to_fault(alloc, main)),
    }
}

fn list_code<W: Write, E: Write>(
    alloc: Global,
    set: &FileSet,
    main: &str,
    out: &mut W,
    err: &mut E,
    stack: StackSize,
) -> u8
    ensures { ListsCode stack set.now main.now (record { before = W.contents out.old; after = W.contents out.new }) (record { before = E.contents err.old; after = E.contents err.new }) result }
{
    match list_into(alloc, set, main, out, stack) {
        Ok(()) => 0,
        Err(fault) => {
            say_fault(alloc, &fault, err);
            1
        }
    }
}

/// Writes the listing of the file that `compile_listed` makes.
fn list_into<W: Write>(
    alloc: Global,
    set: &FileSet,
    main: &str,
    out: &mut W,
    stack: StackSize,
) -> Result<(), Fault>
    ensures { MatchResult result
        (λ _. ListsAll stack set.now main.now (record { before = W.contents out.old; after = W.contents out.new }))
        (FailsList stack set.now main.now (record { before = W.contents out.old; after = W.contents out.new })) }
{
    match compile_listed(alloc, set, main, stack) {
        Ok(listed) => write_listing(alloc, &listed.items, out),
        Err(fault) => Err(fault),
    }
}

fn run<P: Port, E: Write>(
    alloc: Global,
    name: &str,
    file: &[u8],
    port: &mut P,
    max: u64,
    err: &mut E,
) -> u8
    ensures { Runs file.now name.now max (P.refused_with port.new) (P.seen port.old) (P.seen port.new) (record { before = E.contents err.old; after = E.contents err.new }) result }
{
    match load(alloc, file) {
        Ok(program) => {
            let mut machine = Machine::new(program);
            let outcome = machine.run(port, max);
            status(outcome, err)
        }
        Err(fault) => {
            say_fault(alloc, &load_stop(fault).to_fault(alloc, name), err);
            1
        }
    }
}

/// Why a file is no executable file for the machine.
fn load_stop(fault: LoadFault) -> Stop
    ensures { result ≡ load_stop fault }
{
    match fault {
        LoadFault::Memory => Stop::Memory,
        _ => Stop::At(fault.code(), 0),
    }
}

/// The exit status of a run, and its line where the program did not end by itself.
fn status<E: Write>(outcome: Outcome, err: &mut E) -> u8
    ensures status { result ≡ exit_status outcome }
    ensures says { SaysOutcome (record { before = E.contents err.old; after = E.contents err.new }) outcome }
{
    match outcome {
        Outcome::Ended(status) => status,
        Outcome::Budget => {
            say_budget(err);
            124
        }
        Outcome::Trapped(pc, cause) => {
            say_trap(pc, cause, err);
            125
        }
        Outcome::Port(fault) => {
            say_port(fault, err);
            126
        }
    }
}

/// Interprets the program of the set.
fn interp<P: Port, E: Write>(
    alloc: Global,
    set: &FileSet,
    main: &str,
    port: &mut P,
    max: u64,
    err: &mut E,
    stack: StackSize,
) -> u8
    ensures { Interprets stack set.now main.now max (P.refused_with port.new) (P.seen port.old) (P.seen port.new) (record { before = E.contents err.old; after = E.contents err.new }) result }
{
    let mut names = Names::new(alloc);
    match checked_unit(alloc, set, main, &mut names, stack) {
        Ok(program) => {
            let mut nobody = Unobserved;
            interpret_observed(alloc, &program, &names, port, max, err, &mut nobody)
        }
        Err(stop) => {
            say_fault(alloc, &stop.to_fault(alloc, main), err);
            1
        }
    }
}

/// Interprets a program with these names, over the port and for at most `max` ticks, as `Interp` of `perform` does the program of a set, and notifies the
/// observer of what it does. Returns the exit status.
pub fn interpret_observed<P: Port, E: Write, O: Observer>(
    alloc: Global,
    program: &Program,
    names: &Names,
    port: &mut P,
    max: u64,
    err: &mut E,
    observer: &mut O,
) -> u8
    ensures { InterpretedAs names.now (program_of program.now) max (P.refused_with port.new) (P.seen port.old) (P.seen port.new) (record { before = E.contents err.old; after = E.contents err.new }) result }
{
    let done = observe(alloc, program, port, max, observer);
    run_status(names, done.run, err)
}

/// The exit status of a program that was interpreted, and its line where it did not end by itself.
fn run_status<E: Write>(names: &Names, run: Run, err: &mut E) -> u8
    ensures status { result ≡ interpreted_status run }
    ensures says { SaysRun names.now (record { before = E.contents err.old; after = E.contents err.new }) run }
{
    match run {
        Run::Ended(status) => status,
        Run::Undefined(act, at) => {
            say_undefined(names, act, at, err);
            123
        }
        Run::TicksUsed => {
            say_budget(err);
            124
        }
        Run::Port(fault) => {
            say_port(fault, err);
            126
        }
        Run::Memory => {
            say_memory(err);
            1
        }
    }
}
