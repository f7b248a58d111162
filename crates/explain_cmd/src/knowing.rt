//! The facts that a second run finds out about undefined behaviour.

use cc::{checked_program, interpret_observed};
use explain::Run;
use explain_findings::{Undefined, room_for_line, wants_memory};
use explain_run::Following;
use io_ports::MemPort;
use object_names::names_of_set;
use srcset::{Code, Fault, FileSet, Names};
use std::alloc::{AllocError, Global};
use typed_ast::Program;

/// Puts notes with the values that make the operation undefined and with the calls that are active there: the program is interpreted again with an
/// observer.
///
/// Errors: memory ran out.
pub(crate) fn put_known(
    alloc: Global,
    set: &FileSet,
    main: &str,
    run: &Run<'_>,
    act: &mut Undefined,
) -> Result<(), AllocError> {
    let mut names = Names::new(alloc);
    match checked_program(alloc, set, main, &mut names, run.stack) {
        Ok(program) => {
            let objects = names_of_set(alloc, set, main, &mut names, &program)?;
            let following = Following::new(alloc, objects);
            follow(alloc, &program, &names, run, following, act)
        }
        Err(fault) => refused(&fault),
    }
}

/// Interprets the program with an observer, and puts its findings where the run ends with the same undefined behaviour.
fn follow(
    alloc: Global,
    program: &Program,
    names: &Names,
    run: &Run<'_>,
    following: Following,
    act: &mut Undefined,
) -> Result<(), AllocError> {
    let mut following = following;
    let mut port = MemPort::new(alloc, Vec::from_slice(alloc, run.input)?);
    let mut line = room_for_line(alloc)?;
    let max = run.max;
    let _status = interpret_observed(
        alloc,
        program,
        names,
        &mut port,
        max,
        &mut line,
        &mut following,
    );
    if wants_memory(line.as_slice()) {
        return Err(AllocError);
    }
    let (file, at, number) = (act.file.as_str(), act.line, act.act);
    let wanted = format!(in alloc; "{file}:{at}: undefined U{number}\n")?;
    if line.as_slice() != wanted.as_bytes() {
        return Ok(());
    }
    following.put_notes(alloc, names, act)
}

/// A program that was interpreted is refused by no phase: only memory can have run out.
fn refused(fault: &Fault) -> Result<(), AllocError> {
    if fault.code == Code::OutOfMemory.number() {
        Err(AllocError)
    } else {
        Ok(())
    }
}
