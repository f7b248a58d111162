//! `list` with labels, with the names that registers have in calls, or with lines of the sources.

use crate::building::describe;
use crate::listing_text::listing_text;
use cc::{Cmd, perform};
use cli_args::Program;
use cli_io::{TAKEN, put_file, say, say_memory, say_usage};
use cli_sources::{Sources, is_taken, read_sources, stack_size};
use io_ports::MemPort;
use std::alloc::Global;
use std::io;
use symbol_table::SymbolTable;

/// The parts that a listing shows in addition to the instructions.
#[derive(Clone, Copy, Debug, PartialEq, Eq)]
pub struct ListForm {
    /// The names of functions and of objects, and labels where branches lead to.
    pub has_labels: bool,
    /// The names that registers have in calls.
    pub has_abi_names: bool,
    /// The lines of the sources, each before the code of its statements.
    pub has_lines: bool,
}

/// Prints the listing of a program's code in a form to the file at a path; returns the exit status.
pub fn list_code(rt: &HostRuntime, program: &Program<'_>, out: &str, form: ListForm) -> u8 {
    if is_taken(rt, program, out) {
        return say_usage(rt, TAKEN);
    }
    let sources = match read_sources(rt, program) {
        Ok(sources) => sources,
        Err(fault) => return say(rt, &fault),
    };
    if sources.are_at(rt, out) {
        return say_usage(rt, TAKEN);
    }
    match describe(rt, program, &sources) {
        Ok(seen) => list_seen(rt, program, &sources, &seen.table, out, form),
        Err(status) => status,
    }
}

fn list_seen(
    rt: &HostRuntime,
    program: &Program<'_>,
    sources: &Sources<'_>,
    table: &SymbolTable,
    out: &str,
    form: ListForm,
) -> u8 {
    let Some(plain) = plain_listing(rt.alloc(), program, sources) else {
        return say_memory(rt);
    };
    match listing_text(rt.alloc(), plain.as_slice(), table, &sources.set, form) {
        Ok(text) => put_file(rt, out, text.as_slice()),
        Err(_) => say_memory(rt),
    }
}

/// The listing of a program that was built; `None` where memory ran out.
fn plain_listing(alloc: Global, program: &Program<'_>, sources: &Sources<'_>) -> Option<Vec<u8>> {
    let mut listing = Vec::new(alloc);
    let status = perform(
        alloc,
        Cmd::List,
        &sources.set,
        sources.main,
        b"",
        &mut MemPort::new(alloc, Vec::new(alloc)),
        &mut listing,
        &mut io::sink(),
        stack_size(program),
    );
    if status == 0 { Some(listing) } else { None }
}
