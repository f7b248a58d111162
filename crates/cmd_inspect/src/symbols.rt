//! `symbols`: an ELF file of symbols.

use crate::building::describe;
use cli_args::Program;
use cli_io::{TAKEN, put_file, say, say_memory, say_usage};
use cli_sources::{is_taken, read_sources};
use symbol_table::{SymbolTable, symbol_file};

/// Builds a program, and writes the file of its symbols; returns the exit status.
pub fn write_symbols(rt: &HostRuntime, program: &Program<'_>, out: &str) -> u8 {
    if is_taken(rt, program, out) {
        return say_usage(rt, TAKEN);
    }
    let sources = match read_sources(rt, program) {
        Ok(sources) => sources,
        Err(fault) => return say(rt, &fault),
    };
    if sources.are_at(rt, out) {
        return say_usage(rt, TAKEN);
    }
    match describe(rt, program, &sources) {
        Ok(seen) => write_seen(rt, &seen.table, out),
        Err(status) => status,
    }
}

fn write_seen(rt: &HostRuntime, table: &SymbolTable, out: &str) -> u8 {
    match symbol_file(rt.alloc(), table) {
        Ok(bytes) => put_file(rt, out, bytes.as_slice()),
        Err(_) => say_memory(rt),
    }
}
