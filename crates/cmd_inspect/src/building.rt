//! A program that is built for inspection.

use cc::{Built, compile_with};
use cli_args::Program;
use cli_io::say;
use cli_sources::{Sources, stack_size};
use symbol_table::{SymbolTable, symbol_table};

/// An executable file, and its description.
#[derive(Drop)]
pub struct Described {
    pub built: Built,
    pub table: SymbolTable,
}

/// The executable file of a program, with its description; or the exit status, where the fault is printed.
pub fn describe(
    rt: &HostRuntime,
    program: &Program<'_>,
    sources: &Sources<'_>,
) -> Result<Described, u8> {
    let stack = stack_size(program);
    match compile_with(rt.alloc(), &sources.set, sources.main, stack) {
        Ok(built) => looked_into(rt, program, sources, built),
        Err(fault) => Err(say(rt, &sources.told(rt.alloc(), fault))),
    }
}

fn looked_into(
    rt: &HostRuntime,
    program: &Program<'_>,
    sources: &Sources<'_>,
    built: Built,
) -> Result<Described, u8> {
    let stack = stack_size(program);
    match symbol_table(rt.alloc(), &sources.set, sources.main, stack, &built) {
        Ok(table) => Ok(Described { built, table }),
        Err(fault) => Err(say(rt, &sources.told(rt.alloc(), fault))),
    }
}
