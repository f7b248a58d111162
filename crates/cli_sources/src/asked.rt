//! Options that several commands read from their words.

use cc::StackSize;
use cli_args::{Program, Role};
use cli_io::is_same;

/// The stack of a program.
pub fn stack_size(program: &Program<'_>) -> StackSize {
    match StackSize::new(program.stack) {
        Some(size) => size,
        None => StackSize::usual(),
    }
}

/// Whether a path that is to be written leads to one of the files that the words name to be read.
pub fn is_taken(rt: &HostRuntime, program: &Program<'_>, path: &str) -> bool {
    if is_same(rt, path, program.main) {
        return path != "-";
    }
    for word in &program.words {
        if word.role == Role::File && is_same(rt, path, word.text) {
            return true;
        }
    }
    false
}
