//! The files of a program, as a list.

use cli_args::Program;
use cli_io::{put_out, say, say_memory};
use cli_sources::{Sources, read_sources};
use std::alloc::{AllocError, Global};

/// Prints a line for each file of a program: its name, a tab, and the path at which it was found; returns the exit status.
pub fn list_files(rt: &HostRuntime, program: &Program<'_>) -> u8 {
    let sources = match read_sources(rt, program) {
        Ok(sources) => sources,
        Err(fault) => return say(rt, &fault),
    };
    match text_of(rt.alloc(), &sources) {
        Ok(text) => put_out(rt, text.as_bytes(), 0),
        Err(_) => say_memory(rt),
    }
}

fn text_of(alloc: Global, sources: &Sources<'_>) -> Result<String, AllocError> {
    let mut text = String::new(alloc);
    for file in &sources.files {
        if !file.path.is_empty() {
            text.push_str(file.name.as_str())?;
            text.push_str("\t")?;
            text.push_str(file.path.as_str())?;
            text.push_str("\n")?;
        }
    }
    Ok(text)
}
