//! `frames`: the sizes of each function.

use crate::building::{Described, describe};
use cli_args::Program;
use cli_io::{put_out, say, say_memory};
use cli_sources::read_sources;
use image_export::{Sizes, sizes_of};
use std::alloc::{AllocError, Global};
use symbol_table::{frames_table, sizes_table};

/// Builds a program, and prints the sizes of each function, with addresses and code sizes or without; returns the exit status.
pub fn show_frames(rt: &HostRuntime, program: &Program<'_>, has_sizes: bool) -> u8 {
    let sources = match read_sources(rt, program) {
        Ok(sources) => sources,
        Err(fault) => return say(rt, &fault),
    };
    match describe(rt, program, &sources) {
        Ok(seen) => show_seen(rt, &seen, has_sizes),
        Err(status) => status,
    }
}

fn show_seen(rt: &HostRuntime, seen: &Described, has_sizes: bool) -> u8 {
    match table(rt.alloc(), seen, has_sizes) {
        Ok(text) => put_out(rt, text.as_bytes(), 0),
        Err(_) => say_memory(rt),
    }
}

/// The table of the functions, and after it, where sizes are shown, the sizes of the whole file.
fn table(alloc: Global, seen: &Described, has_sizes: bool) -> Result<String, AllocError> {
    if !has_sizes {
        return frames_table(alloc, &seen.table);
    }
    let mut text = sizes_table(alloc, &seen.table)?;
    put_sizes(alloc, sizes_of(seen.built.elf.as_slice()), &mut text)?;
    Ok(text)
}

/// Appends the sizes of the whole file.
fn put_sizes(alloc: Global, all: Sizes, text: &mut String) -> Result<(), AllocError> {
    let (code, data, zeros, stack) = (all.text, all.data, all.zeros, all.stack);
    let line = format!(in alloc;
        "in all: {code} bytes of code, {data} of data, {zeros} of zeros, {stack} of stack\n"
    )?;
    text.push_str(line.as_str())
}
