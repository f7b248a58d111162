//! `size`: how large the parts of an executable file are.

use cli_io::{put_out, say, say_memory, unread};
use image_export::{Sizes, sizes_of};
use loader::{LoadFault, load};
use srcset::Fault;
use std::alloc::{AllocError, Global};
use std::fs;

/// Prints how many bytes of code, data, zeros and stack the executable file at a path has; returns the exit status.
pub fn show_size(rt: &HostRuntime, path: &str) -> u8 {
    match fs::read(rt, path) {
        Ok(file) => show_file(rt, path, file.as_slice()),
        Err(error) => say(rt, &unread(rt.alloc(), path, &error)),
    }
}

fn show_file(rt: &HostRuntime, path: &str, file: &[u8]) -> u8 {
    match load(rt.alloc(), file) {
        Ok(_) => match text_of(rt.alloc(), sizes_of(file), path) {
            Ok(text) => put_out(rt, text.as_bytes(), 0),
            Err(_) => say_memory(rt),
        },
        Err(LoadFault::Memory) => say_memory(rt),
        Err(fault) => say(rt, &Fault::at(rt.alloc(), fault.code(), path, 0)),
    }
}

/// A head, and the numbers below it.
fn text_of(alloc: Global, all: Sizes, path: &str) -> Result<String, AllocError> {
    let (code, data, zeros, stack) = (all.text, all.data, all.zeros, all.stack);
    format!(in alloc;
        "   text    data     bss   stack filename\n{code:7} {data:7} {zeros:7} {stack:7} {path}\n"
    )
}
