//! `image`: the bytes that an executable file loads.

use cli_args::ImageForm;
use cli_io::{put_out, say, say_memory, unread};
use image_export::{Piece, binary, entry, intel_hex, pieces, verilog_memory};
use loader::LoadFault;
use srcset::{Code, Fault};
use std::alloc::{AllocError, Global};
use std::fs;

/// Prints the bytes that the executable file at a path loads, in a form; returns the exit status.
pub fn show_image(rt: &HostRuntime, path: &str, form: ImageForm) -> u8 {
    match fs::read(rt, path) {
        Ok(file) => show_file(rt, path, file.as_slice(), form),
        Err(error) => say(rt, &unread(rt.alloc(), path, &error)),
    }
}

fn show_file(rt: &HostRuntime, path: &str, file: &[u8], form: ImageForm) -> u8 {
    match pieces(rt.alloc(), file) {
        Ok(found) => match image(rt.alloc(), file, found.as_slice(), form) {
            Ok(Some(bytes)) => put_out(rt, bytes.as_slice(), 0),
            Ok(None) => say(rt, &Fault::at(rt.alloc(), Code::TooMuchMemory, path, 0)),
            Err(_) => say_memory(rt),
        },
        Err(LoadFault::Memory) => say_memory(rt),
        Err(fault) => say(rt, &Fault::at(rt.alloc(), fault.code(), path, 0)),
    }
}

/// The bytes in a form; `None` where there are too many.
fn image(
    alloc: Global,
    file: &[u8],
    found: &[Piece],
    form: ImageForm,
) -> Result<Option<Vec<u8>>, AllocError> {
    match form {
        ImageForm::Binary => binary(alloc, file, found),
        ImageForm::Intel => Ok(Some(intel_hex(alloc, file, found, entry(file))?)),
        ImageForm::Verilog => Ok(Some(verilog_memory(alloc, file, found)?)),
    }
}
