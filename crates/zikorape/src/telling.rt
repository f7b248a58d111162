//! Reports on a program in addition to its file: its faults explained, its warnings, the result of verifying, and the images of a file.
//! Nothing here has a clause but that it is safe.

use crate::files::{FileLengths, text_or_empty};
use crate::giving::{OUT_OF_MEMORY, Sizes, hand_fault, hand_out};
use cc::{StackSize, compile_with};
use explain::{Run, Stage, USUAL_FAULTS, explain};
use explain_cmd::{Form as Told, explain_run};
use explain_render::put_json;
use image_export::{Piece, binary, entry, intel_hex, pieces, verilog_memory};
use lint_report::{Asked, Form};
use lint_unit::warn_of_sources;
use loader::LoadFault;
use srcset::{Code, Fault, FileSet};
use std::alloc::{AllocError, Global};
use verify_report::{Asked as Question, USUAL_EFFORT, verify_sources};

/// The result where there is no such form.
const NO_FORM: u32 = 256;

/// The result where a program was not shown to be defined.
const NOT_SHOWN: u32 = 3;

/// The warnings of that program, as JSON.
pub fn tell_warnings(
    alloc: Global,
    set: &FileSet,
    names: &[&str],
    main: &str,
    stack: StackSize,
    out: &mut [u8],
    message: &mut [u8],
    sizes: &mut Sizes,
) -> u32 {
    match compile_with(alloc, set, main, stack) {
        Ok(_) => hand_text(
            warnings_of(alloc, set, names, main, stack),
            out,
            message,
            sizes,
        ),
        Err(fault) => {
            hand_fault(alloc, &fault, out, message, sizes);
            1
        }
    }
}

/// The faults of that program, explained, as JSON; nothing where it has none.
pub fn tell_faults(
    alloc: Global,
    set: &FileSet,
    names: &[&str],
    main: &str,
    stack: StackSize,
    out: &mut [u8],
    message: &mut [u8],
    sizes: &mut Sizes,
) -> u32 {
    let faults = faults_of(alloc, set, names, main, stack);
    hand_text(faults, out, message, sizes)
}

/// The undefined behaviour of a run of that program, explained, as JSON; nothing, and the line of why the program stopped, where there is
/// none. The status is that of the run.
pub fn tell_act(
    alloc: Global,
    set: &FileSet,
    names: &[&str],
    main: &str,
    run: &Run<'_>,
    out: &mut [u8],
    message: &mut [u8],
    sizes: &mut Sizes,
) -> u32 {
    match explain_run(alloc, set, names, main, run, Told::Json) {
        Ok(said) => {
            hand_out(
                said.out.as_slice(),
                said.err.as_slice(),
                out,
                message,
                sizes,
            );
            u32::from(said.status)
        }
        Err(_) => {
            hand_out(b"", OUT_OF_MEMORY, out, message, sizes);
            1
        }
    }
}

/// Whether that program has undefined behaviour, on any input, and how much of its stack it takes, as JSON; 0 where it is defined and the stack
/// suffices, 3 where that was not shown.
pub fn tell_verdict(
    alloc: Global,
    set: &FileSet,
    names: &[&str],
    main: &str,
    stack: StackSize,
    out: &mut [u8],
    message: &mut [u8],
    sizes: &mut Sizes,
) -> u32 {
    let question = Question {
        names,
        main,
        given: main,
        stack,
        effort: USUAL_EFFORT,
        form: Form::Json,
        version: "zikorape",
    };
    match verify_sources(alloc, set, &question) {
        Ok(said) => {
            hand_out(said.out.as_bytes(), b"", out, message, sizes);
            if said.file.is_some() { 0 } else { NOT_SHOWN }
        }
        Err(fault) => {
            hand_fault(alloc, &fault, out, message, sizes);
            1
        }
    }
}

/// The bytes that an executable file loads, in the form with this number.
pub fn tell_image(
    alloc: Global,
    file: &[u8],
    name: &str,
    form: u32,
    out: &mut [u8],
    message: &mut [u8],
    sizes: &mut Sizes,
) -> u32 {
    if form > 2 {
        hand_out(b"", b"", out, message, sizes);
        return NO_FORM;
    }
    match image_of(alloc, file, form) {
        Ok(image) => {
            hand_out(image.as_slice(), b"", out, message, sizes);
            0
        }
        Err(LoadFault::Memory) => {
            hand_out(b"", OUT_OF_MEMORY, out, message, sizes);
            1
        }
        Err(fault) => {
            let fault = Fault::at(alloc, fault.code(), name, 0);
            hand_fault(alloc, &fault, out, message, sizes);
            1
        }
    }
}

/// Gives a text, or the line of 801.
pub fn hand_text(
    text: Result<String, AllocError>,
    out: &mut [u8],
    message: &mut [u8],
    sizes: &mut Sizes,
) -> u32 {
    match text {
        Ok(text) => {
            hand_out(text.as_bytes(), b"", out, message, sizes);
            0
        }
        Err(_) => {
            hand_out(b"", OUT_OF_MEMORY, out, message, sizes);
            1
        }
    }
}

fn faults_of(
    alloc: Global,
    set: &FileSet,
    names: &[&str],
    main: &str,
    stack: StackSize,
) -> Result<String, AllocError> {
    let mut text = String::new(alloc);
    if let Some(told) = explain(alloc, set, names, main, Stage::Whole, stack, USUAL_FAULTS)? {
        put_json(alloc, &told.first, &mut text)?;
        for finding in &told.further {
            put_json(alloc, finding, &mut text)?;
        }
    }
    Ok(text)
}

fn warnings_of(
    alloc: Global,
    set: &FileSet,
    names: &[&str],
    main: &str,
    stack: StackSize,
) -> Result<String, AllocError> {
    let asked = Asked {
        names,
        main,
        given: main,
        stack: stack.get(),
        words: "all",
        are_errors: false,
        form: Form::Json,
        version: "zikorape",
    };
    let said = warn_of_sources(alloc, set, asked)?;
    Ok(said.out)
}

/// The names of the files, in their order.
pub fn names_of<'a>(
    alloc: Global,
    texts: &'a [u8],
    files: &[FileLengths],
) -> Result<Vec<&'a str>, AllocError> {
    let mut names = Vec::new(alloc);
    let mut at: usize = 0;
    for file in files {
        let end = at.saturating_add(file.name as usize);
        names.push(text_or_empty(texts.get(at..end).unwrap_or_default()))?;
        at = end.saturating_add(file.bytes as usize);
    }
    Ok(names)
}

fn image_of(alloc: Global, file: &[u8], form: u32) -> Result<Vec<u8>, LoadFault> {
    match pieces(alloc, file) {
        Ok(found) => match written(alloc, file, found.as_slice(), form) {
            Ok(Some(image)) => Ok(image),
            Ok(None) => Err(LoadFault::TooMuch),
            Err(_) => Err(LoadFault::Memory),
        },
        Err(fault) => Err(fault),
    }
}

fn written(
    alloc: Global,
    file: &[u8],
    found: &[Piece],
    form: u32,
) -> Result<Option<Vec<u8>>, AllocError> {
    match form {
        0 => binary(alloc, file, found),
        1 => Ok(Some(intel_hex(alloc, file, found, entry(file))?)),
        _ => Ok(Some(verilog_memory(alloc, file, found)?)),
    }
}
