//! The commands, with the arguments of each. Each has a function, so that none is about all tables together.

use crate::making::form;
use crate::rows::{
    ABI, ASSEMBLY, AT, BINARY, BUILT_STACK, COLOR, DEFINES, DEPEND, DEPEND_FILE, DEPEND_PHONY,
    DEPEND_QUOTED, DEPEND_TARGET, EFFORT, ERRORS, EXECUTABLE, FILES, FOLDERS, FORM, FORM_JSON,
    INTEL, JSON, LABELS, LATE_FOLDERS, LINES, LIST_FILES, LISTING, MAIN, MAP, MAX_EXPLAINED,
    MAX_RUN, MAX_TICKS, NO_WARN, OUT, PLAIN, PREPROCESSED, QUOTE_FOLDERS, SARIF, SIZES, SOURCE,
    STACK, STDIO, SYMBOLS_OUT, SYSTEM_FOLDERS, TEXT_OUT, TRACE_FILE, TRACE_INTERP, TRACE_JSON,
    TRACE_RUN, UNDEFINES, VERIFIED_OUT, VERILOG, WARN, WARN_ERRORS, WHAT,
};
use crate::table::Row;
use clap::Command;
use std::alloc::{AllocError, Global};

const BUILD_ROWS: &[Row] = &[
    MAIN,
    FILES,
    STACK,
    OUT,
    LISTING,
    PLAIN,
    FOLDERS,
    QUOTE_FOLDERS,
    SYSTEM_FOLDERS,
    LATE_FOLDERS,
    DEFINES,
    UNDEFINES,
    DEPEND,
    DEPEND_FILE,
    DEPEND_TARGET,
    DEPEND_QUOTED,
    DEPEND_PHONY,
    ASSEMBLY,
    PREPROCESSED,
    LIST_FILES,
];

const PP_ROWS: &[Row] = &[
    MAIN,
    FILES,
    LINES,
    TEXT_OUT,
    FOLDERS,
    QUOTE_FOLDERS,
    SYSTEM_FOLDERS,
    LATE_FOLDERS,
    DEFINES,
    UNDEFINES,
    LIST_FILES,
];

const LIST_ROWS: &[Row] = &[
    MAIN,
    FILES,
    STACK,
    LABELS,
    ABI,
    SOURCE,
    TEXT_OUT,
    FOLDERS,
    QUOTE_FOLDERS,
    SYSTEM_FOLDERS,
    LATE_FOLDERS,
    DEFINES,
    UNDEFINES,
];

const RUN_ROWS: &[Row] = &[
    EXECUTABLE,
    MAX_RUN,
    TRACE_RUN,
    TRACE_FILE,
    AT,
    MAP,
    BUILT_STACK,
    FOLDERS,
    DEFINES,
    UNDEFINES,
];

const INTERP_ROWS: &[Row] = &[
    MAIN,
    FILES,
    STACK,
    MAX_TICKS,
    TRACE_INTERP,
    TRACE_FILE,
    TRACE_JSON,
    FOLDERS,
    QUOTE_FOLDERS,
    SYSTEM_FOLDERS,
    LATE_FOLDERS,
    DEFINES,
    UNDEFINES,
];

const VERIFY_ROWS: &[Row] = &[
    MAIN,
    FILES,
    VERIFIED_OUT,
    JSON,
    SARIF,
    STACK,
    EFFORT,
    FOLDERS,
    QUOTE_FOLDERS,
    SYSTEM_FOLDERS,
    LATE_FOLDERS,
    DEFINES,
    UNDEFINES,
];

const SHOW_ROWS: &[Row] = &[
    FORM,
    MAIN,
    FILES,
    FORM_JSON,
    STACK,
    TEXT_OUT,
    FOLDERS,
    QUOTE_FOLDERS,
    SYSTEM_FOLDERS,
    LATE_FOLDERS,
    DEFINES,
    UNDEFINES,
];

const EXPLAIN_ROWS: &[Row] = &[
    WHAT,
    MAIN,
    FILES,
    JSON,
    SARIF,
    COLOR,
    STACK,
    MAX_EXPLAINED,
    ERRORS,
    FOLDERS,
    QUOTE_FOLDERS,
    SYSTEM_FOLDERS,
    LATE_FOLDERS,
    DEFINES,
    UNDEFINES,
];

const CHECK_ROWS: &[Row] = &[
    MAIN,
    FILES,
    WARN,
    NO_WARN,
    WARN_ERRORS,
    JSON,
    SARIF,
    STACK,
    FOLDERS,
    QUOTE_FOLDERS,
    SYSTEM_FOLDERS,
    LATE_FOLDERS,
    DEFINES,
    UNDEFINES,
];

const FRAMES_ROWS: &[Row] = &[
    MAIN,
    FILES,
    STACK,
    SIZES,
    FOLDERS,
    QUOTE_FOLDERS,
    SYSTEM_FOLDERS,
    LATE_FOLDERS,
    DEFINES,
    UNDEFINES,
];

const SYMBOLS_ROWS: &[Row] = &[
    MAIN,
    FILES,
    STACK,
    SYMBOLS_OUT,
    FOLDERS,
    QUOTE_FOLDERS,
    SYSTEM_FOLDERS,
    LATE_FOLDERS,
    DEFINES,
    UNDEFINES,
];

const IMAGE_ROWS: &[Row] = &[EXECUTABLE, BINARY, INTEL, VERILOG];

const SIZE_ROWS: &[Row] = &[EXECUTABLE];

const LSP_ROWS: &[Row] = &[STDIO];

/// The form of `build`.
pub fn build<'a>(alloc: Global) -> Result<Command<'a>, AllocError> {
    form(
        alloc,
        "build",
        "Compiles a program to an executable file",
        BUILD_ROWS,
    )
}

/// The form of `pp`.
pub fn pp<'a>(alloc: Global) -> Result<Command<'a>, AllocError> {
    form(
        alloc,
        "pp",
        "Prints a program's tokens after preprocessing",
        PP_ROWS,
    )
}

/// The form of `list`.
pub fn list<'a>(alloc: Global) -> Result<Command<'a>, AllocError> {
    form(
        alloc,
        "list",
        "Prints a listing of a program's code",
        LIST_ROWS,
    )
}

/// The form of `run`.
pub fn run<'a>(alloc: Global) -> Result<Command<'a>, AllocError> {
    form(
        alloc,
        "run",
        "Runs an executable file over standard input and output",
        RUN_ROWS,
    )
}

/// The form of `interp`.
pub fn interp<'a>(alloc: Global) -> Result<Command<'a>, AllocError> {
    form(
        alloc,
        "interp",
        "Interprets a program over standard input and output",
        INTERP_ROWS,
    )
}

/// The form of `show`.
pub fn show<'a>(alloc: Global) -> Result<Command<'a>, AllocError> {
    form(
        alloc,
        "show",
        "Shows a form that the compiler makes of a program between its phases",
        SHOW_ROWS,
    )
}

/// The form of `explain`.
pub fn explain<'a>(alloc: Global) -> Result<Command<'a>, AllocError> {
    form(
        alloc,
        "explain",
        "Explains why a program is refused, or what is undefined in its run",
        EXPLAIN_ROWS,
    )
}

/// The form of `check`.
pub fn check<'a>(alloc: Global) -> Result<Command<'a>, AllocError> {
    form(
        alloc,
        "check",
        "Warns of what a right program may have by mistake",
        CHECK_ROWS,
    )
}

/// The form of `verify`.
pub fn verify<'a>(alloc: Global) -> Result<Command<'a>, AllocError> {
    form(
        alloc,
        "verify",
        "Tries to show that a program does nothing undefined, on any input",
        VERIFY_ROWS,
    )
}

/// The form of `frames`.
pub fn frames<'a>(alloc: Global) -> Result<Command<'a>, AllocError> {
    form(
        alloc,
        "frames",
        "Prints what each function takes of the stack, and what it calls",
        FRAMES_ROWS,
    )
}

/// The form of `symbols`.
pub fn symbols<'a>(alloc: Global) -> Result<Command<'a>, AllocError> {
    form(
        alloc,
        "symbols",
        "Writes an ELF file of a program's symbols",
        SYMBOLS_ROWS,
    )
}

/// The form of `image`.
pub fn image<'a>(alloc: Global) -> Result<Command<'a>, AllocError> {
    form(
        alloc,
        "image",
        "Writes the bytes that an executable file loads to standard output, in one of three forms",
        IMAGE_ROWS,
    )
}

/// The form of `size`.
pub fn size<'a>(alloc: Global) -> Result<Command<'a>, AllocError> {
    form(
        alloc,
        "size",
        "Prints how many bytes of code, data and stack an executable file has",
        SIZE_ROWS,
    )
}

/// The form of `lsp`.
pub fn lsp<'a>(alloc: Global) -> Result<Command<'a>, AllocError> {
    form(
        alloc,
        "lsp",
        "Serves an editor by the Language Server Protocol, on standard input and output",
        LSP_ROWS,
    )
}
