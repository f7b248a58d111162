//! The macros that the words define.

use crate::sources::{MACROS, Sources};
use cli_args::{Program, Role, macro_name};
use srcset::Fault;
use std::alloc::{AllocError, Global};

/// Whether the words define a macro, or remove the definition of one.
pub fn has_macros(program: &Program<'_>) -> bool {
    program.has(Role::Define) || program.has(Role::Undefine)
}

/// Adds a file that defines the macros and then includes the main file; this is the file translated from now on. Its first line is empty, so that a fault
/// there is one of the whole unit.
pub fn put_macros(
    alloc: Global,
    program: &Program<'_>,
    sources: &mut Sources<'_>,
) -> Result<(), Fault> {
    match macro_text(alloc, program, sources.given) {
        Ok(text) => sources.set.add(MACROS, text.into_bytes())?,
        Err(_) => return Err(Fault::memory(alloc)),
    }
    sources.note(alloc, MACROS, "")?;
    sources.main = MACROS;
    Ok(())
}

/// The text of that file: each macro is defined, or its definition removed, in the order of the words.
fn macro_text(alloc: Global, program: &Program<'_>, main: &str) -> Result<String, AllocError> {
    let mut text = String::from_str(alloc, "\n")?;
    for word in &program.words {
        match word.role {
            Role::Define => put_definition(word.text, &mut text)?,
            Role::Undefine => put_removal(word.text, &mut text)?,
            _ => {}
        }
    }
    put_texts(&["#include \"", main, "\"\n"], &mut text)?;
    Ok(text)
}

/// Puts the definition of a macro; faults in it name the word.
fn put_definition(word: &str, text: &mut String) -> Result<(), AllocError> {
    let (defined, value) = match word.split_once('=') {
        Some(parts) => parts,
        None => (word, "1"),
    };
    let name = macro_name(word);
    put_texts(
        &[
            "#line 1 \"-D ",
            name,
            "\"\n#define ",
            defined,
            " ",
            value,
            "\n",
        ],
        text,
    )
}

/// Puts that a macro has no definition from here on; faults name the word.
fn put_removal(name: &str, text: &mut String) -> Result<(), AllocError> {
    put_texts(&["#line 1 \"-U ", name, "\"\n#undef ", name, "\n"], text)
}

fn put_texts(texts: &[&str], to: &mut String) -> Result<(), AllocError> {
    for text in texts {
        to.push_str(text)?;
    }
    Ok(())
}
