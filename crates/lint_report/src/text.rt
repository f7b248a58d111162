//! Warnings as text.

use crate::files::Place;
use crate::placing::Placed;
use crate::shown::{Told, shown_bytes};
use std::alloc::{AllocError, Global};

/// Prints each warning: `FILE:LINE:COLUMN: warning: TEXT 'NAME' [KIND]`, the source line with a caret, the other declaration, and the suggested text.
pub(crate) fn put_text(
    alloc: Global,
    told: &Told<'_>,
    level: &str,
    out: &mut String,
) -> Result<(), AllocError> {
    for placed in &told.list {
        put_warning(alloc, told, placed, level, out)?;
    }
    Ok(())
}

fn put_warning(
    alloc: Global,
    told: &Told<'_>,
    placed: &Placed,
    level: &str,
    out: &mut String,
) -> Result<(), AllocError> {
    put_place(alloc, told, told.file_name(placed), placed.place, out)?;
    out.push_str(level)?;
    out.push_str(": ")?;
    put_shown(told.message(alloc, placed)?.as_str(), out)?;
    out.push_str(" [")?;
    out.push_str(placed.kind.name())?;
    out.push_str("]\n")?;
    put_source(alloc, told, placed.place, out)?;
    if let Some(other) = told.other(placed) {
        out.push_str("  note: ")?;
        put_place(alloc, told, told.name_at(other), other, out)?;
        out.push_str("the other declaration stands here\n")?;
    }
    out.push_str("  help: ")?;
    out.push_str(placed.kind.help())?;
    out.push_str("\n")
}

/// Prints `FILE:LINE:COLUMN: `, and without the column where it is not known.
fn put_place(
    alloc: Global,
    told: &Told<'_>,
    file: &str,
    place: Place,
    out: &mut String,
) -> Result<(), AllocError> {
    let line = place.line;
    let column = told.column(place);
    put_shown(file, out)?;
    out.push_str(format!(in alloc; ":{line}")?.as_str())?;
    if column != 0 {
        out.push_str(format!(in alloc; ":{column}")?.as_str())?;
    }
    out.push_str(": ")
}

/// Prints the source line, and under it a caret where the token begins.
fn put_source(
    alloc: Global,
    told: &Told<'_>,
    place: Place,
    out: &mut String,
) -> Result<(), AllocError> {
    let line = place.line;
    let column = told.column(place);
    if column == 0 {
        return Ok(());
    }
    let bytes = told.source(place);
    out.push_str(format!(in alloc; "{line:5} | ")?.as_str())?;
    put_shown(shown_bytes(alloc, bytes)?.as_str(), out)?;
    out.push_str("\n      | ")?;
    let before = bytes.get(..column.saturating_sub(1)).unwrap_or_default();
    put_blanks(before, out)?;
    put_caret(told.token(place).len(), out)?;
    out.push_str("\n")
}

/// Prints a space for each character of these bytes, and a tab for a tab.
fn put_blanks(before: &[u8], out: &mut String) -> Result<(), AllocError> {
    for byte in before {
        if *byte == b'\t' {
            out.push('\t')?;
        } else if *byte < 0x80 || *byte >= 0xc0 {
            out.push(' ')?;
        }
    }
    Ok(())
}

/// Prints a caret, and `~` to the end of a token with `length` bytes.
fn put_caret(length: usize, out: &mut String) -> Result<(), AllocError> {
    out.push('^')?;
    for _ in 1..length {
        out.push('~')?;
    }
    Ok(())
}

/// Prints a text with `?` in place of each control character but a tab.
fn put_shown(text: &str, out: &mut String) -> Result<(), AllocError> {
    for letter in text.chars() {
        if letter.is_ascii_control() && letter != '\t' {
            out.push('?')?;
        } else {
            out.push(letter)?;
        }
    }
    Ok(())
}
