//! Warnings as JSON (RFC 8259).

use crate::files::Place;
use crate::placing::Placed;
use crate::shown::{Told, shown_bytes};
use std::alloc::{AllocError, Global};

/// Prints each warning as one object on a line of its own, with the members file, line, column, end, code, level, text, token and notes, as `explain` has them.
pub(crate) fn put_json(
    alloc: Global,
    told: &Told<'_>,
    level: &str,
    out: &mut String,
) -> Result<(), AllocError> {
    for placed in &told.list {
        put_object(alloc, told, placed, level, out)?;
    }
    Ok(())
}

fn put_object(
    alloc: Global,
    told: &Told<'_>,
    placed: &Placed,
    level: &str,
    out: &mut String,
) -> Result<(), AllocError> {
    out.push_str("{")?;
    put_place(alloc, told, told.file_name(placed), placed.place, out)?;
    out.push_str(",\"code\":\"")?;
    out.push_str(placed.kind.name())?;
    out.push_str("\",\"level\":\"")?;
    out.push_str(level)?;
    out.push_str("\",\"text\":")?;
    put_string(alloc, told.message(alloc, placed)?.as_str(), out)?;
    out.push_str(",\"token\":")?;
    put_string(
        alloc,
        shown_bytes(alloc, told.token(placed.place))?.as_str(),
        out,
    )?;
    out.push_str(",\"notes\":[{\"topic\":\"hint\",\"text\":")?;
    put_string(alloc, placed.kind.help(), out)?;
    out.push_str("}")?;
    if let Some(other) = told.other(placed) {
        out.push_str(",{\"topic\":\"declared\",\"text\":\"the other declaration stands here\",")?;
        put_place(alloc, told, told.name_at(other), other, out)?;
        out.push_str("}")?;
    }
    out.push_str("]}\n")
}

/// Prints the members that describe a place.
fn put_place(
    alloc: Global,
    told: &Told<'_>,
    file: &str,
    place: Place,
    out: &mut String,
) -> Result<(), AllocError> {
    let line = place.line;
    let column = told.column(place);
    out.push_str("\"file\":")?;
    put_string(alloc, file, out)?;
    out.push_str(format!(in alloc; ",\"line\":{line}")?.as_str())?;
    if column == 0 {
        return out.push_str(",\"column\":null,\"end\":null");
    }
    let end = column.saturating_add(told.token(place).len());
    out.push_str(format!(in alloc; ",\"column\":{column},\"end\":{end}")?.as_str())
}

/// Prints a string with its quotes: `"`, `\` and the characters below U+0020 are escaped (RFC 8259, section 7).
pub(crate) fn put_string(alloc: Global, text: &str, out: &mut String) -> Result<(), AllocError> {
    out.push('"')?;
    for letter in text.chars() {
        match letter {
            '"' => out.push_str("\\\"")?,
            '\\' => out.push_str("\\\\")?,
            '\0'..='\x1f' | '\x7f' => {
                let number = letter as u32;
                out.push_str(format!(in alloc; "\\u{number:04x}")?.as_str())?;
            }
            _ => out.push(letter)?,
        }
    }
    out.push('"')
}
