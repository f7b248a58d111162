//! Values of the protocol as JSON.

use lsp_text::{Position, Span};
use lsp_wire::put_string;
use std::alloc::{AllocError, Global};

/// A `Position`.
pub fn put_position(alloc: Global, position: Position, out: &mut String) -> Result<(), AllocError> {
    let line = position.line;
    let character = position.character;
    let text = format!(in alloc; "{{\"line\":{line},\"character\":{character}}}")?;
    out.push_str(text.as_str())
}

/// A `Range`.
pub fn put_span(alloc: Global, span: Span, out: &mut String) -> Result<(), AllocError> {
    out.push_str("{\"start\":")?;
    put_position(alloc, span.start, out)?;
    out.push_str(",\"end\":")?;
    put_position(alloc, span.end, out)?;
    out.push_str("}")
}

/// A `Location`.
pub fn put_location(
    alloc: Global,
    uri: &str,
    span: Span,
    out: &mut String,
) -> Result<(), AllocError> {
    out.push_str("{\"uri\":")?;
    put_string(alloc, uri, out)?;
    out.push_str(",\"range\":")?;
    put_span(alloc, span, out)?;
    out.push_str("}")
}

/// A `TextEdit`.
pub fn put_edit(alloc: Global, span: Span, text: &str, out: &mut String) -> Result<(), AllocError> {
    out.push_str("{\"range\":")?;
    put_span(alloc, span, out)?;
    out.push_str(",\"newText\":")?;
    put_string(alloc, text, out)?;
    out.push_str("}")
}

/// Appends a comma between items of a list: before each but the first, at which the list is as long as at its beginning.
pub fn put_comma(begin: usize, out: &mut String) -> Result<(), AllocError> {
    if out.len() > begin {
        return out.push_str(",");
    }
    Ok(())
}

/// A member whose value is a string, with the comma before it.
pub fn put_text_member(
    alloc: Global,
    name: &str,
    text: &str,
    out: &mut String,
) -> Result<(), AllocError> {
    out.push_str(",\"")?;
    out.push_str(name)?;
    out.push_str("\":")?;
    put_string(alloc, text, out)
}
