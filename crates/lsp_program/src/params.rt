//! The parameters of requests.

use lsp_text::{Position, Span};
use serde_json::Value;

/// The text at a pointer (RFC 6901) in a value.
pub fn text_at<'v>(value: &'v Value, pointer: &str) -> Option<&'v str> {
    value.pointer(pointer).and_then(Value::as_str)
}

/// The number at a pointer, at most `u32::MAX`.
pub fn number_at(value: &Value, pointer: &str) -> Option<u32> {
    let number = value.pointer(pointer).and_then(Value::as_u64)?;
    Some(u32::try_from(number).unwrap_or(u32::MAX))
}

/// The flag at a pointer.
pub fn flag_at(value: &Value, pointer: &str) -> Option<bool> {
    value.pointer(pointer).and_then(Value::as_bool)
}

/// The position that a value is.
pub fn position_of(value: &Value) -> Option<Position> {
    Some(Position {
        line: number_at(value, "/line")?,
        character: number_at(value, "/character")?,
    })
}

/// The range that a value is.
pub fn span_of(value: &Value) -> Option<Span> {
    Some(Span {
        start: position_of(value.pointer("/start")?)?,
        end: position_of(value.pointer("/end")?)?,
    })
}

/// The document and the position that a request is about.
pub fn place_of(params: &Value) -> Option<(&str, Position)> {
    let uri = text_at(params, "/textDocument/uri")?;
    let position = position_of(params.pointer("/position")?)?;
    Some((uri, position))
}
