//! The output of a trace: lines of text, or a JSON object a line.

use std::alloc::{AllocError, Global};

/// The form of a trace.
#[derive(Clone, Copy, Debug, PartialEq, Eq)]
pub enum TraceForm {
    /// Lines for people.
    Text,
    /// One JSON object a line, also for each byte that is read or written.
    Json,
}

/// The function with this name is entered.
pub(crate) fn entered(
    alloc: Global,
    form: TraceForm,
    function: &str,
) -> Result<String, AllocError> {
    match form {
        TraceForm::Text => format!(in alloc; "enter {function}\n"),
        TraceForm::Json => {
            let mut text = String::from_str(alloc, "{\"event\":\"enter\",\"function\":")?;
            put_string(alloc, function, &mut text)?;
            ended(text)
        }
    }
}

/// The function with this name is left, with this value or with none.
pub(crate) fn left(
    alloc: Global,
    form: TraceForm,
    function: &str,
    value: Option<i64>,
) -> Result<String, AllocError> {
    match form {
        TraceForm::Text => match value {
            Some(value) => format!(in alloc; "leave {function}: {value}\n"),
            None => format!(in alloc; "leave {function}\n"),
        },
        TraceForm::Json => {
            let mut text = String::from_str(alloc, "{\"event\":\"leave\",\"function\":")?;
            put_string(alloc, function, &mut text)?;
            text.push_str(",\"value\":")?;
            put_number(alloc, value, &mut text)?;
            ended(text)
        }
    }
}

/// A statement at a line with this text begins, or continues.
pub(crate) fn begun(
    alloc: Global,
    form: TraceForm,
    file: &str,
    line: u32,
    source: &str,
) -> Result<String, AllocError> {
    match form {
        TraceForm::Text => format!(in alloc; "{file}:{line}: {source}\n"),
        TraceForm::Json => {
            let mut text = String::from_str(alloc, "{\"event\":\"statement\",\"file\":")?;
            put_string(alloc, file, &mut text)?;
            text.push_str(format!(in alloc; ",\"line\":{line}")?.as_str())?;
            ended(text)
        }
    }
}

/// The element of an object at these subscripts gets a value. The name is that of the object.
pub(crate) fn set(
    alloc: Global,
    form: TraceForm,
    name: &str,
    path: &[usize],
    value: i64,
) -> Result<String, AllocError> {
    match form {
        TraceForm::Text => {
            let mut text = format!(in alloc; "    {name}")?;
            for subscript in path {
                let subscript = *subscript;
                text.push_str(format!(in alloc; "[{subscript}]")?.as_str())?;
            }
            text.push_str(format!(in alloc; " = {value}\n")?.as_str())?;
            Ok(text)
        }
        TraceForm::Json => {
            let mut text = String::from_str(alloc, "{\"event\":\"set\",\"name\":")?;
            put_string(alloc, name, &mut text)?;
            put_path(alloc, path, &mut text)?;
            text.push_str(format!(in alloc; ",\"value\":{value}")?.as_str())?;
            ended(text)
        }
    }
}

/// Further elements of the object with this name get first values.
pub(crate) fn further(alloc: Global, form: TraceForm, name: &str) -> Result<String, AllocError> {
    match form {
        TraceForm::Text => String::from_str(alloc, "    ..\n"),
        TraceForm::Json => {
            let mut text = String::from_str(alloc, "{\"event\":\"further\",\"name\":")?;
            put_string(alloc, name, &mut text)?;
            ended(text)
        }
    }
}

/// A byte was read, or none at the end of the input. The text form prints nothing for it.
pub(crate) fn got(alloc: Global, byte: Option<u8>) -> Result<String, AllocError> {
    match byte {
        Some(byte) => format!(in alloc; "{{\"event\":\"get\",\"byte\":{byte}}}\n"),
        None => String::from_str(alloc, "{\"event\":\"get\",\"byte\":null}\n"),
    }
}

/// A byte is written. The text form prints nothing for it.
pub(crate) fn put(alloc: Global, byte: u8) -> Result<String, AllocError> {
    format!(in alloc; "{{\"event\":\"put\",\"byte\":{byte}}}\n")
}

fn ended(text: String) -> Result<String, AllocError> {
    let mut text = text;
    text.push_str("}\n")?;
    Ok(text)
}

fn put_number(alloc: Global, value: Option<i64>, out: &mut String) -> Result<(), AllocError> {
    match value {
        Some(value) => out.push_str(format!(in alloc; "{value}")?.as_str()),
        None => out.push_str("null"),
    }
}

fn put_path(alloc: Global, path: &[usize], out: &mut String) -> Result<(), AllocError> {
    out.push_str(",\"path\":[")?;
    for (number, subscript) in path.iter().enumerate() {
        let subscript = *subscript;
        if number != 0 {
            out.push(',')?;
        }
        out.push_str(format!(in alloc; "{subscript}")?.as_str())?;
    }
    out.push(']')
}

/// Appends a string with its quotes: `"`, `\` and the characters below U+0020 are escaped (RFC 8259, section 7).
pub fn put_string(alloc: Global, text: &str, out: &mut String) -> Result<(), AllocError> {
    out.push('"')?;
    for letter in text.chars() {
        match letter {
            '"' => out.push_str("\\\"")?,
            '\\' => out.push_str("\\\\")?,
            '\0'..='\x1f' | '\x7f' => {
                let number = letter as u32;
                out.push_str(format!(in alloc; "\\u{number:04x}")?.as_str())?;
            }
            _ => out.push(letter)?,
        }
    }
    out.push('"')
}
