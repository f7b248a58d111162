//! An explained fault as text.

use explain_findings::{Finding, Note, Shown, Topic, Undefined};
use srcset::message;
use std::alloc::{AllocError, Global};

/// Whether the text has colours.
#[derive(Clone, Copy, Debug, PartialEq, Eq)]
pub enum Style {
    Plain,
    /// With the escape sequences of ECMA-48 8.3.117.
    Coloured,
}

impl Style {
    /// The beginning of bold text in red.
    fn red(self) -> &'static str {
        match self {
            Style::Plain => "",
            Style::Coloured => "\x1b[1;31m",
        }
    }

    /// The beginning of text in cyan.
    fn cyan(self) -> &'static str {
        match self {
            Style::Plain => "",
            Style::Coloured => "\x1b[36m",
        }
    }

    /// The beginning of bold text.
    fn bold(self) -> &'static str {
        match self {
            Style::Plain => "",
            Style::Coloured => "\x1b[1m",
        }
    }

    /// The end of all of these.
    fn end(self) -> &'static str {
        match self {
            Style::Plain => "",
            Style::Coloured => "\x1b[0m",
        }
    }
}

/// Prints an explained fault: `FILE:LINE:COLUMN: CODE TEXT 'token'`, the source line with a caret under the token, and a line
/// for each note.
pub fn put_finding(
    alloc: Global,
    style: Style,
    finding: &Finding,
    out: &mut String,
) -> Result<(), AllocError> {
    let fault = &finding.fault;
    let code = fault.code;
    put_start(
        alloc,
        style,
        fault.file.as_str(),
        fault.line,
        &finding.shown,
        out,
    )?;
    put_code(style, format!(in alloc; "{code}")?.as_str(), out)?;
    out.push_str(message(fault.code))?;
    out.push_str(fault.text.as_str())?;
    put_rest(alloc, style, fault.line, &finding.shown, out)
}

/// Prints undefined behaviour in the same form.
pub fn put_undefined(
    alloc: Global,
    style: Style,
    undefined: &Undefined,
    out: &mut String,
) -> Result<(), AllocError> {
    let (line, act) = (undefined.line, undefined.act);
    put_start(
        alloc,
        style,
        undefined.file.as_str(),
        line,
        &undefined.shown,
        out,
    )?;
    put_code(style, format!(in alloc; "U{act}")?.as_str(), out)?;
    out.push_str(undefined.title())?;
    put_rest(alloc, style, line, &undefined.shown, out)
}

/// Prints the place with which the first line begins.
fn put_start(
    alloc: Global,
    style: Style,
    file: &str,
    line: u32,
    shown: &Shown,
    out: &mut String,
) -> Result<(), AllocError> {
    out.push_str(style.bold())?;
    if file.is_empty() {
        out.push_str("cc: ")?;
    } else {
        put_place(alloc, file, line, column_of(shown), out)?;
    }
    out.push_str(style.end())
}

/// Prints a code and a space.
fn put_code(style: Style, code: &str, out: &mut String) -> Result<(), AllocError> {
    out.push_str(style.red())?;
    out.push_str(code)?;
    out.push_str(style.end())?;
    out.push_str(" ")
}

/// Prints the token, the source line and the notes.
fn put_rest(
    alloc: Global,
    style: Style,
    line: u32,
    shown: &Shown,
    out: &mut String,
) -> Result<(), AllocError> {
    if !shown.token.is_empty() {
        let token = String::from_utf8_lossy(alloc, shown.token.as_slice())?;
        out.push_str(" '")?;
        put_shown(token.as_str(), out)?;
        out.push_str("'")?;
    }
    out.push_str("\n")?;
    put_source(alloc, style, line, shown, out)?;
    for note in &shown.notes {
        put_note(alloc, style, note, out)?;
    }
    Ok(())
}

/// The column of a token, counted from 1; 0 where it is not known.
pub(crate) fn column_of(shown: &Shown) -> usize {
    match shown.place {
        Some(place) => place.column,
        None => 0,
    }
}

/// Prints `FILE:LINE:COLUMN: `, and without the column where that is 0.
fn put_place(
    alloc: Global,
    file: &str,
    line: u32,
    column: usize,
    out: &mut String,
) -> Result<(), AllocError> {
    put_shown(file, out)?;
    out.push_str(format!(in alloc; ":{line}")?.as_str())?;
    if column != 0 {
        out.push_str(format!(in alloc; ":{column}")?.as_str())?;
    }
    out.push_str(": ")
}

/// Prints a text with `?` in place of each control character but a tab.
fn put_shown(text: &str, out: &mut String) -> Result<(), AllocError> {
    for letter in text.chars() {
        if letter.is_ascii_control() && letter != '\t' {
            out.push('?')?;
        } else {
            out.push(letter)?;
        }
    }
    Ok(())
}

/// Prints the source line, and under it a caret where the token begins.
pub fn put_source(
    alloc: Global,
    style: Style,
    line: u32,
    shown: &Shown,
    out: &mut String,
) -> Result<(), AllocError> {
    if shown.source.is_empty() {
        return Ok(());
    }
    let source = String::from_utf8_lossy(alloc, shown.source.as_slice())?;
    out.push_str(format!(in alloc; "{line:5} | ")?.as_str())?;
    put_shown(source.as_str(), out)?;
    out.push_str("\n")?;
    let column = column_of(shown);
    if column == 0 {
        return Ok(());
    }
    out.push_str("      | ")?;
    let before = shown
        .source
        .get(..column.saturating_sub(1))
        .unwrap_or_default();
    put_blanks(before, out)?;
    out.push_str(style.red())?;
    put_caret(shown, column, out)?;
    out.push_str(style.end())?;
    out.push_str("\n")
}

/// Prints a space for each character of these bytes, and a tab for a tab.
fn put_blanks(before: &[u8], out: &mut String) -> Result<(), AllocError> {
    for byte in before {
        if *byte == b'\t' {
            out.push('\t')?;
        } else if *byte < 0x80 || *byte >= 0xc0 {
            out.push(' ')?;
        }
    }
    Ok(())
}

/// Prints a caret, and `~` to the token's end or that of the line.
fn put_caret(shown: &Shown, column: usize, out: &mut String) -> Result<(), AllocError> {
    out.push('^')?;
    let room = shown.source.len().saturating_sub(column);
    let more = points(shown.token.as_slice()).saturating_sub(1).min(room);
    for _ in 0..more {
        out.push('~')?;
    }
    Ok(())
}

/// How many code points begin in these bytes of UTF-8.
pub(crate) fn points(bytes: &[u8]) -> usize {
    let mut count: usize = 0;
    for byte in bytes {
        if *byte & 0xc0 != 0x80 {
            count = count.saturating_add(1);
        }
    }
    count
}

/// Prints a note on a line of its own.
fn put_note(alloc: Global, style: Style, note: &Note, out: &mut String) -> Result<(), AllocError> {
    out.push_str("  ")?;
    out.push_str(style.cyan())?;
    out.push_str(match note.topic {
        Topic::Suggestion | Topic::Hint => "help",
        Topic::Expected
        | Topic::Related
        | Topic::Included
        | Topic::Macro
        | Topic::Called
        | Topic::Value => "note",
    })?;
    out.push_str(style.end())?;
    out.push_str(": ")?;
    if !note.file.is_empty() {
        put_place(alloc, note.file.as_str(), note.line, note.column, out)?;
    }
    put_shown(note.text.as_str(), out)?;
    out.push_str("\n")
}
