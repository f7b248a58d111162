//! An explained fault as JSON (RFC 8259).

use crate::report::Report;
use crate::text::column_of;
use explain_findings::{Finding, Fix, Note, Shown, Topic, Undefined};
use srcset::message;
use std::alloc::{AllocError, Global};

/// Prints a fault as one object on a line of its own, with the members file, line, column, end, code, text, token and notes, and fix where a change corrects
/// it. The code is a string, of digits for a fault. Columns are counted in bytes from 1, `end` is that after the token; both are null where they are not known.
pub fn put_json(alloc: Global, finding: &Finding, out: &mut String) -> Result<(), AllocError> {
    let fault = &finding.fault;
    let code = fault.code;
    let text = said(alloc, finding)?;
    let code = format!(in alloc; "{code}")?;
    let report = Report {
        code: code.as_str(),
        text: text.as_str(),
        level: "error",
        file: fault.file.as_str(),
        line: fault.line,
        shown: &finding.shown,
    };
    put_json_report(alloc, report, out)
}

/// Prints undefined behaviour in the same form; its code is U1 to U8.
pub fn put_json_undefined(
    alloc: Global,
    undefined: &Undefined,
    out: &mut String,
) -> Result<(), AllocError> {
    let act = undefined.act;
    let code = format!(in alloc; "U{act}")?;
    put_json_report(alloc, Report::of_act(undefined, code.as_str()), out)
}

/// Prints a report in the same form.
pub fn put_json_report(
    alloc: Global,
    report: Report<'_>,
    out: &mut String,
) -> Result<(), AllocError> {
    put_place(alloc, report.file, report.line, report.shown, out)?;
    out.push_str(",\"code\":")?;
    put_string(alloc, report.code, out)?;
    put_rest(alloc, report.text, report.shown, out)
}

/// Prints the members that describe a place.
fn put_place(
    alloc: Global,
    file: &str,
    line: u32,
    shown: &Shown,
    out: &mut String,
) -> Result<(), AllocError> {
    out.push_str("{\"file\":")?;
    put_string(alloc, file, out)?;
    out.push_str(format!(in alloc; ",\"line\":{line}")?.as_str())?;
    put_columns(alloc, shown, out)
}

/// Prints the members text, token, notes and fix, and the end of the line.
fn put_rest(alloc: Global, text: &str, shown: &Shown, out: &mut String) -> Result<(), AllocError> {
    out.push_str(",\"text\":")?;
    put_string(alloc, text, out)?;
    out.push_str(",\"token\":")?;
    let token = String::from_utf8_lossy(alloc, shown.token.as_slice())?;
    put_string(alloc, token.as_str(), out)?;
    out.push_str(",\"notes\":[")?;
    put_notes(alloc, shown.notes.as_slice(), out)?;
    out.push_str("]")?;
    if let Some(fix) = shown.fixes.first() {
        put_fix(alloc, fix, out)?;
    }
    out.push_str("}\n")
}

/// Prints the member fix: the lines and columns of the replaced text, and its replacement.
fn put_fix(alloc: Global, fix: &Fix, out: &mut String) -> Result<(), AllocError> {
    let (line, column) = (fix.start.line, fix.start.column);
    let (end_line, end) = (fix.end.line, fix.end.column);
    out.push_str(format!(in alloc;
        ",\"fix\":{{\"line\":{line},\"column\":{column},\"end_line\":{end_line},\"end\":{end},\"text\":"
    )?.as_str())?;
    put_string(alloc, fix.text.as_str(), out)?;
    out.push_str("}")
}

/// The text of a fault's code, and the text that the fault adds to it.
pub(crate) fn said(alloc: Global, finding: &Finding) -> Result<String, AllocError> {
    let mut text = String::from_str(alloc, message(finding.fault.code))?;
    text.push_str(finding.fault.text.as_str())?;
    Ok(text)
}

/// Prints the members column and end.
fn put_columns(alloc: Global, shown: &Shown, out: &mut String) -> Result<(), AllocError> {
    let column = column_of(shown);
    if column == 0 {
        return out.push_str(",\"column\":null,\"end\":null");
    }
    let end = column.saturating_add(shown.token.len());
    let members = format!(in alloc; ",\"column\":{column},\"end\":{end}")?;
    out.push_str(members.as_str())
}

fn put_notes(alloc: Global, notes: &[Note], out: &mut String) -> Result<(), AllocError> {
    let mut is_first = true;
    for note in notes {
        if !is_first {
            out.push_str(",")?;
        }
        is_first = false;
        put_note(alloc, note, out)?;
    }
    Ok(())
}

/// Prints a note: its topic, its text, and where it has one its place.
fn put_note(alloc: Global, note: &Note, out: &mut String) -> Result<(), AllocError> {
    out.push_str("{\"topic\":\"")?;
    out.push_str(match note.topic {
        Topic::Expected => "expected",
        Topic::Related => "related",
        Topic::Included => "included",
        Topic::Macro => "macro",
        Topic::Called => "called",
        Topic::Value => "value",
        Topic::Suggestion => "suggestion",
        Topic::Hint => "hint",
    })?;
    out.push_str("\",\"text\":")?;
    put_string(alloc, note.text.as_str(), out)?;
    if !note.file.is_empty() {
        let (line, column) = (note.line, note.column);
        out.push_str(",\"file\":")?;
        put_string(alloc, note.file.as_str(), out)?;
        out.push_str(format!(in alloc; ",\"line\":{line}")?.as_str())?;
        if column != 0 {
            out.push_str(format!(in alloc; ",\"column\":{column}")?.as_str())?;
        }
    }
    out.push_str("}")
}

/// Prints a string with its quotes: `"`, `\` and the characters below U+0020 are escaped (RFC 8259, section 7).
pub(crate) fn put_string(alloc: Global, text: &str, out: &mut String) -> Result<(), AllocError> {
    out.push('"')?;
    for letter in text.chars() {
        match letter {
            '"' => out.push_str("\\\"")?,
            '\\' => out.push_str("\\\\")?,
            '\0'..='\x1f' | '\x7f' => {
                let number = letter as u32;
                out.push_str(format!(in alloc; "\\u{number:04x}")?.as_str())?;
            }
            _ => out.push(letter)?,
        }
    }
    out.push('"')
}
