//! Diagnostics: the compiler's findings, with the places that the protocol has.

use lsp_program::{
    MAX_WORK, Origin, UnitFile, beginning, number_at, put_comma, put_span, put_text_member, text_at,
};
use lsp_text::{Encoding, Span};
use lsp_wire::{put_number, put_string};
use serde_json::Value;
use std::alloc::{AllocError, Global};

/// How severe a problem is (`DiagnosticSeverity`).
#[derive(Clone, Copy, Debug, PartialEq, Eq)]
pub enum Severity {
    Error = 1,
    Warning = 2,
    Information = 3,
}

/// A change of a text.
#[derive(Drop)]
pub struct Fix {
    pub span: Span,
    pub text: String,
}

/// A problem in a file.
#[derive(Drop)]
pub struct Problem {
    /// The URI of its file.
    pub uri: String,
    /// The path of the main file of the program that has it.
    pub root: String,
    pub span: Span,
    pub severity: Severity,
    pub code: String,
    pub text: String,
    /// The numbers that the analysis found possible there; empty where it reports none.
    pub interval: String,
    /// The change that mends it, where that is sure.
    pub fix: Option<Fix>,
}

impl Problem {
    /// The first line of its text.
    pub fn title(&self) -> &str {
        self.text.as_str().split('\n').next().unwrap_or_default()
    }
}

/// How many findings of one kind are shown of a program.
const MAX_PROBLEMS: usize = 500;

/// Reads findings, an object of JSON on each line. One about a file that no person wrote is placed at the beginning of the main file.
pub fn read_problems(
    alloc: Global,
    lines: &str,
    severity: Severity,
    files: &[UnitFile],
    encoding: Encoding,
) -> Result<Vec<Problem>, AllocError> {
    let mut problems = Vec::new(alloc);
    for line in lines.split('\n') {
        if !line.is_empty() && problems.len() < MAX_PROBLEMS {
            if let Some(problem) = read_problem(alloc, line, severity, files, encoding)? {
                problems.push(problem)?;
            }
        }
    }
    Ok(problems)
}

fn read_problem(
    alloc: Global,
    line: &str,
    severity: Severity,
    files: &[UnitFile],
    encoding: Encoding,
) -> Result<Option<Problem>, AllocError> {
    let value = match Value::from_str(alloc, line) {
        Ok(value) => value,
        Err(error) if error.is_memory() => return Err(AllocError),
        Err(_) => return Ok(None),
    };
    let code = text_at(&value, "/code").unwrap_or_default();
    if code == "verdict" {
        return Ok(None);
    }
    let name = text_at(&value, "/file").unwrap_or_default();
    let Some(main) = files.first() else {
        return Ok(None);
    };
    match file_named(files, name) {
        Some(file) => Ok(Some(Problem {
            uri: String::from_str(alloc, file.uri.as_str())?,
            root: String::from_str(alloc, main.path.as_str())?,
            span: place_in(file, &value, encoding),
            severity,
            code: String::from_str(alloc, code)?,
            text: whole_text(alloc, &value)?,
            interval: interval_of(alloc, &value)?,
            fix: fix_of(alloc, file, &value, encoding)?,
        })),
        None => {
            let said = whole_text(alloc, &value)?;
            let said = said.as_str();
            let text = format!(in alloc; "{name}: {said}")?;
            Ok(Some(at_beginning(alloc, main, severity, code, text)?))
        }
    }
}

/// A problem of a whole program, at the beginning of its main file.
fn at_beginning(
    alloc: Global,
    main: &UnitFile,
    severity: Severity,
    code: &str,
    text: String,
) -> Result<Problem, AllocError> {
    Ok(Problem {
        uri: String::from_str(alloc, main.uri.as_str())?,
        root: String::from_str(alloc, main.path.as_str())?,
        span: beginning(),
        severity,
        code: String::from_str(alloc, code)?,
        text,
        interval: String::new(alloc),
        fix: None,
    })
}

/// The problem of a program that is not given to the compiler, since its preprocessing is too much work.
pub fn over_budget(
    alloc: Global,
    files: &[UnitFile],
    work: u64,
) -> Result<Option<Problem>, AllocError> {
    let Some(main) = files.first() else {
        return Ok(None);
    };
    let text = format!(in alloc;
        "not looked at: macros and includes make about {work} tokens of it, and at most {MAX_WORK} are looked at"
    )?;
    Ok(Some(at_beginning(alloc, main, Severity::Warning, "budget", text)?))
}

/// The file that has this name and was written by a person.
fn file_named<'f>(files: &'f [UnitFile], name: &str) -> Option<&'f UnitFile> {
    files.iter().find(|file| file.name.as_str() == name && file.origin == Origin::Written)
}

/// The numbers that a finding reports.
fn interval_of(alloc: Global, value: &Value) -> Result<String, AllocError> {
    let mut text = String::new(alloc);
    let Some(notes) = value.pointer("/notes").and_then(Value::as_array) else {
        return Ok(text);
    };
    for note in notes {
        if text_at(note, "/topic") == Some("value") {
            text.push_str(text_at(note, "/text").unwrap_or_default())?;
        }
    }
    Ok(text)
}

/// The place of a finding: its token, or else its line.
fn place_in(file: &UnitFile, value: &Value, encoding: Encoding) -> Span {
    let text = file.text.as_slice();
    let line = number_at(value, "/line").unwrap_or(1);
    let (start, end) = line_bounds(text, line);
    let column = number_at(value, "/column");
    let behind = number_at(value, "/end");
    match (column, behind) {
        (Some(column), Some(behind)) => file.lines.span(
            text,
            at_column(start, column),
            at_column(start, behind).min(text.len()),
            encoding,
        ),
        _ => file
            .lines
            .span(text, past_blanks(text, start, end), end, encoding),
    }
}

/// The offset of a column, which is counted from 1.
fn at_column(start: usize, column: u32) -> usize {
    start.saturating_add((column as usize).saturating_sub(1))
}

/// Where a line begins and ends; the compiler ends lines with LF alone, and counts them from 1.
fn line_bounds(text: &[u8], line: u32) -> (usize, usize) {
    let mut start = 0;
    let mut number: u32 = 1;
    for (at, byte) in text.iter().enumerate() {
        if *byte == b'\n' {
            if number >= line {
                return (start, at);
            }
            number = number.saturating_add(1);
            start = at.saturating_add(1);
        }
    }
    (start, text.len())
}

/// The first byte of a line that is no blank.
fn past_blanks(text: &[u8], start: usize, end: usize) -> usize {
    let row = text.get(start..end).unwrap_or_default();
    match row.iter().position(|byte| *byte != b' ' && *byte != b'\t') {
        Some(count) => start.saturating_add(count),
        None => start,
    }
}

/// The text of a finding, with its notes on lines of their own.
fn whole_text(alloc: Global, value: &Value) -> Result<String, AllocError> {
    let mut text = String::from_str(alloc, text_at(value, "/text").unwrap_or_default())?;
    let Some(notes) = value.pointer("/notes").and_then(Value::as_array) else {
        return Ok(text);
    };
    for note in notes {
        let said = text_at(note, "/text").unwrap_or_default();
        if !said.is_empty() {
            text.push_str("\n")?;
            put_note_place(alloc, note, &mut text)?;
            text.push_str(said)?;
        }
    }
    Ok(text)
}

/// Appends the place to which a note refers.
fn put_note_place(alloc: Global, note: &Value, text: &mut String) -> Result<(), AllocError> {
    let file = text_at(note, "/file").unwrap_or_default();
    let line = number_at(note, "/line").unwrap_or(0);
    if file.is_empty() || line == 0 {
        return Ok(());
    }
    text.push_str(format!(in alloc; "{file}:{line}: ")?.as_str())
}

/// The change that mends a finding.
fn fix_of(
    alloc: Global,
    file: &UnitFile,
    value: &Value,
    encoding: Encoding,
) -> Result<Option<Fix>, AllocError> {
    let Some(fix) = value.pointer("/fix") else {
        return Ok(None);
    };
    let (Some(start), Some(end)) = (
        point(file, fix, "/line", "/column"),
        point(file, fix, "/end_line", "/end"),
    ) else {
        return Ok(None);
    };
    let text = text_at(fix, "/text").unwrap_or_default();
    Ok(Some(Fix {
        span: file.lines.span(file.text.as_slice(), start, end, encoding),
        text: String::from_str(alloc, text)?,
    }))
}

/// The offset of a line and a column.
fn point(file: &UnitFile, value: &Value, line: &str, column: &str) -> Option<usize> {
    let line = number_at(value, line)?;
    let column = number_at(value, column)?;
    let (start, _) = line_bounds(file.text.as_slice(), line);
    Some(at_column(start, column))
}

/// A `Diagnostic`.
pub fn put_problem(alloc: Global, problem: &Problem, out: &mut String) -> Result<(), AllocError> {
    out.push_str("{\"range\":")?;
    put_span(alloc, problem.span, out)?;
    out.push_str(",\"severity\":")?;
    put_number(alloc, i64::from(problem.severity as u8), out)?;
    put_text_member(alloc, "code", problem.code.as_str(), out)?;
    put_text_member(alloc, "source", "zkc", out)?;
    put_text_member(alloc, "message", problem.text.as_str(), out)?;
    out.push_str("}")
}

/// The parameters of `textDocument/publishDiagnostics` for a file.
pub fn published(alloc: Global, uri: &str, problems: &[Problem]) -> Result<String, AllocError> {
    let mut out = String::from_str(alloc, "{\"uri\":")?;
    put_string(alloc, uri, &mut out)?;
    out.push_str(",\"diagnostics\":[")?;
    let begin = out.len();
    for problem in problems {
        if problem.uri.as_str() == uri {
            put_comma(begin, &mut out)?;
            put_problem(alloc, problem, &mut out)?;
        }
    }
    out.push_str("]}")?;
    Ok(out)
}
