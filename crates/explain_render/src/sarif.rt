//! Explained faults as a log of SARIF 2.1.0 (OASIS, sections 3.13 to 3.57).

use crate::json_lines::{put_string, said};
use crate::report::Report;
use crate::text::points;
use explain_findings::{Finding, Fix, Note, Shown, Undefined, act_help, act_title};
use srcset::message;
use std::alloc::{AllocError, Global};

/// Prints the part before the results: the program with its version and its rules, one for each of these codes of faults and each of these numbers of undefined
/// behaviours.
pub fn put_sarif_start(
    alloc: Global,
    version: &str,
    codes: &[u16],
    acts: &[u32],
    out: &mut String,
) -> Result<(), AllocError> {
    put_sarif_tool(alloc, version, out)?;
    put_code_rules(alloc, codes, out)?;
    put_act_rules(alloc, acts, codes.is_empty(), out)?;
    put_sarif_results(out)
}

/// Prints the part before the rules: the program with its version.
pub fn put_sarif_tool(alloc: Global, version: &str, out: &mut String) -> Result<(), AllocError> {
    out.push_str(
        "{\"$schema\":\"https://json.schemastore.org/sarif-2.1.0.json\",\"version\":\"2.1.0\",\"runs\":[",
    )?;
    out.push_str("{\"tool\":{\"driver\":{\"name\":\"zikorape\",\"version\":")?;
    put_string(alloc, plain_version(version), out)?;
    out.push_str(",\"rules\":[")
}

/// Prints the part between the rules and the results.
pub fn put_sarif_results(out: &mut String) -> Result<(), AllocError> {
    out.push_str("]}},\"columnKind\":\"unicodeCodePoints\",\"results\":[")
}

/// The version alone, without the part from a comma on.
fn plain_version(version: &str) -> &str {
    match version.split_once(',') {
        Some((plain, _)) => plain,
        None => version,
    }
}

/// Prints a rule for each of these codes (3.49).
fn put_code_rules(alloc: Global, codes: &[u16], out: &mut String) -> Result<(), AllocError> {
    let mut is_first = true;
    for code in codes {
        let number = *code;
        put_comma(is_first, out)?;
        is_first = false;
        put_sarif_rule(
            alloc,
            format!(in alloc; "{number}")?.as_str(),
            message(number),
            "docs/DIAGNOSTICS.md has a source with this fault",
            out,
        )?;
    }
    Ok(())
}

/// Prints the rules of these undefined behaviours, where no other rule precedes them.
pub fn put_sarif_act_rules(
    alloc: Global,
    acts: &[u32],
    out: &mut String,
) -> Result<(), AllocError> {
    put_act_rules(alloc, acts, true, out)
}

/// Prints a rule for each of these undefined behaviours.
fn put_act_rules(
    alloc: Global,
    acts: &[u32],
    is_first: bool,
    out: &mut String,
) -> Result<(), AllocError> {
    let mut is_first = is_first;
    for act in acts {
        let number = *act;
        put_comma(is_first, out)?;
        is_first = false;
        let id = format!(in alloc; "U{number}")?;
        put_sarif_rule(alloc, id.as_str(), act_title(number), act_help(number), out)?;
    }
    Ok(())
}

fn put_comma(is_first: bool, out: &mut String) -> Result<(), AllocError> {
    if is_first {
        return Ok(());
    }
    out.push_str(",")
}

/// Prints a rule (3.49).
pub fn put_sarif_rule(
    alloc: Global,
    id: &str,
    title: &str,
    help: &str,
    out: &mut String,
) -> Result<(), AllocError> {
    out.push_str("{\"id\":")?;
    put_string(alloc, id, out)?;
    out.push_str(",\"name\":\"")?;
    put_name(title, out)?;
    out.push_str("\",\"shortDescription\":{\"text\":")?;
    put_string(alloc, title, out)?;
    out.push_str("},\"help\":{\"text\":")?;
    put_string(alloc, help, out)?;
    out.push_str("}}")
}

/// Prints the words of a text as one name, each with a capital letter.
fn put_name(title: &str, out: &mut String) -> Result<(), AllocError> {
    let mut begins = true;
    for letter in title.chars() {
        if !letter.is_ascii_alphanumeric() {
            begins = true;
        } else if begins {
            out.push(letter.to_ascii_uppercase())?;
            begins = false;
        } else {
            out.push(letter)?;
        }
    }
    Ok(())
}

/// Prints a fault as a result; a comma precedes each but the first.
pub fn put_sarif_result(
    alloc: Global,
    finding: &Finding,
    is_first: bool,
    out: &mut String,
) -> Result<(), AllocError> {
    let fault = &finding.fault;
    let number = fault.code;
    let code = format!(in alloc; "{number}")?;
    let text = said(alloc, finding)?;
    let report = Report {
        code: code.as_str(),
        text: text.as_str(),
        level: "error",
        file: fault.file.as_str(),
        line: fault.line,
        shown: &finding.shown,
    };
    put_sarif_report(alloc, report, is_first, out)
}

/// Prints undefined behaviour as the only result.
pub fn put_sarif_undefined(
    alloc: Global,
    undefined: &Undefined,
    out: &mut String,
) -> Result<(), AllocError> {
    let act = undefined.act;
    let code = format!(in alloc; "U{act}")?;
    put_sarif_report(alloc, Report::of_act(undefined, code.as_str()), true, out)
}

/// Prints a report as a result (3.27); a comma precedes each but the first.
pub fn put_sarif_report(
    alloc: Global,
    report: Report<'_>,
    is_first: bool,
    out: &mut String,
) -> Result<(), AllocError> {
    let shown = report.shown;
    put_comma(is_first, out)?;
    out.push_str("{\"ruleId\":")?;
    put_string(alloc, report.code, out)?;
    out.push_str(",\"level\":\"")?;
    out.push_str(report.level)?;
    out.push_str("\",\"message\":{\"text\":")?;
    put_string(alloc, whole_text(alloc, report.text, shown)?.as_str(), out)?;
    out.push_str("}")?;
    if !report.file.is_empty() {
        out.push_str(",\"locations\":[")?;
        put_location(alloc, report.file, report.line, shown, out)?;
        out.push_str("]")?;
    }
    put_related(alloc, shown.notes.as_slice(), out)?;
    if let Some(fix) = shown.fixes.first() {
        put_fix(alloc, report.file, fix, out)?;
    }
    out.push_str("}")
}

/// Prints the part after the results.
pub fn put_sarif_end(out: &mut String) -> Result<(), AllocError> {
    out.push_str("]}]}\n")
}

/// A title, the token, and the notes that have no place.
fn whole_text(alloc: Global, title: &str, shown: &Shown) -> Result<String, AllocError> {
    let mut text = String::from_str(alloc, title)?;
    if !shown.token.is_empty() {
        let token = String::from_utf8_lossy(alloc, shown.token.as_slice())?;
        text.push_str(" '")?;
        text.push_str(token.as_str())?;
        text.push_str("'")?;
    }
    for note in &shown.notes {
        if note.file.is_empty() {
            text.push_str("; ")?;
            text.push_str(note.text.as_str())?;
        }
    }
    Ok(text)
}

/// Prints a place. A region has lines of 1 or more (3.30.5), so that a fault of the whole file has none.
fn put_location(
    alloc: Global,
    file: &str,
    line: u32,
    shown: &Shown,
    out: &mut String,
) -> Result<(), AllocError> {
    let column = point_column(shown);
    put_file(file, out)?;
    put_line(alloc, line, column, out)?;
    if line != 0 {
        if column != 0 {
            let end = column.saturating_add(points(shown.token.as_slice()));
            out.push_str(format!(in alloc; ",\"endColumn\":{end}")?.as_str())?;
        }
        out.push_str("}")?;
    }
    out.push_str("}}")
}

/// The column of a token in code points, counted from 1 (3.30.6, `columnKind` above); 0 where it is not known.
fn point_column(shown: &Shown) -> usize {
    let Some(place) = shown.place else {
        return 0;
    };
    let before = place.column.saturating_sub(1);
    match shown.source.as_slice().get(0..before) {
        Some(bytes) => points(bytes).saturating_add(1),
        None => place.column,
    }
}

/// Prints the beginning of a location, up to the URI of its file.
fn put_file(name: &str, out: &mut String) -> Result<(), AllocError> {
    out.push_str("{\"physicalLocation\":")?;
    put_artifact(name, out)
}

/// Prints the beginning of an object that names a file first.
fn put_artifact(name: &str, out: &mut String) -> Result<(), AllocError> {
    out.push_str("{\"artifactLocation\":{\"uri\":\"")?;
    put_uri(name, out)?;
    out.push_str("\"}")
}

/// Prints the beginning of a region, which is not closed yet; nothing where the line is 0.
fn put_line(alloc: Global, line: u32, column: usize, out: &mut String) -> Result<(), AllocError> {
    if line == 0 {
        return Ok(());
    }
    out.push_str(format!(in alloc; ",\"region\":{{\"startLine\":{line}")?.as_str())?;
    if column != 0 {
        out.push_str(format!(in alloc; ",\"startColumn\":{column}")?.as_str())?;
    }
    Ok(())
}

/// Prints the notes that have a place, by its line: the bytes before a note's column are not available.
fn put_related(alloc: Global, notes: &[Note], out: &mut String) -> Result<(), AllocError> {
    let mut is_first = true;
    for note in notes {
        if !note.file.is_empty() {
            out.push_str(if is_first {
                ",\"relatedLocations\":["
            } else {
                ","
            })?;
            is_first = false;
            put_file(note.file.as_str(), out)?;
            put_line(alloc, note.line, 0, out)?;
            if note.line != 0 {
                out.push_str("}")?;
            }
            out.push_str("},\"message\":{\"text\":")?;
            put_string(alloc, note.text.as_str(), out)?;
            out.push_str("}}")?;
        }
    }
    if is_first {
        return Ok(());
    }
    out.push_str("]")
}

/// Prints a change of the file that mends the fault (3.55 to 3.57).
fn put_fix(alloc: Global, file: &str, fix: &Fix, out: &mut String) -> Result<(), AllocError> {
    let (line, column) = (fix.start.line, fix.start.points);
    let (end_line, end) = (fix.end.line, fix.end.points);
    out.push_str(",\"fixes\":[{\"artifactChanges\":[")?;
    put_artifact(file, out)?;
    out.push_str(format!(in alloc;
        ",\"replacements\":[{{\"deletedRegion\":{{\"startLine\":{line},\"startColumn\":{column},\"endLine\":{end_line},\"endColumn\":{end}}}"
    )?.as_str())?;
    out.push_str(",\"insertedContent\":{\"text\":")?;
    put_string(alloc, fix.text.as_str(), out)?;
    out.push_str("}}]}]}]")
}

/// Prints a name as a relative reference: all but letters, digits and `-._~/` is percent-encoded (RFC 3986, 2.1).
fn put_uri(name: &str, out: &mut String) -> Result<(), AllocError> {
    for byte in name.as_bytes() {
        match *byte {
            b'A'..=b'Z' | b'a'..=b'z' | b'0'..=b'9' | b'-' | b'.' | b'_' | b'~' | b'/' => {
                out.push(*byte as char)?;
            }
            other => {
                out.push('%')?;
                out.push(hex(other / 16))?;
                out.push(hex(other % 16))?;
            }
        }
    }
    Ok(())
}

/// The hexadecimal digit of a number below 16.
fn hex(digit: u8) -> char {
    match "0123456789ABCDEF".as_bytes().get(digit as usize) {
        Some(byte) => *byte as char,
        None => '0',
    }
}
