//! Warnings as a log of SARIF 2.1.0 (OASIS, sections 3.13 to 3.50).

use crate::files::Place;
use crate::json::put_string;
use crate::placing::Placed;
use crate::shown::Told;
use lint::Kind;
use std::alloc::{AllocError, Global};

/// Prints a log with a rule for each kind and a result for each warning.
pub(crate) fn put_sarif(
    alloc: Global,
    told: &Told<'_>,
    level: &str,
    version: &str,
    out: &mut String,
) -> Result<(), AllocError> {
    out.push_str(
        "{\"$schema\":\"https://json.schemastore.org/sarif-2.1.0.json\",\"version\":\"2.1.0\",\"runs\":[",
    )?;
    out.push_str("{\"tool\":{\"driver\":{\"name\":\"zikorape\",\"version\":")?;
    put_string(alloc, version, out)?;
    out.push_str(",\"rules\":[")?;
    put_rules(alloc, out)?;
    out.push_str("]}},\"columnKind\":\"unicodeCodePoints\",\"results\":[")?;
    put_results(alloc, told, level, out)?;
    out.push_str("]}]}\n")
}

fn put_rules(alloc: Global, out: &mut String) -> Result<(), AllocError> {
    for (number, kind) in Kind::all().iter().enumerate() {
        out.push_str(if number == 0 { "" } else { "," })?;
        put_rule(alloc, *kind, out)?;
    }
    Ok(())
}

fn put_rule(alloc: Global, kind: Kind, out: &mut String) -> Result<(), AllocError> {
    out.push_str("{\"id\":")?;
    put_string(alloc, kind.name(), out)?;
    out.push_str(",\"shortDescription\":{\"text\":")?;
    put_string(alloc, kind.text(), out)?;
    out.push_str("},\"help\":{\"text\":")?;
    put_string(alloc, kind.help(), out)?;
    out.push_str("}}")
}

fn put_results(
    alloc: Global,
    told: &Told<'_>,
    level: &str,
    out: &mut String,
) -> Result<(), AllocError> {
    for (number, placed) in told.list.iter().enumerate() {
        out.push_str(if number == 0 { "" } else { "," })?;
        put_result(alloc, told, placed, level, out)?;
    }
    Ok(())
}

fn put_result(
    alloc: Global,
    told: &Told<'_>,
    placed: &Placed,
    level: &str,
    out: &mut String,
) -> Result<(), AllocError> {
    out.push_str("{\"ruleId\":")?;
    put_string(alloc, placed.kind.name(), out)?;
    out.push_str(",\"level\":")?;
    put_string(alloc, level, out)?;
    out.push_str(",\"message\":{\"text\":")?;
    put_string(alloc, told.message(alloc, placed)?.as_str(), out)?;
    out.push_str("},\"locations\":[{")?;
    put_location(alloc, told, told.file_name(placed), placed.place, out)?;
    out.push_str("}]")?;
    if let Some(other) = told.other(placed) {
        out.push_str(",\"relatedLocations\":[{")?;
        put_location(alloc, told, told.name_at(other), other, out)?;
        out.push_str(",\"message\":{\"text\":\"the other declaration stands here\"}}]")?;
    }
    out.push_str("}")
}

/// Prints the member `physicalLocation`. A region has lines of 1 or more (3.30.5).
fn put_location(
    alloc: Global,
    told: &Told<'_>,
    file: &str,
    place: Place,
    out: &mut String,
) -> Result<(), AllocError> {
    out.push_str("\"physicalLocation\":{\"artifactLocation\":{\"uri\":\"")?;
    put_uri(file, out)?;
    out.push_str("\"}")?;
    let line = place.line;
    if line == 0 {
        return out.push_str("}");
    }
    out.push_str(format!(in alloc; ",\"region\":{{\"startLine\":{line}")?.as_str())?;
    put_columns(alloc, told, place, out)?;
    out.push_str("}}")
}

/// Prints the columns of a token in code points, counted from 1 (3.30.6); nothing where they are not known.
fn put_columns(
    alloc: Global,
    told: &Told<'_>,
    place: Place,
    out: &mut String,
) -> Result<(), AllocError> {
    let column = told.column(place);
    if column == 0 {
        return Ok(());
    }
    let source = told.source(place);
    let before = source.get(..column.saturating_sub(1)).unwrap_or_default();
    let start = points(before).saturating_add(1);
    let end = start.saturating_add(points(told.token(place)));
    out.push_str(format!(in alloc; ",\"startColumn\":{start},\"endColumn\":{end}")?.as_str())
}

/// How many code points begin in these bytes of UTF-8.
fn points(bytes: &[u8]) -> usize {
    let mut count: usize = 0;
    for byte in bytes {
        if *byte & 0xc0 != 0x80 {
            count = count.saturating_add(1);
        }
    }
    count
}

/// Prints a name as a relative reference: all but letters, digits and `-._~/` is percent-encoded (RFC 3986, 2.1).
fn put_uri(name: &str, out: &mut String) -> Result<(), AllocError> {
    for byte in name.as_bytes() {
        match *byte {
            b'A'..=b'Z' | b'a'..=b'z' | b'0'..=b'9' | b'-' | b'.' | b'_' | b'~' | b'/' => {
                out.push(*byte as char)?;
            }
            other => {
                out.push('%')?;
                out.push(hex(other / 16))?;
                out.push(hex(other % 16))?;
            }
        }
    }
    Ok(())
}

/// The hexadecimal digit of a number below 16.
fn hex(digit: u8) -> char {
    match "0123456789ABCDEF".as_bytes().get(digit as usize) {
        Some(byte) => *byte as char,
        None => '0',
    }
}
