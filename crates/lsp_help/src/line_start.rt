//! The beginning of a line up to the cursor, where that decides the items offered: a directive, or a header's name.

/// The text of a line before the cursor.
#[derive(Clone, Copy, Debug, PartialEq, Eq)]
pub(crate) enum LineStart<'t> {
    /// `#` and the beginning of a directive's name.
    Directive,
    /// `#include "` and the beginning of a name.
    Quoted(&'t str),
    /// `#include <` and the beginning of a name.
    Bracketed(&'t str),
    /// `#ifdef`, `#ifndef` or `#undef`, and the beginning of a macro's name.
    MacroName,
    /// Anything else.
    Code,
}

/// Reads the bytes of a line up to the cursor.
pub(crate) fn line_start(before: &[u8]) -> LineStart<'_> {
    let Ok(text) = str::from_utf8(before) else {
        return LineStart::Code;
    };
    let Some(behind) = behind_hash(text.trim_start()) else {
        return LineStart::Code;
    };
    let behind = behind.trim_start();
    let name = word_of(behind);
    let rest = behind.get(name.len()..).unwrap_or_default();
    if rest.is_empty() {
        return LineStart::Directive;
    }
    match name {
        "include" => header_start(rest.trim_start()),
        "ifdef" | "ifndef" | "undef" => LineStart::MacroName,
        _ => LineStart::Code,
    }
}

/// The text after a `#`, however it is spelled (ISO/IEC 9899:2011 5.2.1.1, 6.4.6).
fn behind_hash(text: &str) -> Option<&str> {
    for hash in ["#", "%:", "??="] {
        if let Some(rest) = text.strip_prefix(hash) {
            return Some(rest);
        }
    }
    None
}

/// The letters with which a text begins.
fn word_of(text: &str) -> &str {
    match text.find(|c: char| !c.is_ascii_alphabetic()) {
        Some(end) => text.get(..end).unwrap_or_default(),
        None => text,
    }
}

/// A header's name that is not closed yet.
fn header_start(text: &str) -> LineStart<'_> {
    match (text.strip_prefix("\""), text.strip_prefix("<")) {
        (Some(name), None) if !name.contains('"') => LineStart::Quoted(name),
        (None, Some(name)) if !name.contains('>') => LineStart::Bracketed(name),
        (Some(_), None) => LineStart::Code,
        (None, Some(_)) => LineStart::Code,
        (Some(_), Some(_)) => LineStart::Code,
        (None, None) => LineStart::Code,
    }
}
