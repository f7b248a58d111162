//! Alarms with their places, in the order of the sources, each place once.

use lint_report::Files;
use srcset::Names;
use std::alloc::{AllocError, Global};
use verify_expressions::Alarm;

/// An alarm with its place.
#[derive(Clone, Copy)]
pub(crate) struct Placed {
    /// The line, counted from 1.
    pub(crate) line: u32,
    /// The number of bytes of the file before its token, and before the token's end; both 0 where the token is not known.
    pub(crate) start: usize,
    pub(crate) end: usize,
    pub(crate) alarm: Alarm,
}

/// Alarms by their lines.
pub(crate) fn by_lines(alloc: Global, alarms: &[Alarm]) -> Result<Vec<Placed>, AllocError> {
    let mut all = Vec::new(alloc);
    for alarm in alarms {
        all.push(Placed {
            line: alarm.at.line,
            start: 0,
            end: 0,
            alarm: *alarm,
        })?;
    }
    all.sort_unstable_by_key(order);
    each_once(alloc, all.as_slice())
}

/// Alarms of the files as they are laid out, by their tokens.
pub(crate) fn by_tokens(
    alloc: Global,
    files: &Files<'_>,
    names: &Names,
    alarms: &[Alarm],
) -> Result<Vec<Placed>, AllocError> {
    let mut all = Vec::new(alloc);
    for alarm in alarms {
        let place = files.place(names.file_name(alarm.at.file), alarm.at.line);
        all.push(Placed {
            line: place.line,
            start: place.start,
            end: place.end,
            alarm: *alarm,
        })?;
    }
    all.sort_unstable_by_key(order);
    each_once(alloc, all.as_slice())
}

/// By file, line and token.
fn order(placed: &Placed) -> (usize, u32, usize) {
    (placed.alarm.at.file, placed.line, placed.start)
}

/// The same, of each place the first.
fn each_once(alloc: Global, sorted: &[Placed]) -> Result<Vec<Placed>, AllocError> {
    let mut kept = Vec::new(alloc);
    let mut last = None;
    for placed in sorted {
        let key = order(placed);
        if last != Some(key) {
            kept.push(*placed)?;
        }
        last = Some(key);
    }
    Ok(kept)
}

/// Whether both lists, which are in order, have the same lines; each has names of its own.
pub(crate) fn have_same_lines(
    names: &Names,
    plain: &[Placed],
    laid_names: &Names,
    exact: &[Placed],
) -> bool {
    let mut next: usize = 0;
    for one in exact {
        let file = laid_names.file_name(one.alarm.at.file);
        if !is_on_line(names, plain, next.checked_sub(1), file, one.line) {
            if !is_on_line(names, plain, Some(next), file, one.line) {
                return false;
            }
            next = next.saturating_add(1);
        }
    }
    next == plain.len()
}

/// Whether the alarm with this number is on a line of a file.
fn is_on_line(
    names: &Names,
    list: &[Placed],
    number: Option<usize>,
    file: &str,
    line: u32,
) -> bool {
    let Some(number) = number else {
        return false;
    };
    match list.get(number) {
        Some(other) => other.line == line && names.file_name(other.alarm.at.file) == file,
        None => false,
    }
}
