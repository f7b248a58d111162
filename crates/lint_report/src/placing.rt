//! Warnings with the places of their tokens, in order, each once.

use crate::files::{File, Files, Place, place_at};
use lint::{Detail, Kind, Warning, selects};
use lint_sources::{falls_by_comment, label_on, macro_faults};
use srcset::{Names, Pos};
use std::alloc::{AllocError, Global};

/// A warning with the place of its token.
#[derive(Clone, Copy, Debug, PartialEq, Eq)]
pub(crate) struct Placed {
    pub(crate) kind: Kind,
    pub(crate) place: Place,
    /// The name of the file as `#line` and includes have it, where that is no file of the set.
    pub(crate) presumed: Option<usize>,
    pub(crate) name: Option<usize>,
    pub(crate) detail: Detail,
}

/// The warnings that the words select, in the order of the files and of their lines, each once.
pub(crate) fn in_order(
    alloc: Global,
    files: &Files<'_>,
    names: &Names,
    warnings: &[Warning],
    words: &str,
    made: &str,
) -> Result<Vec<Placed>, AllocError> {
    let mut all = Vec::new(alloc);
    for warning in warnings {
        let there = at_place(files, names, *warning);
        if selects(words, warning.kind) && is_told(files, names, *warning, there.place) {
            all.extend_from_slice(&[there])?;
        }
    }
    if selects(words, Kind::MacroParentheses) {
        put_macros(alloc, files, made, &mut all)?;
    }
    all.sort_unstable_by_key(order);
    each_once(alloc, all.as_slice())
}

/// By file, line, column and kind.
fn order(placed: &Placed) -> (usize, u32, usize, usize) {
    let place = placed.place;
    (place.file, place.line, place.start, rank(placed.kind))
}

/// The number of a kind.
fn rank(kind: Kind) -> usize {
    match Kind::all().iter().position(|other| *other == kind) {
        Some(number) => number,
        None => 0,
    }
}

/// The same without duplicates, as from a file that is included twice.
fn each_once(alloc: Global, sorted: &[Placed]) -> Result<Vec<Placed>, AllocError> {
    let mut kept = Vec::new(alloc);
    let mut last = None;
    for placed in sorted {
        if last != Some(*placed) {
            kept.extend_from_slice(&[*placed])?;
        }
        last = Some(*placed);
    }
    Ok(kept)
}

fn at_place(files: &Files<'_>, names: &Names, warning: Warning) -> Placed {
    let place = place_of(files, names, warning.pos);
    let presumed = if place.file < files.list.len() {
        None
    } else {
        Some(warning.pos.file)
    };
    Placed {
        kind: warning.kind,
        place,
        presumed,
        name: warning.name,
        detail: warning.detail,
    }
}

/// Where a place of the sources is.
pub(crate) fn place_of(files: &Files<'_>, names: &Names, pos: Pos) -> Place {
    files.place(names.file_name(pos.file), pos.line)
}

/// Whether a warning is reported: not one on a declaration that a header has for others, and not one on a label with a comment that the statements before fall
/// through to it.
fn is_told(files: &Files<'_>, names: &Names, warning: Warning, place: Place) -> bool {
    match warning.kind {
        Kind::UnusedFunction | Kind::UnusedVariable => {
            !names.file_name(warning.pos.file).ends_with(".h")
        }
        Kind::ImplicitFallthrough => match files.list.get(place.file) {
            Some(file) => !has_comment(file, files.is_laid, warning.pos.line),
            None => false,
        },
        _ => true,
    }
}

/// Whether a comment precedes the label on a line.
fn has_comment(file: &File<'_>, is_laid: bool, line: u32) -> bool {
    let Some(tokens) = &file.tokens else {
        return false;
    };
    let number = if is_laid {
        file.token_on(line)
    } else {
        label_on(tokens, line)
    };
    match number {
        Some(number) => falls_by_comment(file.bytes, tokens, number),
        None => false,
    }
}

/// Prints the faults of macros of each file that a person wrote.
fn put_macros(
    alloc: Global,
    files: &Files<'_>,
    made: &str,
    all: &mut Vec<Placed>,
) -> Result<(), AllocError> {
    for (number, file) in files.list.iter().enumerate() {
        if file.name != made {
            put_macros_of(alloc, number, file, all)?;
        }
    }
    Ok(())
}

fn put_macros_of(
    alloc: Global,
    number: usize,
    file: &File<'_>,
    all: &mut Vec<Placed>,
) -> Result<(), AllocError> {
    let Some(tokens) = &file.tokens else {
        return Ok(());
    };
    for fault in macro_faults(alloc, tokens)? {
        let placed = Placed {
            kind: Kind::MacroParentheses,
            place: place_at(number, 0, tokens.spot(fault.token)),
            presumed: None,
            name: None,
            detail: Detail::Nothing,
        };
        all.extend_from_slice(&[placed])?;
    }
    Ok(())
}
