//! The tokens of a source file with their places.

use crate::walking::{past_gap, past_spelling};
use phases::{Lines, PpToken, try_scan};
use srcset::{MAX_FILE_BYTES, Refusal};
use std::alloc::{AllocError, Global};

/// The place of a token in the bytes of its file.
#[derive(Clone, Copy)]
pub struct Spot {
    /// How many bytes precede it.
    pub start: usize,
    /// How many bytes there are up to its end.
    pub end: usize,
    /// Its physical line, counted from 1.
    pub line: u32,
    /// Whether it is the first of its line.
    pub is_first: bool,
    /// Whether it is in a directive.
    pub in_directive: bool,
}

/// The tokens of a source file (ISO/IEC 9899:2011 5.1.1.2, phase 3), each with its place.
#[derive(Drop)]
pub struct Tokens<'a> {
    lines: Lines<'a>,
    /// A place for each token, in their order.
    pub spots: Vec<Spot>,
}

impl<'a> Tokens<'a> {
    /// The tokens of a file. `None` where it has none, since it breaks a rule of phases 1 to 3, or where a token was not
    /// found again in the bytes.
    pub fn of(alloc: Global, bytes: &'a [u8]) -> Result<Option<Tokens<'a>>, AllocError> {
        if bytes.len() > MAX_FILE_BYTES {
            return Ok(None);
        }
        let lines = match try_scan(alloc, bytes, 0) {
            Ok(lines) => lines,
            Err(Refusal::Memory) => return Err(AllocError),
            Err(_) => return Ok(None),
        };
        match spots(alloc, bytes, &lines)? {
            Some(spots) => Ok(Some(Tokens { lines, spots })),
            None => Ok(None),
        }
    }

    /// The tokens.
    pub fn all(&self) -> &[PpToken<'a>] {
        self.lines.tokens()
    }

    /// The spelling of the token with this number; empty where there is none.
    pub fn spelling(&self, number: usize) -> &[u8] {
        match self.lines.tokens().get(number) {
            Some(token) => token.spelling(),
            None => &[],
        }
    }

    /// The place of the token with this number.
    pub fn spot(&self, number: usize) -> Option<Spot> {
        self.spots.get(number).copied()
    }
}

/// The places of the tokens of all lines.
fn spots(alloc: Global, bytes: &[u8], lines: &Lines<'_>) -> Result<Option<Vec<Spot>>, AllocError> {
    let mut spots = Vec::new(alloc);
    let mut rest = bytes;
    for number in 0..lines.len() {
        let Some(line) = lines.get(number) else {
            break;
        };
        match put_line(&mut spots, bytes, rest, line)? {
            Some(after) => rest = after,
            None => return Ok(None),
        }
    }
    Ok(Some(spots))
}

/// Adds the places of the tokens of a line; returns the bytes after them.
fn put_line<'b>(
    spots: &mut Vec<Spot>,
    bytes: &[u8],
    rest: &'b [u8],
    line: &[PpToken<'_>],
) -> Result<Option<&'b [u8]>, AllocError> {
    let in_directive = is_directive(line);
    let mut rest = rest;
    let mut is_first = true;
    for token in line {
        let start = past_gap(rest);
        let Some(after) = past_spelling(start, token.spelling()) else {
            return Ok(None);
        };
        spots.push(Spot {
            start: bytes.len().saturating_sub(start.len()),
            end: bytes.len().saturating_sub(after.len()),
            line: token.pos().line,
            is_first,
            in_directive,
        })?;
        rest = after;
        is_first = false;
    }
    Ok(Some(rest))
}

/// Whether a line of tokens is a directive (ISO/IEC 9899:2011 6.10).
fn is_directive(line: &[PpToken<'_>]) -> bool {
    match line.first() {
        Some(token) => is_hash(token.spelling()),
        None => false,
    }
}

fn is_hash(spelling: &[u8]) -> bool {
    matches!(spelling, b"#" | b"%:")
}
