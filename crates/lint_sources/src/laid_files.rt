//! A source file with each token on a line of its own, so that a line identifies the token.

use explain_places::{Spot, Tokens};
use std::alloc::{AllocError, Global};

/// A file laid out anew.
#[derive(Drop)]
pub struct LaidFile {
    /// The same tokens, each of the text first on its line; directives stay as they are.
    pub text: Vec<u8>,
    // For each token of the text, its line in `text`; they rise.
    lines: Vec<u32>,
    // The number of each among the file's tokens.
    numbers: Vec<usize>,
}

/// A file with a newline before each token of its text that is not the first of its line. Nothing but lines changes by that.
pub fn laid_file(alloc: Global, bytes: &[u8], tokens: &Tokens<'_>) -> Result<LaidFile, AllocError> {
    let mut laid = LaidFile {
        text: Vec::new(alloc),
        lines: Vec::new(alloc),
        numbers: Vec::new(alloc),
    };
    let mut done = 0;
    let mut added: u32 = 0;
    for (number, spot) in tokens.spots.iter().enumerate() {
        if !spot.in_directive {
            if !spot.is_first {
                laid.text
                    .extend_from_slice(bytes.get(done..spot.start).unwrap_or_default())?;
                laid.text.push(b'\n')?;
                done = spot.start;
                added = added.saturating_add(1);
            }
            laid.lines.push(spot.line.saturating_add(added))?;
            laid.numbers.push(number)?;
        }
    }
    laid.text
        .extend_from_slice(bytes.get(done..).unwrap_or_default())?;
    Ok(laid)
}

impl LaidFile {
    /// The number of the token on a line of the text as it is laid out.
    pub fn token_on(&self, line: u32) -> Option<usize> {
        let mut low = 0;
        let mut high = self.lines.len();
        for _ in 0..64 {
            if low >= high {
                break;
            }
            let middle = low + (high - low) / 2;
            let found = self.lines.get(middle).copied()?;
            if found == line {
                return self.numbers.get(middle).copied();
            }
            if found < line {
                low = middle.saturating_add(1);
            } else {
                high = middle;
            }
        }
        None
    }
}

/// Whether the meaning of a file, and the places that it gives itself, depend on its lines: it names `__LINE__`, or has a directive `#line`.
pub fn keeps_lines(tokens: &Tokens<'_>) -> bool {
    for (number, spot) in tokens.spots.iter().enumerate() {
        let spelling = tokens.spelling(number);
        if matches!(spelling, b"__LINE__") || is_line_directive(spot, tokens, number) {
            return true;
        }
    }
    false
}

/// Whether a `#line` begins at this token.
fn is_line_directive(spot: &Spot, tokens: &Tokens<'_>, number: usize) -> bool {
    let next = tokens.spelling(number.saturating_add(1));
    spot.is_first && spot.in_directive && matches!(next, b"line")
}
