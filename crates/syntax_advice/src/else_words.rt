//! `else` where no `if` waits for it (ISO/IEC 9899:2011 6.8.4.1).

use crate::brackets::{close_behind, is_closing, is_opening};
use source_words::Words;

/// Why an `else` has no `if`.
#[derive(Clone, Copy, Debug, PartialEq, Eq)]
pub enum LoneElse {
    /// No `if` precedes it in its block.
    NoIf,
    /// The token with this number is a `;` directly after the head of the `if`, whose body it is.
    EmptyBody(usize),
    /// The `if` with this number ended with the first statement after its head.
    Ended(usize),
}

/// Why the `else` with this number has no `if`.
pub fn lone_else(words: &Words<'_>, number: usize) -> LoneElse {
    let Some(start) = last_if(words, number) else {
        return LoneElse::NoIf;
    };
    match close_behind(words, start.saturating_add(1)) {
        Some(close) => {
            let behind = close.saturating_add(1);
            if matches!(words.at(behind), b";") {
                LoneElse::EmptyBody(behind)
            } else {
                LoneElse::Ended(start)
            }
        }
        None => LoneElse::NoIf,
    }
}

/// The number of the nearest `if` before this token in its block that has no `else` yet.
fn last_if(words: &Words<'_>, number: usize) -> Option<usize> {
    let mut depth: usize = 0;
    for place in (0..number).rev() {
        let token = words.at(place);
        if is_closing(token) {
            depth = depth.saturating_add(1);
        } else if is_opening(token) {
            depth = depth.checked_sub(1)?;
        } else if depth == 0 && matches!(token, b"else") {
            return None;
        } else if depth == 0 && matches!(token, b"if") {
            return Some(place);
        }
    }
    None
}
