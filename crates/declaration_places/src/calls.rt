//! Calls, and the parameters of the called functions.

use crate::forms::{close_behind, separator_from};
use source_words::{Span, Words};

/// A call of a function.
#[derive(Clone, Copy, Debug, PartialEq, Eq)]
pub struct Call {
    /// The number of the function's name.
    pub name: usize,
    /// The number of the `(`.
    pub open: usize,
    /// How many arguments it has.
    pub count: usize,
}

/// The call of the function whose name has this number.
pub fn call_at(words: &Words<'_>, name: usize) -> Option<Call> {
    let open = name.saturating_add(1);
    if !matches!(words.at(open), b"(") {
        return None;
    }
    let close = close_behind(words, open)?;
    let count = if close == open.saturating_add(1) {
        0
    } else {
        parts(words, open, close)
    };
    Some(Call { name, open, count })
}

/// How many parts the commas between these parentheses separate.
fn parts(words: &Words<'_>, open: usize, close: usize) -> usize {
    let mut count: usize = 0;
    let mut first = open.saturating_add(1);
    for _ in open..close {
        if first > close {
            break;
        }
        count = count.saturating_add(1);
        first = separator_from(words, first).saturating_add(1);
    }
    count
}

/// How many parameters the function has whose name is declared by the token with this number.
pub fn parameter_count(words: &Words<'_>, name: usize) -> Option<usize> {
    let open = name.saturating_add(1);
    if !matches!(words.at(open), b"(") {
        return None;
    }
    let close = close_behind(words, open)?;
    let first = open.saturating_add(1);
    let is_empty = close == first
        || matches!(words.at(first), b"void") && close == first.saturating_add(1);
    if is_empty {
        return Some(0);
    }
    Some(parts(words, open, close))
}

/// The tokens of the parameter with this number, counted from 0, of the function whose name is declared there; or of the argument, where it is
/// called there.
pub fn parameter_at(words: &Words<'_>, name: usize, count: usize) -> Option<Span> {
    let open = name.saturating_add(1);
    let close = close_behind(words, open)?;
    let mut first = open.saturating_add(1);
    for _ in 0..count {
        first = separator_from(words, first).saturating_add(1);
    }
    let past = separator_from(words, first);
    if first < past && past <= close {
        Some(Span { first, past })
    } else {
        None
    }
}
