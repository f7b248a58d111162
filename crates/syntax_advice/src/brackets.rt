//! Parentheses, brackets and braces.

use crate::vocabulary::{has_head, is_type_word};
use source_words::Words;

/// Whether a token opens a bracket.
pub fn is_opening(token: &[u8]) -> bool {
    matches!(token, b"(" | b"[" | b"{")
}

/// Whether a token closes a bracket.
pub fn is_closing(token: &[u8]) -> bool {
    matches!(token, b")" | b"]" | b"}")
}

/// The number of the innermost `(`, `[` or `{` that is open before the token with this number.
pub fn open_before(words: &Words<'_>, number: usize) -> Option<usize> {
    let mut depth: usize = 0;
    for place in (0..number).rev() {
        let token = words.at(place);
        if is_closing(token) {
            depth = depth.saturating_add(1);
        } else if is_opening(token) {
            if depth == 0 {
                return Some(place);
            }
            depth = depth.saturating_sub(1);
        }
    }
    None
}

/// The number of the token that closes the bracket opened by the token with this number.
pub fn close_behind(words: &Words<'_>, open: usize) -> Option<usize> {
    let mut depth: usize = 0;
    for place in open..words.list.len() {
        let token = words.at(place);
        if is_opening(token) {
            depth = depth.saturating_add(1);
        } else if is_closing(token) {
            depth = depth.saturating_sub(1);
        }
        if depth == 0 {
            return Some(place);
        }
    }
    None
}

/// Whether a statement has to begin at the token with this number: a label, `else`, `do`, or the head of a statement ends before it.
pub fn wants_statement(words: &Words<'_>, number: usize) -> bool {
    match words.before(number) {
        b"else" | b"do" | b":" => true,
        b")" => begins_none(words.at(number)) && ends_head(words, number.saturating_sub(1)),
        _ => false,
    }
}

/// Whether no statement begins with this token. Where one does that does not fit, the `while` before it ends a `do`.
fn begins_none(token: &[u8]) -> bool {
    matches!(token, b"}" | b"else") || is_type_word(token)
}

/// Whether the `)` with this number ends the head of a statement, and not a `do`.
fn ends_head(words: &Words<'_>, close: usize) -> bool {
    let Some(open) = open_before(words, close) else {
        return false;
    };
    let word = open.saturating_sub(1);
    has_head(words.before(open)) && !(matches!(words.at(word), b"while") && ends_do(words, word))
}

/// Whether the `while` with this number may end a `do`: a block is before it, or one statement and `do`.
fn ends_do(words: &Words<'_>, number: usize) -> bool {
    let Some(last) = number.checked_sub(1) else {
        return false;
    };
    match words.at(last) {
        b"}" => true,
        b";" => follows_do(words, last),
        _ => false,
    }
}

/// Whether the statement that ends before the `;` with this number has `do` before it.
fn follows_do(words: &Words<'_>, semicolon: usize) -> bool {
    let mut depth: usize = 0;
    for place in (0..semicolon).rev() {
        match words.at(place) {
            b")" => depth = depth.saturating_add(1),
            b"(" => depth = depth.saturating_sub(1),
            b"do" => return true,
            b";" if depth == 0 => return false,
            b"{" | b"}" => return false,
            _ => {}
        }
    }
    false
}

/// Whether a label or a conditional expression is begun before the token with this number, in its statement.
pub fn wants_colon(words: &Words<'_>, number: usize) -> bool {
    for place in (0..number).rev() {
        match words.at(place) {
            b"case" | b"default" | b"?" => return true,
            b";" | b"{" | b"}" => return false,
            _ => {}
        }
    }
    false
}
