//! The forms of tokens, and the tokens between parentheses.

use source_words::{Span, Words};

fn is_opening(token: &[u8]) -> bool {
    matches!(token, b"(" | b"[" | b"{")
}

fn is_closing(token: &[u8]) -> bool {
    matches!(token, b")" | b"]" | b"}")
}

/// Whether a token can begin a declaration.
pub fn is_type_word(token: &[u8]) -> bool {
    matches!(
        token,
        b"int"
            | b"char"
            | b"unsigned"
            | b"signed"
            | b"short"
            | b"long"
            | b"_Bool"
            | b"void"
            | b"const"
            | b"static"
            | b"extern"
            | b"enum"
    )
}

fn is_statement_word(token: &[u8]) -> bool {
    matches!(
        token,
        b"return"
            | b"else"
            | b"do"
            | b"case"
            | b"default"
            | b"if"
            | b"while"
            | b"for"
            | b"switch"
            | b"break"
            | b"continue"
            | b"sizeof"
            | b"goto"
            | b"_Static_assert"
    )
}

/// Whether a token is a word of letters that is no keyword of a declaration or a statement.
pub fn is_identifier(token: &[u8]) -> bool {
    let is_word = match token.first() {
        Some(letter) => letter.is_ascii_alphabetic() || *letter == b'_',
        None => false,
    };
    is_word && !is_type_word(token) && !is_statement_word(token)
}

/// The number of the token that closes the bracket opened by the token with this number.
pub fn close_behind(words: &Words<'_>, open: usize) -> Option<usize> {
    let mut depth: usize = 0;
    for place in open..words.list.len() {
        let token = words.at(place);
        if is_opening(token) {
            depth = depth.saturating_add(1);
        } else if is_closing(token) {
            depth = depth.saturating_sub(1);
        }
        if depth == 0 {
            return Some(place);
        }
    }
    None
}

/// The number of the innermost `(`, `[` or `{` that is open before the token with this number.
pub fn open_before(words: &Words<'_>, number: usize) -> Option<usize> {
    let mut depth: usize = 0;
    for place in (0..number).rev() {
        let token = words.at(place);
        if is_closing(token) {
            depth = depth.saturating_add(1);
        } else if is_opening(token) {
            if depth == 0 {
                return Some(place);
            }
            depth = depth.saturating_sub(1);
        }
    }
    None
}

/// The number of the first `,` or `;` from this token on that is in no parentheses of its own, or of the token that closes those around it.
pub fn separator_from(words: &Words<'_>, first: usize) -> usize {
    let mut depth: usize = 0;
    for number in first..words.list.len() {
        let token = words.at(number);
        let is_end = matches!(token, b"," | b";") || is_closing(token);
        if depth == 0 && is_end {
            return number;
        }
        if is_opening(token) {
            depth = depth.saturating_add(1);
        } else if is_closing(token) {
            depth = depth.saturating_sub(1);
        }
    }
    words.list.len()
}

/// The number of the outermost `{` that is open before this token.
fn outermost_brace(words: &Words<'_>, number: usize) -> Option<usize> {
    let mut depth: usize = 0;
    let mut outermost = None;
    for place in 0..number {
        match words.at(place) {
            b"{" => {
                if depth == 0 {
                    outermost = Some(place);
                }
                depth = depth.saturating_add(1);
            }
            b"}" => {
                depth = depth.saturating_sub(1);
            }
            _ => {}
        }
    }
    if depth == 0 { None } else { outermost }
}

/// The number of the name of the function whose body contains the token with this number.
pub fn function_around(words: &Words<'_>, number: usize) -> Option<usize> {
    let brace = outermost_brace(words, number)?;
    let close = brace.checked_sub(1)?;
    if !matches!(words.at(close), b")") {
        return None;
    }
    let name = open_before(words, close)?.checked_sub(1)?;
    if is_identifier(words.at(name)) {
        Some(name)
    } else {
        None
    }
}

/// The type words before the name with this number.
pub fn specifiers(words: &Words<'_>, name: usize) -> Span {
    let mut first = name;
    for place in (0..name).rev() {
        if !is_type_word(words.at(place)) {
            break;
        }
        first = place;
    }
    Span { first, past: name }
}
