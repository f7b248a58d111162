//! Candidates for a missing token before a token.

use crate::brackets::{open_before, wants_colon, wants_statement};
use crate::expectation::{Candidate, Expected, inserted, replaced, tried};
use crate::vocabulary::{has_head, is_identifier, is_type_word};
use source_words::Words;
use std::alloc::AllocError;

/// Adds the candidates for a missing token before the token with this number.
pub fn put_insertions(
    words: &Words<'_>,
    number: usize,
    found: &mut Vec<Candidate>,
) -> Result<(), AllocError> {
    let open = open_before(words, number);
    let inside = match open {
        Some(open) => words.at(open),
        None => &[],
    };
    let owner = match open {
        Some(open) => words.before(open),
        None => &[],
    };
    put_all(
        [
            pair_of_nothing(words, number),
            ending(words, number, inside, owner),
            closing(words, number, inside),
            separating(words, number, inside, owner),
            labelling(words, number),
            brace(words, number, inside),
            parenthesis(words, number),
            operand(words, number),
            name(words, number),
            type_before(words, number, inside),
        ],
        found,
    )
}

fn put_all(
    candidates: [Option<Candidate>; 10],
    found: &mut Vec<Candidate>,
) -> Result<(), AllocError> {
    for candidate in candidates {
        if let Some(candidate) = candidate {
            found.push(candidate)?;
        }
    }
    Ok(())
}

/// The text that may be between two tokens that open and close.
fn pair_of_nothing(words: &Words<'_>, number: usize) -> Option<Candidate> {
    match (words.before(number), words.at(number)) {
        (b"(", b")") if is_declared(words, number.saturating_sub(1)) => {
            Some(inserted(words, number, Expected::VoidParameters, "void"))
        }
        (b"{", b"}") => Some(inserted(words, number, Expected::Initialiser, " 0 ")),
        _ => None,
    }
}

/// Whether the `(` with this number is that of the parameters of a function: a name is before it, and a type before the name.
fn is_declared(words: &Words<'_>, open: usize) -> bool {
    let Some(name) = open.checked_sub(1) else {
        return false;
    };
    let front = words.before(name);
    is_identifier(words.at(name)) && (is_type_word(front) || is_identifier(front))
}

/// The end of a statement or a declaration.
fn ending(words: &Words<'_>, number: usize, inside: &[u8], owner: &[u8]) -> Option<Candidate> {
    let is_closed = matches!(inside, b"(" | b"[") && !matches!(owner, b"for");
    if is_closed {
        return None;
    }
    if wants_statement(words, number) {
        return Some(tried(inserted(words, number, Expected::Statement, ";")));
    }
    Some(inserted(words, number, Expected::Semicolon, ";"))
}

/// The token that closes the innermost one that is open.
fn closing(words: &Words<'_>, number: usize, inside: &[u8]) -> Option<Candidate> {
    match inside {
        b"(" => Some(inserted(words, number, Expected::CloseParenthesis, ")")),
        b"[" => Some(inserted(words, number, Expected::CloseBracket, "]")),
        b"{" => Some(inserted(words, number, Expected::CloseBrace, " }")),
        _ => None,
    }
}

/// The `(` of a statement's head, which no other token can follow.
pub fn head(words: &Words<'_>, number: usize) -> Option<Candidate> {
    if has_head(words.before(number)) {
        return Some(inserted(words, number, Expected::OpenParenthesis, " ("));
    }
    None
}

/// The token that separates arguments, parameters, initialisers and enumerators.
fn separating(words: &Words<'_>, number: usize, inside: &[u8], owner: &[u8]) -> Option<Candidate> {
    let is_list = match inside {
        b"(" => is_identifier(owner),
        b"{" => matches!(owner, b"=" | b"{" | b"," | b"enum") || is_identifier(owner),
        _ => false,
    };
    if is_list {
        return Some(inserted(words, number, Expected::Comma, ","));
    }
    None
}

fn labelling(words: &Words<'_>, number: usize) -> Option<Candidate> {
    if !wants_colon(words, number) {
        return None;
    }
    if matches!(words.at(number), b";") {
        let past = number.saturating_add(1);
        return Some(replaced(words, number, past, Expected::ColonInstead, ":"));
    }
    Some(inserted(words, number, Expected::Colon, ":"))
}

/// The type of a declaration or a parameter that has a name alone.
fn type_before(words: &Words<'_>, number: usize, inside: &[u8]) -> Option<Candidate> {
    let is_front = matches!(words.before(number), b"" | b";" | b"}" | b"(" | b",");
    let is_declared = matches!(inside, b"" | b"(") && is_front;
    if is_declared && is_identifier(words.at(number)) {
        return Some(tried(inserted(words, number, Expected::Type, " int ")));
    }
    None
}

/// The `{` of a function's body.
fn brace(words: &Words<'_>, number: usize, inside: &[u8]) -> Option<Candidate> {
    if inside.is_empty() && matches!(words.before(number), b")") {
        return Some(inserted(words, number, Expected::OpenBrace, " {"));
    }
    None
}

/// The `(` of a call.
fn parenthesis(words: &Words<'_>, number: usize) -> Option<Candidate> {
    if is_identifier(words.before(number)) {
        return Some(tried(inserted(words, number, Expected::OpenParenthesis, "(")));
    }
    None
}

fn operand(words: &Words<'_>, number: usize) -> Option<Candidate> {
    Some(tried(inserted(words, number, Expected::Operand, " 0 ")))
}

fn name(words: &Words<'_>, number: usize) -> Option<Candidate> {
    if is_type_word(words.before(number)) {
        return Some(tried(inserted(words, number, Expected::Name, " zk_name ")));
    }
    None
}
