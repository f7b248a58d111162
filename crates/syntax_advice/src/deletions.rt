//! Candidates for a superfluous token, or for a construct that the compiler leaves out.

use crate::brackets::{close_behind, is_closing, open_before};
use crate::expectation::{Candidate, Expected, inserted, replaced, tried};
use crate::vocabulary::{is_identifier, is_keyword, is_type_word};
use source_words::Words;

/// Two tokens in a row in place of one operator of C.
pub fn operator(words: &Words<'_>, number: usize) -> Option<Candidate> {
    let before = number.checked_sub(1)?;
    match joined(words, before) {
        Some(text) => Some(replaced(
            words,
            before,
            number.saturating_add(1),
            Expected::Operator,
            text,
        )),
        None => {
            let text = joined(words, number)?;
            Some(replaced(
                words,
                number,
                number.saturating_add(2),
                Expected::Operator,
                text,
            ))
        }
    }
}

/// The operator that is meant by the token with this number and the next, where nothing is between them.
fn joined(words: &Words<'_>, number: usize) -> Option<&'static str> {
    let next = number.saturating_add(1);
    if words.end(number) != words.start(next) {
        return None;
    }
    match (words.at(number), words.at(next)) {
        (b"=", b">") => Some(">="),
        (b"=", b"<") => Some("<="),
        (b"<", b">") => Some("!="),
        (b"==", b"=") => Some("=="),
        (b"!=", b"=") => Some("!="),
        (b":", b"=") => Some("="),
        _ => None,
    }
}

/// `**` between two operands.
pub fn power(words: &Words<'_>, number: usize) -> Option<Candidate> {
    let before = number.checked_sub(1)?;
    let is_power = matches!(words.at(before), b"*")
        && matches!(words.at(number), b"*")
        && words.end(before) == words.start(number);
    if is_power {
        return Some(tried(inserted(words, number, Expected::Power, " 1 ")));
    }
    None
}

/// The construct that the compiler leaves out, by the token that begins it.
pub fn left_out(words: &Words<'_>, number: usize) -> Option<Candidate> {
    match words.at(number) {
        b"*" => Some(stars(words, number)),
        b"&" => Some(without(words, number, number.saturating_add(1), Expected::Address)),
        b"[" => bracket(words, number),
        b"." | b"->" => Some(member(words, number)),
        b"..." => ellipsis(words, number),
        b"{" => compound_literal(words, number),
        b"(" => nested_function(words, number),
        b"=" | b"+=" | b"-=" | b"*=" | b"/=" | b"%=" | b"<<=" | b">>=" | b"&=" | b"^=" | b"|=" => {
            let past = number.saturating_add(1);
            Some(tried(replaced(words, number, past, Expected::NoObject, "==")))
        }
        _ => None,
    }
}

/// `...` behind parameters, or between the values of a label.
fn ellipsis(words: &Words<'_>, number: usize) -> Option<Candidate> {
    let open = open_before(words, number)?;
    if matches!(words.at(open), b"(") {
        let comma = number.saturating_sub(1);
        return Some(without(words, comma, number.saturating_add(1), Expected::Ellipsis));
    }
    if is_of_case(words, number) {
        return Some(without(words, number, number.saturating_add(2), Expected::CaseRange));
    }
    None
}

/// Whether the token with this number is between `case` and its colon.
fn is_of_case(words: &Words<'_>, number: usize) -> bool {
    for place in (0..number).rev() {
        match words.at(place) {
            b"case" => return true,
            b";" | b"{" | b"}" | b":" => return false,
            _ => {}
        }
    }
    false
}

/// Nothing in place of some tokens, as a trial.
fn without(words: &Words<'_>, first: usize, past: usize, expected: Expected) -> Candidate {
    tried(replaced(words, first, past, expected, " "))
}

/// Nothing in place of all `*` in a row.
fn stars(words: &Words<'_>, number: usize) -> Candidate {
    let mut past = number;
    for place in number..words.list.len() {
        if !matches!(words.at(place), b"*" | b"const") {
            break;
        }
        past = place;
    }
    let expected = if is_type_word(words.before(number)) {
        Expected::Pointer
    } else {
        Expected::Indirection
    };
    without(words, number, past.saturating_add(1), expected)
}

/// A `[` before a name, in a list of initialisers, or after the parameters of a function.
fn bracket(words: &Words<'_>, number: usize) -> Option<Candidate> {
    let past = close_behind(words, number)?.saturating_add(1);
    let before = words.before(number);
    if is_type_word(before) {
        return Some(without(words, number, past, Expected::BracketsBehindName));
    }
    match before {
        b"{" | b"," => Some(without(words, number, past.saturating_add(1), Expected::Designator)),
        b")" => Some(without(words, number, past, Expected::ArrayResult)),
        _ => None,
    }
}

/// A member of a structure, or a designator of one.
fn member(words: &Words<'_>, number: usize) -> Candidate {
    let past = number.saturating_add(2);
    match words.before(number) {
        b"{" | b"," => without(words, number, past.saturating_add(1), Expected::Designator),
        _ => without(words, number, past, Expected::Member),
    }
}

/// A braced list after a type in parentheses.
fn compound_literal(words: &Words<'_>, number: usize) -> Option<Candidate> {
    if !matches!(words.before(number), b")") {
        return None;
    }
    let open = open_before(words, number.saturating_sub(1))?;
    if !is_type_word(words.at(open.saturating_add(1))) || is_identifier(words.before(open)) {
        return None;
    }
    let past = close_behind(words, number)?.saturating_add(1);
    Some(tried(replaced(words, open, past, Expected::CompoundLiteral, " 0 ")))
}

/// The number of the first token of the declaration whose declarator begins before this `(`.
fn declaration_front(words: &Words<'_>, open: usize) -> Option<usize> {
    let name = open.checked_sub(1)?;
    let mut first = name;
    for place in (0..name).rev() {
        if !is_type_word(words.at(place)) {
            break;
        }
        first = place;
    }
    if is_identifier(words.at(name)) && first < name {
        Some(first)
    } else {
        None
    }
}

/// The declaration or the definition of a function in a block.
fn nested_function(words: &Words<'_>, number: usize) -> Option<Candidate> {
    let first = declaration_front(words, number)?;
    let behind = close_behind(words, number)?.saturating_add(1);
    let past = match words.at(behind) {
        b"{" => close_behind(words, behind)?.saturating_add(1),
        b";" => behind.saturating_add(1),
        _ => return None,
    };
    Some(tried(replaced(words, first, past, Expected::NestedFunction, " ")))
}

/// The `}` that is missing before the function whose `(` does not fit.
pub fn brace_before_function(words: &Words<'_>, number: usize) -> Option<Candidate> {
    if !matches!(words.at(number), b"(") {
        return None;
    }
    let first = declaration_front(words, number)?;
    Some(inserted(words, first, Expected::CloseBrace, "\n}"))
}

/// A name in place of a keyword that is where a declaration names something.
pub fn keyword_as_name(words: &Words<'_>, number: usize) -> Option<Candidate> {
    let is_named = is_type_word(words.before(number)) || matches!(words.before(number), b",");
    if is_named && is_keyword(words.at(number)) {
        let past = number.saturating_add(1);
        return Some(tried(replaced(words, number, past, Expected::KeywordAsName, "zk_name")));
    }
    None
}

/// A statement that follows its head without `then`.
pub fn then_word(words: &Words<'_>, number: usize) -> Option<Candidate> {
    let before = number.checked_sub(1)?;
    if matches!(words.at(before), b"then") {
        return Some(replaced(words, before, number, Expected::Then, ""));
    }
    None
}

/// Another separator in place of this one.
pub fn separator(words: &Words<'_>, number: usize) -> Option<Candidate> {
    let past = number.saturating_add(1);
    match words.at(number) {
        b":" | b"," => Some(replaced(words, number, past, Expected::SemicolonInstead, ";")),
        b";" => Some(replaced(words, number, past, Expected::CommaInstead, ",")),
        _ => None,
    }
}

/// Nothing in place of the token.
pub fn nothing(words: &Words<'_>, number: usize) -> Option<Candidate> {
    let past = number.saturating_add(1);
    let expected = if is_closing(words.at(number)) {
        Expected::Unmatched
    } else {
        Expected::Nothing
    };
    Some(replaced(words, number, past, expected, " "))
}
