//! All changes that may mend a syntax error.

use crate::brackets::open_before;
use crate::deletions::{
    brace_before_function, keyword_as_name, left_out, nothing, operator, power, separator,
    then_word,
};
use crate::expectation::{Candidate, Expected, inserted, tried};
use crate::insertions::put_insertions;
use crate::spelling::put_words;
use crate::type_names::{known_type_name, type_name};
use crate::vocabulary::is_identifier;
use source_words::Words;
use std::alloc::{AllocError, Global};

/// The most changes that are tried, each of them one more parse of the source.
const MAX_TRIED: usize = 24;

/// The changes that may mend a syntax error at the token with this number, the likeliest first: at most 24.
pub fn candidates(
    alloc: Global,
    words: &Words<'_>,
    number: usize,
) -> Result<Vec<Candidate>, AllocError> {
    let mut found = Vec::new(alloc);
    put_some(
        [
            operator(words, number),
            power(words, number),
            known_type_name(words, number),
            then_word(words, number),
        ],
        &mut found,
    )?;
    put_words(alloc, words, number, &mut found)?;
    put_some(
        [
            type_name(words, number),
            keyword_as_name(words, number),
            left_out(words, number),
            None,
        ],
        &mut found,
    )?;
    put_insertions(words, number, &mut found)?;
    put_some(
        [
            brace_before_function(words, number),
            separator(words, number),
            nothing(words, number),
            at_end(words, number),
        ],
        &mut found,
    )?;
    found.truncate(MAX_TRIED);
    Ok(found)
}

fn put_some(
    candidates: [Option<Candidate>; 4],
    found: &mut Vec<Candidate>,
) -> Result<(), AllocError> {
    for candidate in candidates {
        if let Some(candidate) = candidate {
            found.push(candidate)?;
        }
    }
    Ok(())
}

/// The candidate for a missing token after the last token of the file.
fn at_end(words: &Words<'_>, number: usize) -> Option<Candidate> {
    let past = number.saturating_add(1);
    if past < words.list.len() {
        return None;
    }
    match open_before(words, past) {
        Some(open) => match words.at(open) {
            b"(" => Some(inserted(words, past, Expected::CloseParenthesis, ")")),
            b"[" => Some(inserted(words, past, Expected::CloseBracket, "]")),
            _ => Some(inserted(words, past, Expected::CloseBrace, "\n}")),
        },
        None if is_parameters_end(words, number) => {
            Some(tried(inserted(words, past, Expected::Body, " { }")))
        }
        None => Some(inserted(words, past, Expected::Semicolon, ";")),
    }
}

/// Whether the token with this number closes the parameters of a function.
fn is_parameters_end(words: &Words<'_>, number: usize) -> bool {
    matches!(words.at(number), b")")
        && match open_before(words, number) {
            Some(open) => is_identifier(words.before(open)),
            None => false,
        }
}
