//! Likely intended spellings of words.

use crate::brackets::open_before;
use crate::expectation::{Candidate, Expected, replaced};
use crate::vocabulary::is_identifier;
use source_words::Words;
use std::alloc::{AllocError, Global};
use std::str;
use strsim::osa_distance;

/// The longest word that is compared.
const MAX_WORD: usize = 15;

/// The keywords that may be misspelled.
const KEYWORDS: [&str; 21] = [
    "break", "case", "char", "const", "continue", "default", "else", "enum", "extern", "int",
    "long", "return", "short", "signed", "sizeof", "static", "switch", "unsigned", "void", "while",
    "for",
];

/// The keyword that is nearest to this word: at most a third of its letters away, and one at least; empty where none is.
fn nearest_keyword(alloc: Global, word: &str) -> Result<&'static str, AllocError> {
    let most = (word.len() / 3).max(1);
    let least = least_distance(alloc, word)?;
    if least > most {
        return Ok("");
    }
    keyword_within(alloc, word, least)
}

/// How far the nearest keyword is from this word.
fn least_distance(alloc: Global, word: &str) -> Result<usize, AllocError> {
    let mut least = usize::MAX;
    for keyword in KEYWORDS {
        least = least.min(osa_distance(alloc, word, keyword)?);
    }
    Ok(least)
}

/// The first keyword that is so far from this word; empty where none is.
fn keyword_within(alloc: Global, word: &str, distance: usize) -> Result<&'static str, AllocError> {
    for keyword in KEYWORDS {
        if osa_distance(alloc, word, keyword)? == distance {
            return Ok(keyword);
        }
    }
    Ok("")
}

/// The likely intended spelling of a word; empty where nothing is near.
fn meant(alloc: Global, word: &[u8]) -> Result<&'static str, AllocError> {
    if !is_identifier(word) || word.len() < 2 || word.len() > MAX_WORD {
        return Ok("");
    }
    match str::from_utf8(word) {
        Ok(word) => nearest_keyword(alloc, word),
        Err(_) => Ok(""),
    }
}

/// Whether a word is written for `else if` in other languages.
fn is_else_if(word: &[u8]) -> bool {
    matches!(word, b"elif" | b"elseif" | b"elsif")
}

/// Appends the keyword that the token with this number probably misspells.
fn put_word(
    alloc: Global,
    words: &Words<'_>,
    number: usize,
    found: &mut Vec<Candidate>,
) -> Result<(), AllocError> {
    let word = words.at(number);
    let past = number.saturating_add(1);
    if is_else_if(word) {
        found.push(replaced(words, number, past, Expected::ElseIf, "else if"))?;
        return Ok(());
    }
    let keyword = meant(alloc, word)?;
    if !keyword.is_empty() {
        found.push(replaced(words, number, past, Expected::Word, keyword))?;
    }
    Ok(())
}

/// The number of the word before the parentheses that end before the token with this number, or that open there.
fn word_of_head(words: &Words<'_>, number: usize) -> Option<usize> {
    let before = number.checked_sub(1)?;
    match words.at(before) {
        b"(" => before.checked_sub(1),
        b")" => open_before(words, before)?.checked_sub(1),
        _ => None,
    }
}

/// Appends the likely intended keywords where the token with this number does not fit: for it, for the word before it, or for the one before
/// its parentheses.
pub fn put_words(
    alloc: Global,
    words: &Words<'_>,
    number: usize,
    found: &mut Vec<Candidate>,
) -> Result<(), AllocError> {
    put_word(alloc, words, number, found)?;
    if let Some(before) = number.checked_sub(1) {
        put_word(alloc, words, before, found)?;
    }
    match word_of_head(words, number) {
        Some(word) => put_word(alloc, words, word, found),
        None => Ok(()),
    }
}
