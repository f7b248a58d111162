//! A source file with a change, laid out so that the line of its next fault shows how far it is parsed.

use crate::expectation::Candidate;
use source_words::Words;
use std::alloc::{AllocError, Global};

/// The text after the main file: where it is parsed up to its last line, all before it fits. A block cannot contain its first line.
const SENTINEL: &str = "int zk_end(\nvoid) {\n)\n";

/// A file to be read.
#[derive(Drop)]
pub struct Trial {
    pub text: Vec<u8>,
    /// The first line at which a fault shows that the change helps: two tokens on, or the last line where there are none.
    pub helps_from: u32,
    /// The last line.
    pub last: u32,
}

/// The file with a change, where each token after the one with this number begins a line.
pub fn trial_text(
    alloc: Global,
    words: &Words<'_>,
    number: usize,
    candidate: Candidate,
    is_main: bool,
) -> Result<Trial, AllocError> {
    let mut text = Vec::new(alloc);
    let bytes = words.bytes();
    text.extend_from_slice(bytes.get(..candidate.start).unwrap_or_default())?;
    text.extend_from_slice(candidate.text.as_bytes())?;
    let resumes = first_behind(words, number.saturating_add(1), candidate.end);
    let first = words.start(resumes).max(candidate.end);
    text.extend_from_slice(bytes.get(candidate.end..first).unwrap_or_default())?;
    put_line(words, resumes, &mut text)?;
    text.push(b'\n')?;
    let line = lines(&text).saturating_add(1);
    let next = resumes.saturating_add(1);
    put_lines(words, next, &mut text)?;
    if is_main {
        text.extend_from_slice(SENTINEL.as_bytes())?;
    }
    let last = lines(&text);
    let helps_from = if next < words.list.len() { line } else { last };
    Ok(Trial {
        text,
        helps_from,
        last,
    })
}

/// The number of the first token from this one on that begins at offset `place` or later.
fn first_behind(words: &Words<'_>, from: usize, place: usize) -> usize {
    for number in from..words.list.len() {
        if words.start(number) >= place {
            return number;
        }
    }
    words.list.len()
}

/// Appends a token and the text after it up to the next one.
fn put_line(words: &Words<'_>, number: usize, text: &mut Vec<u8>) -> Result<(), AllocError> {
    let next = words.start(number.saturating_add(1));
    text.push(b'\n')?;
    text.extend_from_slice(
        words
            .bytes()
            .get(words.start(number)..next)
            .unwrap_or_default(),
    )
}

/// Appends all tokens from this one on, each on a line of its own.
fn put_lines(words: &Words<'_>, from: usize, text: &mut Vec<u8>) -> Result<(), AllocError> {
    for number in from..words.list.len() {
        put_line(words, number, text)?;
    }
    Ok(())
}

/// How many lines end in a text.
fn lines(text: &[u8]) -> u32 {
    let mut count: u32 = 0;
    for byte in text {
        if *byte == b'\n' {
            count = count.saturating_add(1);
        }
    }
    count
}
