//! The tokens of a source file outside of its directives.

use explain_places::Tokens;
use std::alloc::{AllocError, Global};
use std::str;

/// A token that is in no directive.
#[derive(Clone, Copy, Debug)]
pub struct Word {
    /// The offset of its first byte in the file.
    pub start: usize,
    /// How many bytes there are up to its end.
    pub end: usize,
    /// Its physical line, counted from 1.
    pub line: u32,
}

/// Some tokens that follow each other, by their numbers: from `first` up to `past`, which is not one of them.
#[derive(Clone, Copy, Debug, PartialEq, Eq)]
pub struct Span {
    pub first: usize,
    pub past: usize,
}

/// The tokens of a source file that are in no directive.
#[derive(Drop)]
pub struct Words<'b> {
    bytes: &'b [u8],
    pub list: Vec<Word>,
}

impl<'b> Words<'b> {
    /// The tokens of a file; `None` where their places are not known.
    pub fn of(alloc: Global, bytes: &'b [u8]) -> Result<Option<Words<'b>>, AllocError> {
        let Some(tokens) = Tokens::of(alloc, bytes)? else {
            return Ok(None);
        };
        let mut list = Vec::new(alloc);
        for spot in &tokens.spots {
            if !spot.in_directive {
                list.push(Word {
                    start: spot.start,
                    end: spot.end,
                    line: spot.line,
                })?;
            }
        }
        Ok(Some(Words { bytes, list }))
    }

    /// The bytes of the file.
    pub fn bytes(&self) -> &'b [u8] {
        self.bytes
    }

    /// The token with this number, as it is written; empty where there is none.
    pub fn at(&self, number: usize) -> &'b [u8] {
        match self.list.get(number) {
            Some(word) => self.bytes.get(word.start..word.end).unwrap_or_default(),
            None => &[],
        }
    }

    /// The token before the one with this number; empty where there is none.
    pub fn before(&self, number: usize) -> &'b [u8] {
        match number.checked_sub(1) {
            Some(before) => self.at(before),
            None => &[],
        }
    }

    /// The offset of the token with this number; the size of the file, where there is no such token.
    pub fn start(&self, number: usize) -> usize {
        match self.list.get(number) {
            Some(word) => word.start,
            None => self.bytes.len(),
        }
    }

    /// How many bytes there are up to the end of the token with this number; all, where there is no such token.
    pub fn end(&self, number: usize) -> usize {
        match self.list.get(number) {
            Some(word) => word.end,
            None => self.bytes.len(),
        }
    }

    /// The line of the token with this number; 0 where there is none.
    pub fn line(&self, number: usize) -> u32 {
        match self.list.get(number) {
            Some(word) => word.line,
            None => 0,
        }
    }

    /// The number of the token that begins at this offset.
    pub fn number_at(&self, start: usize) -> Option<usize> {
        self.list.iter().position(|word| word.start == start)
    }

    /// The text of these tokens, a space between; empty where one of them is no text.
    pub fn text(&self, alloc: Global, span: Span) -> Result<String, AllocError> {
        let mut text = String::new(alloc);
        for number in span.first..span.past {
            if number != span.first && has_gap(self.before(number), self.at(number)) {
                text.push_str(" ")?;
            }
            text.push_str(str::from_utf8(self.at(number)).unwrap_or_default())?;
        }
        Ok(text)
    }
}

/// Whether there is a space between two tokens where they are shown.
fn has_gap(before: &[u8], token: &[u8]) -> bool {
    let is_close = matches!(token, b"[" | b"]" | b")" | b"," | b";" | b"++" | b"--");
    let is_open = matches!(before, b"[" | b"(" | b"!" | b"~");
    !is_close && !is_open
}
