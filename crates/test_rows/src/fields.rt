//! The fields of a row: tabs separate them, and in one a backslash begins `\\`, `\n`, `\t` or `\x` and two hexadecimal digits.

use crate::words::{decimal, digit};
use std::alloc::Global;

/// How far an escape is read.
#[derive(Clone, Copy)]
enum Escape {
    None,
    Begun,
    Hexadecimal,
    Digit(u8),
}

/// The fields of a row, with their escapes undone. The first one names the subject.
#[derive(Drop)]
pub struct Fields {
    bytes: Vec<u8>,
    /// Where each field ends but the last.
    ends: Vec<usize>,
    escape: Escape,
    failed: bool,
}

impl Fields {
    pub(crate) fn new(alloc: Global) -> Fields {
        Fields {
            bytes: Vec::new(alloc),
            ends: Vec::new(alloc),
            escape: Escape::None,
            failed: false,
        }
    }

    /// Makes room for the next row.
    pub(crate) fn clear(&mut self) {
        self.bytes.clear();
        self.ends.clear();
        self.escape = Escape::None;
    }

    pub(crate) fn is_failed(&self) -> bool {
        self.failed
    }

    /// Takes the next byte of a row.
    pub(crate) fn take(&mut self, byte: u8) {
        match self.escape {
            Escape::None => self.take_plain(byte),
            Escape::Begun => self.take_escaped(byte),
            Escape::Hexadecimal => self.escape = Escape::Digit(digit(byte)),
            Escape::Digit(high) => self.push(high.wrapping_mul(16).wrapping_add(digit(byte))),
        }
    }

    fn take_plain(&mut self, byte: u8) {
        match byte {
            b'\\' => self.escape = Escape::Begun,
            b'\t' => {
                if self.ends.push(self.bytes.len()).is_err() {
                    self.failed = true;
                }
            }
            _ => self.push(byte),
        }
    }

    fn take_escaped(&mut self, byte: u8) {
        match byte {
            b'n' => self.push(b'\n'),
            b't' => self.push(b'\t'),
            b'x' => self.escape = Escape::Hexadecimal,
            _ => self.push(byte),
        }
    }

    fn push(&mut self, byte: u8) {
        self.escape = Escape::None;
        if self.bytes.push(byte).is_err() {
            self.failed = true;
        }
    }

    /// How many fields there are.
    pub fn count(&self) -> usize {
        self.ends.len().saturating_add(1)
    }

    /// The field with this number, the subject's being 0; an empty one where there is none.
    pub fn field(&self, number: usize) -> &[u8] {
        let start = match number.checked_sub(1) {
            Some(before) => self.end(before),
            None => 0,
        };
        self.bytes.get(start..self.end(number)).unwrap_or(b"")
    }

    fn end(&self, number: usize) -> usize {
        match self.ends.get(number) {
            Some(end) => *end,
            None => self.bytes.len(),
        }
    }

    /// The same as text; an empty one where it is none.
    pub fn text(&self, number: usize) -> &str {
        std::str::from_utf8(self.field(number)).unwrap_or("")
    }

    /// The first byte of a field, or 0.
    pub fn letter(&self, number: usize) -> u8 {
        match self.field(number) {
            [letter, ..] => *letter,
            [] => 0,
        }
    }

    /// The number that a field has, as `decimal` reads it.
    pub fn number(&self, number: usize) -> i64 {
        decimal(self.field(number))
    }
}
