//! The lines that are written.

use std::alloc::Global;
use std::fmt::{Debug, Display};

const DIGITS: [u8; 16] = *b"0123456789abcdef";

/// The output for the rows so far. A failed allocation is recorded, so that a subject needs no early exit.
#[derive(Drop)]
pub struct Answer {
    alloc: Global,
    text: Vec<u8>,
    failed: bool,
}

impl Answer {
    /// Nothing is written yet.
    pub fn new(alloc: Global) -> Answer {
        Answer {
            alloc,
            text: Vec::new(alloc),
            failed: false,
        }
    }

    /// The allocator.
    pub fn alloc(&self) -> Global {
        self.alloc
    }

    /// The output, unless a part of it could not be written.
    pub fn text(&self) -> Option<&[u8]> {
        if self.failed {
            return None;
        }
        Some(self.text.as_slice())
    }

    /// Records that an output is not complete.
    pub fn fail(&mut self) {
        self.failed = true;
    }

    /// Writes bytes as they are.
    pub fn write(&mut self, bytes: &[u8]) {
        if self.text.extend_from_slice(bytes).is_err() {
            self.failed = true;
        }
    }

    /// Writes bytes as a field of a row has them.
    pub fn field(&mut self, bytes: &[u8]) {
        for byte in bytes {
            match *byte {
                b'\\' => self.write(b"\\\\"),
                b'\n' => self.write(b"\\n"),
                b'\t' => self.write(b"\\t"),
                0x20..=0x7e => self.write(&[*byte]),
                _ => self.escape(*byte),
            }
        }
    }

    fn escape(&mut self, byte: u8) {
        self.write(b"\\x");
        self.digits(byte);
    }

    /// Writes two hexadecimal digits.
    pub fn digits(&mut self, byte: u8) {
        let high = DIGITS[usize::from(byte / 16)];
        let low = DIGITS[usize::from(byte % 16)];
        self.write(&[high, low]);
    }

    /// Writes a word as hexadecimal digits, without zeros before them.
    pub fn hexadecimal(&mut self, word: u32) {
        match format!(in self.alloc; "{word:x}") {
            Ok(text) => self.write(text.as_bytes()),
            Err(_) => self.failed = true,
        }
    }

    /// Writes a value as `Display` shows it.
    pub fn show<T: Display>(&mut self, value: &T) {
        match format!(in self.alloc; "{value}") {
            Ok(text) => self.write(text.as_bytes()),
            Err(_) => self.failed = true,
        }
    }

    /// Writes a value as `Debug` shows it.
    pub fn debug<T: Debug>(&mut self, value: &T) {
        match format!(in self.alloc; "{value:?}") {
            Ok(text) => self.write(text.as_bytes()),
            Err(_) => self.failed = true,
        }
    }
}
