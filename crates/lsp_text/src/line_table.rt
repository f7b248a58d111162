//! Where the lines of a text begin, and positions in them.

ghost use Rattle.std.specs.Prelude.{◌≤◌, length};

use crate::blocks::{BLOCK, Counts, counts_of};
use crate::units::{Encoding, bytes_before, units_of};
use std::alloc::{AllocError, Global};

/// A place in a text, as the protocol counts: line and character from 0.
#[derive(Clone, Copy, Debug, PartialEq, Eq)]
pub struct Position {
    pub line: u32,
    pub character: u32,
}

/// The text from one position up to another.
#[derive(Clone, Copy, Debug, PartialEq, Eq)]
pub struct Span {
    pub start: Position,
    pub end: Position,
}

/// The beginnings of a text's lines. A line ends with LF, CR LF or CR.
#[derive(Drop)]
pub struct LineTable {
    starts: Vec<usize>,
    /// The units before each block of the text, and before its end.
    counts: Vec<Counts>,
}

impl LineTable {
    /// Finds the lines of a text. Fails where memory runs out.
    pub fn of(alloc: Global, text: &[u8]) -> Result<LineTable, AllocError> {
        let mut starts = Vec::new(alloc);
        starts.push(0usize)?;
        for (at, byte) in text.iter().enumerate() {
            let next = at.saturating_add(1);
            if ends_line(*byte, text.get(next)) {
                starts.push(next)?;
            }
        }
        let counts = counts_of(alloc, text)?;
        Ok(LineTable { starts, counts })
    }

    /// Returns how many bytes of the text precede a position. A character past the end of its line means that end, and a line past the last one the end of the
    /// text.
    pub fn offset(&self, text: &[u8], position: Position, encoding: Encoding) -> usize
        ensures { result ≤ length text.now }
    {
        let line = position.line as usize;
        let Some(start) = self.starts.get(line).copied() else {
            return text.len();
        };
        let before = bytes_before(self.row(text, line), position.character, encoding);
        start.saturating_add(before).min(text.len())
    }

    /// Returns the position after the first `offset` bytes of the text. Of a byte in a line's end it is the end of that line.
    pub fn position(&self, text: &[u8], offset: usize, encoding: Encoding) -> Position {
        let line = self.line_of(offset);
        let start = self.starts.get(line).copied().unwrap_or(0);
        let row = self.row(text, line);
        let before = offset.saturating_sub(start).min(row.len());
        let character = if before <= BLOCK {
            units_of(row.get(..before).unwrap_or_default(), encoding)
        } else {
            self.units_before(text, start.saturating_add(before), encoding)
                .saturating_sub(self.units_before(text, start, encoding))
        };
        Position {
            line: u32::try_from(line).unwrap_or(u32::MAX),
            character,
        }
    }

    /// The units before an offset of the text, of which no more than a block is read.
    fn units_before(&self, text: &[u8], offset: usize, encoding: Encoding) -> u32 {
        let number = offset / BLOCK;
        let counted = match self.counts.get(number) {
            Some(counts) => counts.of(encoding),
            None => 0,
        };
        let begun = text
            .get(number.saturating_mul(BLOCK)..offset)
            .unwrap_or_default();
        counted.saturating_add(units_of(begun, encoding))
    }

    /// The positions of the bytes from one offset up to another.
    pub fn span(&self, text: &[u8], start: usize, end: usize, encoding: Encoding) -> Span {
        Span {
            start: self.position(text, start, encoding),
            end: self.position(text, end, encoding),
        }
    }

    /// The number of the line, from 0, that contains the byte at an offset.
    pub fn line_of(&self, offset: usize) -> usize {
        self.starts
            .partition_point(|start| *start <= offset)
            .saturating_sub(1)
    }

    /// The bytes of the line with this number, from 0, without its end; empty where there is none.
    pub fn row<'t>(&self, text: &'t [u8], line: usize) -> &'t [u8] {
        let Some(start) = self.starts.get(line).copied() else {
            return &[];
        };
        let end = self
            .starts
            .get(line.saturating_add(1))
            .copied()
            .unwrap_or(text.len());
        without_end(text.get(start..end).unwrap_or_default())
    }
}

/// Whether a byte ends its line: LF, or CR with no LF after it.
fn ends_line(byte: u8, next: Option<&u8>) -> bool {
    byte == b'\n' || byte == b'\r' && next.copied() != Some(b'\n')
}

/// A line without its line ending.
fn without_end(line: &[u8]) -> &[u8] {
    let line = line.strip_suffix(b"\n").unwrap_or(line);
    line.strip_suffix(b"\r").unwrap_or(line)
}
