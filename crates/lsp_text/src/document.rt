//! A document whose text changes.

use crate::line_table::{LineTable, Position, Span};
use crate::units::Encoding;
use std::alloc::{AllocError, Global};

/// The text of a document with its lines.
#[derive(Drop)]
pub struct Document {
    alloc: Global,
    text: Vec<u8>,
    lines: LineTable,
}

impl Document {
    /// Makes a document of a text. Fails where memory runs out.
    pub fn new(alloc: Global, text: &[u8]) -> Result<Document, AllocError> {
        let lines = LineTable::of(alloc, text)?;
        let text = Vec::from_slice(alloc, text)?;
        Ok(Document { alloc, text, lines })
    }

    /// The bytes of the text.
    pub fn text(&self) -> &[u8] {
        self.text.as_slice()
    }

    /// Replaces the text in a range. Positions outside of the text mean its nearest ones, and a range whose end precedes its beginning is empty. Where memory
    /// runs out, the document is as it was.
    pub fn replace(
        &mut self,
        span: Span,
        encoding: Encoding,
        with: &[u8],
    ) -> Result<(), AllocError> {
        let start = self.offset(span.start, encoding);
        let end = self.offset(span.end, encoding).max(start);
        let text = replaced(self.alloc, self.text.as_slice(), start, end, with)?;
        self.lines = LineTable::of(self.alloc, text.as_slice())?;
        self.text = text;
        Ok(())
    }

    /// Returns how many bytes precede a position.
    pub fn offset(&self, position: Position, encoding: Encoding) -> usize {
        self.lines.offset(self.text.as_slice(), position, encoding)
    }

    /// The positions of the bytes from one offset up to another.
    pub fn span(&self, start: usize, end: usize, encoding: Encoding) -> Span {
        self.lines.span(self.text.as_slice(), start, end, encoding)
    }
}

/// A text in which the bytes from `start` up to `end` are others.
fn replaced(
    alloc: Global,
    text: &[u8],
    start: usize,
    end: usize,
    with: &[u8],
) -> Result<Vec<u8>, AllocError> {
    let mut made = Vec::from_slice(alloc, text.get(..start).unwrap_or_default())?;
    made.extend_from_slice(with)?;
    made.extend_from_slice(text.get(end..).unwrap_or_default())?;
    Ok(made)
}
