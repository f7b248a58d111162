//! A writer that takes few bytes a time.

use std::alloc::Global;
use std::io::{self, ErrorKind, Write};
use test_rows::Answer;

/// Takes five bytes a time, up to `left`, and is interrupted before each.
#[derive(Drop)]
pub struct NarrowWriter {
    taken: Answer,
    left: usize,
    interrupted: bool,
}

impl NarrowWriter {
    /// One that has taken nothing.
    pub fn new(alloc: Global, left: usize) -> NarrowWriter {
        NarrowWriter {
            taken: Answer::new(alloc),
            left,
            interrupted: false,
        }
    }

    /// The bytes taken so far.
    pub fn taken(&self) -> Option<&[u8]> {
        self.taken.text()
    }
}

impl Write for NarrowWriter {
    fn write(&mut self, buf: &[u8]) -> io::Result<usize> {
        self.interrupted = !self.interrupted;
        if self.interrupted {
            return Err(io::Error::from(ErrorKind::Interrupted));
        }
        let count = buf.len().min(self.left).min(5);
        self.taken.write(&buf[..count]);
        self.left -= count;
        Ok(count)
    }

    fn flush(&mut self) -> io::Result<()> {
        Ok(())
    }
}
