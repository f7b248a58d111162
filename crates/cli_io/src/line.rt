//! The line that a command prints.

use std::alloc::{AllocError, Global};
use std::io;
use std::io::{ErrorKind, Write};

/// Room for most lines, so that printing one allocates nothing: a name, a line, a code and its text.
const ROOM: usize = 1024;

/// The line that a command prints on standard error, which is kept until its output is written.
#[derive(Drop)]
pub struct Line {
    bytes: Vec<u8>,
    is_cut: bool,
}

impl Line {
    /// Nothing so far.
    pub fn new(alloc: Global) -> Result<Line, AllocError> {
        let mut bytes = Vec::new(alloc);
        bytes.reserve(ROOM)?;
        Ok(Line {
            bytes,
            is_cut: false,
        })
    }

    /// Puts bytes after those that are there.
    pub fn put(&mut self, bytes: &[u8]) -> Result<(), AllocError> {
        self.bytes.extend_from_slice(bytes)
    }

    /// Whether nothing was printed.
    pub fn is_empty(&self) -> bool {
        self.bytes.is_empty()
    }

    /// Whether it begins with these bytes.
    pub fn begins_with(&self, bytes: &[u8]) -> bool {
        self.bytes.starts_with(bytes)
    }

    /// Whether there was no memory for all of the text.
    pub fn is_cut(&self) -> bool {
        self.is_cut
    }

    /// Names another file in a fault at line 1 of the file `old`. Where there is no memory for that, the line stays.
    pub fn rename(&mut self, alloc: Global, old: &str, new: &str) {
        let Some(behind) = self.bytes.strip_prefix(old.as_bytes()) else {
            return;
        };
        if old == new || !behind.starts_with(b":1: ".as_slice()) {
            return;
        }
        let mut renamed = Vec::new(alloc);
        let is_whole = renamed.extend_from_slice(new.as_bytes()).is_ok()
            && renamed.extend_from_slice(behind).is_ok();
        if is_whole {
            self.bytes = renamed;
        }
    }

    /// The line with its newline. A `?` replaces each byte of a file's name that is no printable character.
    pub fn printable(&mut self) -> &[u8] {
        let count = self.bytes.len();
        for (index, byte) in self.bytes.iter_mut().enumerate() {
            let is_last = index + 1 == count;
            if !is_last && (*byte < 0x20 || *byte == 0x7f) {
                *byte = b'?';
            }
        }
        self.bytes.as_slice()
    }
}

impl Write for Line {
    fn write(&mut self, buf: &[u8]) -> io::Result<usize> {
        match self.bytes.extend_from_slice(buf) {
            Ok(()) => Ok(buf.len()),
            Err(_) => {
                self.is_cut = true;
                Err(io::Error::from(ErrorKind::OutOfMemory))
            }
        }
    }

    fn flush(&mut self) -> io::Result<()> {
        Ok(())
    }
}
