//! Frames: a header with the length of a body, an empty line, the body.

use std::alloc::{AllocError, Global};

/// The most bytes that a body may have. A longer one is skipped.
pub const MAX_BODY_BYTES: usize = 33_554_432;

/// The most bytes that a header may have.
pub const MAX_HEADER_BYTES: usize = 4_096;

/// The end of a header.
const HEADER_END: &[u8; 4] = b"\r\n\r\n";

/// The next item in the bytes of a client.
#[derive(Drop)]
pub enum Frame {
    /// The body of a message.
    Body(Vec<u8>),
    /// A header that is too long, or has no `Content-Length` that is a number.
    WrongHeader,
    /// A body of more than `MAX_BODY_BYTES`.
    TooLong,
}

/// The bytes of a client that are not read yet.
#[derive(Drop)]
pub struct Inbox {
    alloc: Global,
    held: Vec<u8>,
    /// How many bytes that come next belong to a body that is too long.
    skipped: usize,
}

impl Inbox {
    /// Makes an inbox without bytes.
    pub fn new(alloc: Global) -> Inbox {
        Inbox {
            alloc,
            held: Vec::new(alloc),
            skipped: 0,
        }
    }

    /// Adds bytes in the order of their arrival. Fails where memory runs out.
    pub fn put(&mut self, bytes: &[u8]) -> Result<(), AllocError> {
        let passed = self.skipped.min(bytes.len());
        self.skipped = self.skipped.saturating_sub(passed);
        self.held
            .extend_from_slice(bytes.get(passed..).unwrap_or_default())
    }

    /// Removes and returns the next frame; `None` where its bytes are not all there. Fails where memory runs out.
    pub fn take(&mut self) -> Result<Option<Frame>, AllocError> {
        let Some(end) = header_end(self.held.as_slice()) else {
            return self.take_long_header();
        };
        let start = end.saturating_add(HEADER_END.len());
        match body_length(self.held.get(..end).unwrap_or_default()) {
            Some(length) if length <= MAX_BODY_BYTES => self.take_body(start, length),
            Some(length) => self.pass(start, length),
            None => {
                self.drop_front(start)?;
                Ok(Some(Frame::WrongHeader))
            }
        }
    }

    /// Discards all bytes where they are more than a header may have.
    fn take_long_header(&mut self) -> Result<Option<Frame>, AllocError> {
        if self.held.len() <= MAX_HEADER_BYTES {
            return Ok(None);
        }
        self.held = Vec::new(self.alloc);
        Ok(Some(Frame::WrongHeader))
    }

    /// Removes and returns a body of this length.
    fn take_body(&mut self, start: usize, length: usize) -> Result<Option<Frame>, AllocError> {
        let end = start.saturating_add(length);
        let Some(bytes) = self.held.get(start..end) else {
            return Ok(None);
        };
        let body = Vec::from_slice(self.alloc, bytes)?;
        self.drop_front(end)?;
        Ok(Some(Frame::Body(body)))
    }

    /// Skips a body of this length, some bytes of which may not have arrived yet.
    fn pass(&mut self, start: usize, length: usize) -> Result<Option<Frame>, AllocError> {
        let end = start.saturating_add(length);
        let held = self.held.len();
        self.drop_front(end.min(held))?;
        self.skipped = end.saturating_sub(held);
        Ok(Some(Frame::TooLong))
    }

    /// Removes the first bytes.
    fn drop_front(&mut self, count: usize) -> Result<(), AllocError> {
        let rest = self.held.get(count..).unwrap_or_default();
        self.held = Vec::from_slice(self.alloc, rest)?;
        Ok(())
    }
}

/// The number of bytes before the empty line that ends a header.
fn header_end(bytes: &[u8]) -> Option<usize> {
    let head = bytes.get(..MAX_HEADER_BYTES).unwrap_or(bytes);
    head.windows(4)
        .position(|part| part == HEADER_END.as_slice())
}

/// The length of the body that a header announces; the last one counts.
fn body_length(header: &[u8]) -> Option<usize> {
    let Ok(text) = str::from_utf8(header) else {
        return None;
    };
    let mut length = None;
    for line in text.split("\r\n") {
        if let Some((name, value)) = line.split_once(':') {
            if name.trim().eq_ignore_ascii_case("content-length") {
                length = value.trim().parse::<usize>().ok();
            }
        }
    }
    length
}

/// A body with the header that announces it.
pub fn framed(alloc: Global, body: &str) -> Result<String, AllocError> {
    let length = body.len();
    let mut out = format!(in alloc; "Content-Length: {length}\r\n\r\n")?;
    out.push_str(body)?;
    Ok(out)
}
