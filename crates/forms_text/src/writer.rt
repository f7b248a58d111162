//! Nodes as indented text or as JSON (RFC 8259).

use srcset::{Names, Pos};
use std::alloc::{AllocError, Global};

/// How nodes are written.
#[derive(Clone, Copy, Debug, PartialEq, Eq)]
pub enum Style {
    /// A node a line, its parts indented by two spaces.
    Text,
    /// A node an object, its parts an array in it.
    Json,
}

/// The keys that the text form omits, since the values show what they are.
const PLAIN: [&str; 11] = [
    "type",
    "op",
    "name",
    "specifier",
    "function",
    "value",
    "number",
    "at",
    "code",
    "text",
    "static",
];

/// Nodes that are being written, from the outermost on.
#[derive(Drop)]
pub struct Writer<'n> {
    pub(crate) alloc: Global,
    names: &'n Names,
    style: Style,
    /// For each node that is open, whether it has parts.
    open: Vec<bool>,
    text: String,
}

impl<'n> Writer<'n> {
    /// Before the first node.
    pub fn new(alloc: Global, names: &'n Names, style: Style) -> Writer<'n> {
        Writer {
            alloc,
            names,
            style,
            open: Vec::new(alloc),
            text: String::new(alloc),
        }
    }

    /// The text written, with a newline after it.
    pub fn into_text(mut self) -> Result<String, AllocError> {
        self.text.push_str("\n")?;
        Ok(self.text)
    }

    /// Begins a node.
    pub fn begin(&mut self, node: &str) -> Result<(), AllocError> {
        match self.style {
            Style::Text => self.put_indent()?,
            Style::Json => self.put_comma()?,
        }
        self.open.push(false)?;
        match self.style {
            Style::Text => self.text.push_str(node),
            Style::Json => {
                self.text.push_str("{\"node\":\"")?;
                self.text.push_str(node)?;
                self.text.push_str("\"")
            }
        }
    }

    /// Begins a node at a place.
    pub(crate) fn begin_at(&mut self, node: &str, at: Pos) -> Result<(), AllocError> {
        self.begin(node)?;
        self.place(at)
    }

    /// Ends the node that was begun last.
    pub fn end(&mut self) -> Result<(), AllocError> {
        let had_parts = self.open.pop().unwrap_or(false);
        if self.style == Style::Text {
            return Ok(());
        }
        self.text.push_str(if had_parts { "]}" } else { "}" })
    }

    /// A node without parts.
    pub(crate) fn leaf(&mut self, node: &str) -> Result<(), AllocError> {
        self.begin(node)?;
        self.end()
    }

    fn put_indent(&mut self) -> Result<(), AllocError> {
        if !self.text.is_empty() {
            self.text.push_str("\n")?;
        }
        for _ in 0..self.open.len() {
            self.text.push_str("  ")?;
        }
        Ok(())
    }

    /// The text before a part: the begin of the parts, or a comma.
    fn put_comma(&mut self) -> Result<(), AllocError> {
        let Some(last) = self.open.last_mut() else {
            return Ok(());
        };
        let had_parts = *last;
        *last = true;
        self.text
            .push_str(if had_parts { "," } else { ",\"parts\":[" })
    }

    /// A word that the node has.
    pub fn word(&mut self, key: &str, value: &str) -> Result<(), AllocError> {
        self.put_key(key)?;
        match self.style {
            Style::Text => self.text.push_str(value),
            Style::Json => self.put_quoted(value.as_bytes()),
        }
    }

    /// A name that the node has, by its number.
    pub fn name(&mut self, key: &str, number: usize) -> Result<(), AllocError> {
        let names = self.names;
        self.word(key, names.shown_text(number))
    }

    /// A number that the node has.
    pub(crate) fn number(&mut self, key: &str, value: i64) -> Result<(), AllocError> {
        self.put_key(key)?;
        self.text
            .push_str(format!(in self.alloc; "{value}")?.as_str())
    }

    /// A number that counts or numbers something.
    pub(crate) fn count(&mut self, key: &str, value: usize) -> Result<(), AllocError> {
        self.number(key, i64::try_from(value).unwrap_or(i64::MAX))
    }

    /// Bytes that the node has, in quotes.
    pub(crate) fn bytes(&mut self, key: &str, bytes: &[u8]) -> Result<(), AllocError> {
        self.put_key(key)?;
        self.put_quoted(bytes)
    }

    /// The place of the node.
    pub fn place(&mut self, at: Pos) -> Result<(), AllocError> {
        let names = self.names;
        let file = names.file_name(at.file);
        let line = at.line;
        match self.style {
            Style::Text => self
                .text
                .push_str(format!(in self.alloc; " [{file}:{line}]")?.as_str()),
            Style::Json => {
                self.word("file", file)?;
                self.number("line", i64::from(line))
            }
        }
    }

    fn put_key(&mut self, key: &str) -> Result<(), AllocError> {
        match self.style {
            Style::Text => self.put_plain_key(key),
            Style::Json => {
                self.text.push_str(",\"")?;
                self.text.push_str(key)?;
                self.text.push_str("\":")
            }
        }
    }

    fn put_plain_key(&mut self, key: &str) -> Result<(), AllocError> {
        self.text.push_str(" ")?;
        if PLAIN.contains(&key) {
            return Ok(());
        }
        self.text.push_str(key)?;
        self.text.push_str("=")
    }

    /// Bytes in quotes; all but printable ASCII as JSON escapes them.
    fn put_quoted(&mut self, bytes: &[u8]) -> Result<(), AllocError> {
        self.text.push_str("\"")?;
        for byte in bytes {
            self.put_byte(*byte)?;
        }
        self.text.push_str("\"")
    }

    fn put_byte(&mut self, byte: u8) -> Result<(), AllocError> {
        match byte {
            b'"' => self.text.push_str("\\\""),
            b'\\' => self.text.push_str("\\\\"),
            b'\n' => self.text.push_str("\\n"),
            b'\t' => self.text.push_str("\\t"),
            0x20..=0x7E => self.text.push(char::from(byte)),
            _ => {
                let code = u32::from(byte);
                self.text
                    .push_str(format!(in self.alloc; "\\u{code:04x}")?.as_str())
            }
        }
    }
}
