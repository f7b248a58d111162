//! What is found out about a fault: its place, notes and fixes.

use explain_places::source_line;
use srcset::{Fault, FileSet};
use std::alloc::{AllocError, Global};

/// The place of a fault in the sources.
#[derive(Clone, Copy)]
pub struct Place {
    /// The number of its file.
    pub file: usize,
    /// The number of bytes of the file before its token.
    pub start: usize,
    /// How many bytes there are up to the token's end.
    pub end: usize,
    /// The line of the token, counted from 1.
    pub line: u32,
    /// Its column, in bytes, counted from 1.
    pub column: usize,
}

/// The topic of a note.
#[derive(Clone, Copy, Debug, PartialEq, Eq)]
pub enum Topic {
    /// What was expected in place of the token, or is wrong with it.
    Expected,
    /// Another place that has to do with the fault, as an earlier declaration.
    Related,
    /// An `#include` that leads to the fault.
    Included,
    /// The macro that made the token.
    Macro,
    /// A call that is active, at the line that it has reached.
    Called,
    /// The values with which an operation is undefined.
    Value,
    /// A name that may have been meant.
    Suggestion,
    /// The text to write instead, or the arguments that the command takes.
    Hint,
}

/// A note on a fault. Its place is empty where it has none.
#[derive(Drop)]
pub struct Note {
    pub topic: Topic,
    pub file: String,
    /// The line, counted from 1; 0 where there is no place.
    pub line: u32,
    /// The column, in bytes, counted from 1; 0 where there is none.
    pub column: usize,
    pub text: String,
}

/// A place in a source line.
#[derive(Clone, Copy, Debug, PartialEq, Eq)]
pub struct Point {
    /// The line, counted from 1.
    pub line: u32,
    /// The column in bytes, counted from 1.
    pub column: usize,
    /// The column in code points of UTF-8, counted from 1.
    pub points: usize,
}

/// A change of the file that contains a fault: the text from `start` up to `end` becomes `text`.
#[derive(Drop)]
pub struct Fix {
    pub start: Point,
    pub end: Point,
    pub text: String,
}

/// The notes and fixes of a fault, in addition to its place.
#[derive(Drop)]
pub struct Noted {
    pub notes: Vec<Note>,
    /// The change that fixes the fault, where that is certain: none or one.
    pub fixes: Vec<Fix>,
}

/// A place, and what is shown with it in addition to the fault.
#[derive(Drop)]
pub struct Shown {
    /// The place of the token, where that is known.
    pub place: Option<Place>,
    /// The token, as it is written; empty where it is not known.
    pub token: Vec<u8>,
    /// The source line; empty where the file is not known, or the line has more than 4,096 bytes.
    pub source: Vec<u8>,
    pub notes: Vec<Note>,
    /// A change of the file that fixes the fault, where one is certain: none or one.
    pub fixes: Vec<Fix>,
}

/// A fault as it is explained.
#[derive(Drop)]
pub struct Finding {
    /// The fault that the compiler reports.
    pub fault: Fault,
    pub shown: Shown,
}

impl Noted {
    /// Nothing is known yet.
    pub fn new(alloc: Global) -> Noted {
        Noted {
            notes: Vec::new(alloc),
            fixes: Vec::new(alloc),
        }
    }

    /// Adds a text without a place.
    pub fn put_text(&mut self, alloc: Global, topic: Topic, text: &str) -> Result<(), AllocError> {
        if text.is_empty() {
            return Ok(());
        }
        put_note(alloc, &mut self.notes, topic, "", NOWHERE, text)
    }

    /// Adds a text about a place in a file.
    pub fn put_at(
        &mut self,
        alloc: Global,
        topic: Topic,
        file: &str,
        at: Point,
        text: &str,
    ) -> Result<(), AllocError> {
        put_note(alloc, &mut self.notes, topic, file, at, text)
    }

    /// Adds a change that fixes the fault.
    pub fn put_fix(
        &mut self,
        alloc: Global,
        start: Point,
        end: Point,
        text: &str,
    ) -> Result<(), AllocError> {
        let text = String::from_str(alloc, text)?;
        self.fixes.push(Fix { start, end, text })?;
        Ok(())
    }
}

/// No place.
const NOWHERE: Point = Point {
    line: 0,
    column: 0,
    points: 0,
};

fn put_note(
    alloc: Global,
    notes: &mut Vec<Note>,
    topic: Topic,
    file: &str,
    at: Point,
    text: &str,
) -> Result<(), AllocError> {
    notes.push(Note {
        topic,
        file: String::from_str(alloc, file)?,
        line: at.line,
        column: at.column,
        text: String::from_str(alloc, text)?,
    })?;
    Ok(())
}

/// The line and column of the byte after the first `place` bytes of a text.
pub fn point_at(text: &[u8], place: usize) -> Point {
    let before = text.get(..place).unwrap_or(text);
    let start = match before.iter().rposition(|byte| *byte == b'\n') {
        Some(newline) => newline.saturating_add(1),
        None => 0,
    };
    let row = before.get(start..).unwrap_or_default();
    Point {
        line: newlines(before).saturating_add(1),
        column: row.len().saturating_add(1),
        points: points(row).saturating_add(1),
    }
}

/// How many lines end in these bytes.
fn newlines(bytes: &[u8]) -> u32 {
    let mut count: u32 = 0;
    for byte in bytes {
        if *byte == b'\n' {
            count = count.saturating_add(1);
        }
    }
    count
}

/// How many code points begin in these bytes of UTF-8.
fn points(bytes: &[u8]) -> usize {
    let mut count: usize = 0;
    for byte in bytes {
        if *byte & 0xc0 != 0x80 {
            count = count.saturating_add(1);
        }
    }
    count
}

/// The most bytes of a source line that is shown.
const MAX_LINE: usize = 4096;

/// A source line; nothing where it is too long to be shown.
fn shown_line(line: &[u8]) -> &[u8] {
    if line.len() > MAX_LINE { &[] } else { line }
}

/// A place in a file of the set, or its line alone, as it is shown.
pub fn show_place(
    alloc: Global,
    set: &FileSet,
    file: &str,
    line: u32,
    place: Option<Place>,
    noted: Noted,
) -> Result<Shown, AllocError> {
    let text = set.get(file).unwrap_or_default();
    let (token, source) = match place {
        Some(at) => (
            text.get(at.start..at.end).unwrap_or_default(),
            source_line(text, at.line),
        ),
        None => (b"".as_slice(), source_line(text, line)),
    };
    Ok(Shown {
        place,
        token: Vec::from_slice(alloc, token)?,
        source: Vec::from_slice(alloc, shown_line(source))?,
        notes: noted.notes,
        fixes: noted.fixes,
    })
}
