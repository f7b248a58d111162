//! The contents of a warning in each form.

use crate::files::{Files, Place};
use crate::placing::Placed;
use lint::Detail;
use srcset::Names;
use std::alloc::{AllocError, Global};

/// The names and files that warnings speak of.
#[derive(Drop)]
pub(crate) struct Told<'a> {
    pub(crate) names: Names,
    pub(crate) files: Files<'a>,
    pub(crate) list: Vec<Placed>,
}

impl<'a> Told<'a> {
    /// The name of the file of a warning.
    pub(crate) fn file_name(&self, placed: &Placed) -> &str {
        match placed.presumed {
            Some(number) => self.names.file_name(number),
            None => self.name_at(placed.place),
        }
    }

    /// The name of the file of a place.
    pub(crate) fn name_at(&self, place: Place) -> &str {
        match self.files.list.get(place.file) {
            Some(file) => file.name,
            None => "",
        }
    }

    /// The column of a place in bytes, counted from 1; 0 where it is not known.
    pub(crate) fn column(&self, place: Place) -> usize {
        if place.end == 0 {
            return 0;
        }
        match self.line(place) {
            Some((before, _)) => place.start.saturating_sub(before).saturating_add(1),
            None => 0,
        }
    }

    /// The source line of a place; empty where it is not shown.
    pub(crate) fn source(&self, place: Place) -> &[u8] {
        match self.line(place) {
            Some((_, bytes)) => bytes,
            None => &[],
        }
    }

    /// How many bytes precede the line of a place, and its bytes.
    fn line(&self, place: Place) -> Option<(usize, &[u8])> {
        self.files.list.get(place.file)?.line(place.line)
    }

    /// The token of a place; empty where it is not known.
    pub(crate) fn token(&self, place: Place) -> &[u8] {
        self.files
            .bytes(place.file)
            .get(place.start..place.end)
            .unwrap_or_default()
    }

    /// The text of a warning, with its subject.
    pub(crate) fn message(&self, alloc: Global, placed: &Placed) -> Result<String, AllocError> {
        let mut text = String::from_str(alloc, placed.kind.text())?;
        put_detail(alloc, placed.detail, &mut text)?;
        let subject = self.subject(alloc, placed)?;
        if !subject.is_empty() {
            text.push_str(" '")?;
            text.push_str(subject.as_str())?;
            text.push_str("'")?;
        }
        Ok(text)
    }

    /// The name that a warning is about, or its token; empty where neither is known.
    pub(crate) fn subject(&self, alloc: Global, placed: &Placed) -> Result<String, AllocError> {
        match placed.name {
            Some(number) => String::from_str(alloc, self.names.shown_text(number)),
            None => shown_bytes(alloc, self.token(placed.place)),
        }
    }

    /// The place of the other declaration of which a warning speaks.
    pub(crate) fn other(&self, placed: &Placed) -> Option<Place> {
        match placed.detail {
            Detail::Other(pos) => Some(self.files.place(self.names.file_name(pos.file), pos.line)),
            _ => None,
        }
    }
}

/// Prints the detail of a warning after the text of its kind.
fn put_detail(alloc: Global, detail: Detail, out: &mut String) -> Result<(), AllocError> {
    match detail {
        Detail::Nothing | Detail::Other(_) => Ok(()),
        Detail::Index(index, length) => {
            out.push_str(format!(in alloc; ": index {index} of {length} elements")?.as_str())
        }
        Detail::Always(true) => out.push_str(": it always holds"),
        Detail::Always(false) => out.push_str(": it never holds"),
    }
}

/// Bytes as text.
pub(crate) fn shown_bytes(alloc: Global, bytes: &[u8]) -> Result<String, AllocError> {
    let text = String::from_utf8_lossy(alloc, bytes)?;
    String::from_str(alloc, text.as_str())
}
