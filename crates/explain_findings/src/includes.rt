//! Which file includes which.

use crate::finding::{Note, Topic};
use crate::sources::Sources;
use explain_places::Tokens;
use std::alloc::{AllocError, Global};

/// Which `#include` leads to each file, from the main file on.
#[derive(Drop)]
pub struct Includes {
    // For each file, the number of the file that includes it, and the line there.
    by: Vec<Option<(usize, u32)>>,
    main: usize,
}

impl Includes {
    /// The includes of these files from the one of this number on, in their order, whatever their conditions.
    pub fn of(alloc: Global, sources: &Sources, main: usize) -> Result<Includes, AllocError> {
        let mut includes = Includes {
            by: Vec::new(alloc),
            main,
        };
        includes.by.resize(sources.files.len(), None)?;
        let mut found = vec![in alloc; main]?;
        for turn in 0..sources.files.len() {
            match found.get(turn).copied() {
                Some(file) => includes.follow(alloc, sources, file, &mut found)?,
                None => break,
            }
        }
        Ok(includes)
    }

    /// Notes the files that this one includes, and that were not met yet.
    fn follow(
        &mut self,
        alloc: Global,
        sources: &Sources,
        file: usize,
        found: &mut Vec<usize>,
    ) -> Result<(), AllocError> {
        let Some(tokens) = Tokens::of(alloc, sources.text(file))? else {
            return Ok(());
        };
        for (number, spot) in tokens.spots.iter().enumerate() {
            if let Some(to) = included(sources, &tokens, number) {
                if to != self.main && self.notes(to, file, spot.line) {
                    found.push(to)?;
                }
            }
        }
        Ok(())
    }

    /// Notes the file that includes a file; returns whether that is new.
    fn notes(&mut self, to: usize, file: usize, line: u32) -> bool {
        match self.by.get_mut(to) {
            Some(entry) if entry.is_none() => {
                *entry = Some((file, line));
                true
            }
            _ => false,
        }
    }

    /// Whether nothing includes this file, which is not the main one.
    pub fn passes_by(&self, file: usize) -> bool {
        file != self.main && matches!(self.by.get(file), Some(None))
    }

    /// Puts a note for each `#include` that leads to this file, the nearest first.
    pub fn put_notes(
        &self,
        alloc: Global,
        sources: &Sources,
        file: usize,
        notes: &mut Vec<Note>,
    ) -> Result<(), AllocError> {
        let mut at = file;
        for _ in 0..self.by.len() {
            let Some((from, line)) = self.by.get(at).copied().flatten() else {
                break;
            };
            notes.push(Note {
                topic: Topic::Included,
                file: String::from_str(alloc, sources.name(from))?,
                line,
                column: 0,
                text: String::from_str(alloc, "included from here")?,
            })?;
            at = from;
        }
        Ok(())
    }
}

/// The number of the file that is included by the directive whose `#` has this number.
fn included(sources: &Sources, tokens: &Tokens<'_>, hash: usize) -> Option<usize> {
    let spot = tokens.spot(hash)?;
    if !spot.in_directive || !spot.is_first {
        return None;
    }
    if tokens.spelling(hash.saturating_add(1)) != b"include".as_slice() {
        return None;
    }
    let header = tokens.spelling(hash.saturating_add(2));
    let name = header.strip_prefix(b"\"")?.strip_suffix(b"\"")?;
    sources
        .files
        .iter()
        .position(|file| file.name.as_bytes() == name)
}
