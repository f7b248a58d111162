//! The files of a program, with a token a line.

use explain_places::{Spot, Tokens};
use lint_sources::{LaidFile, keeps_lines, laid_file};
use srcset::{Code, Fault, FileSet};
use std::alloc::{AllocError, Global};

/// The most bytes of a line that is shown, and in which columns are counted: so a warning takes no more time in a file of one long line.
const MAX_SHOWN: usize = 4096;

/// A file, with the places of its tokens.
#[derive(Drop)]
pub struct File<'a> {
    pub name: &'a str,
    pub bytes: &'a [u8],
    /// None where it breaks a rule of phases 1 to 3, as one that no file includes may.
    pub tokens: Option<Tokens<'a>>,
    laid: Option<LaidFile>,
    // How many bytes precede each line.
    starts: Vec<usize>,
}

/// The files of a program.
#[derive(Drop)]
pub struct Files<'a> {
    pub list: Vec<File<'a>>,
    /// Whether lines are those of the files as they are laid out.
    pub is_laid: bool,
}

/// The place of a token.
#[derive(Clone, Copy, Debug, PartialEq, Eq)]
pub struct Place {
    /// The number of its file; past all of them where that is not known.
    pub file: usize,
    /// The line, counted from 1.
    pub line: u32,
    /// How many bytes of the file precede it, and its end; both 0 where the token is not known.
    pub start: usize,
    pub end: usize,
}

impl<'a> Files<'a> {
    /// The files of a set that have these names. The file `made` is one that no person wrote.
    pub fn of(
        alloc: Global,
        set: &'a FileSet,
        names: &'a [&'a str],
        made: &str,
    ) -> Result<Files<'a>, AllocError> {
        let mut list = Vec::new(alloc);
        let mut is_laid = true;
        for name in names {
            let bytes = set.get(name).unwrap_or_default();
            let file = file_of(alloc, name, bytes, *name == made)?;
            is_laid = is_laid && file.may_be_laid(made);
            list.push(file)?;
        }
        Ok(Files { list, is_laid })
    }

    /// The set of the files as they are laid out; `None` where a set does not take one of them.
    pub fn laid_set(&self, alloc: Global) -> Result<Option<FileSet>, AllocError> {
        let mut set = FileSet::new(alloc);
        for file in &self.list {
            if !add(alloc, &mut set, file.name, file.laid_bytes())? {
                return Ok(None);
            }
        }
        Ok(Some(set))
    }

    /// The number of the file of a name; past all of them where there is none.
    pub fn number(&self, name: &str) -> usize {
        match self.list.iter().position(|file| file.name == name) {
            Some(number) => number,
            None => self.list.len(),
        }
    }

    /// The place of a line of a file of this name.
    pub fn place(&self, name: &str, line: u32) -> Place {
        let number = self.number(name);
        let spot = match self.list.get(number) {
            Some(file) if self.is_laid => file.spot_on(line),
            _ => None,
        };
        place_at(number, line, spot)
    }

    /// The bytes of the file with this number.
    pub(crate) fn bytes(&self, number: usize) -> &[u8] {
        match self.list.get(number) {
            Some(file) => file.bytes,
            None => &[],
        }
    }
}

impl<'a> File<'a> {
    /// Whether it was laid out, and its lines mean nothing. The file that no person wrote stays as it is.
    fn may_be_laid(&self, made: &str) -> bool {
        self.name == made || self.laid.is_some()
    }

    /// Its bytes as it is laid out.
    fn laid_bytes(&self) -> &[u8] {
        match &self.laid {
            Some(laid) => laid.text.as_slice(),
            None => self.bytes,
        }
    }

    /// The token on a line of the file as it is laid out.
    fn spot_on(&self, line: u32) -> Option<Spot> {
        let number = self.token_on(line)?;
        self.spot(number)
    }

    /// The number of that token.
    pub(crate) fn token_on(&self, line: u32) -> Option<usize> {
        match &self.laid {
            Some(laid) => laid.token_on(line),
            None => None,
        }
    }

    /// How many bytes precede a line, and its bytes without their end; `None` where there is no such line, or it is too long to be shown.
    pub fn line(&self, line: u32) -> Option<(usize, &[u8])> {
        let number = (line as usize).checked_sub(1)?;
        let start = self.starts.get(number).copied()?;
        let end = match self.starts.get(number.saturating_add(1)) {
            Some(next) => next.saturating_sub(1),
            None => self.bytes.len(),
        };
        let bytes = self.bytes.get(start..end)?;
        if bytes.len() > MAX_SHOWN {
            return None;
        }
        match bytes.strip_suffix(b"\r") {
            Some(shown) => Some((start, shown)),
            None => Some((start, bytes)),
        }
    }

    /// The place of the token with this number.
    pub(crate) fn spot(&self, number: usize) -> Option<Spot> {
        match &self.tokens {
            Some(tokens) => tokens.spot(number),
            None => None,
        }
    }
}

/// The place of a token in the file with this number, or of the line alone.
pub(crate) fn place_at(file: usize, line: u32, spot: Option<Spot>) -> Place {
    match spot {
        Some(spot) => Place {
            file,
            line: spot.line,
            start: spot.start,
            end: spot.end,
        },
        None => Place {
            file,
            line,
            start: 0,
            end: 0,
        },
    }
}

fn file_of<'a>(
    alloc: Global,
    name: &'a str,
    bytes: &'a [u8],
    is_made: bool,
) -> Result<File<'a>, AllocError> {
    let tokens = Tokens::of(alloc, bytes)?;
    let laid = match &tokens {
        Some(tokens) if !is_made => laid_of(alloc, bytes, tokens)?,
        _ => None,
    };
    Ok(File {
        name,
        bytes,
        tokens,
        laid,
        starts: line_starts(alloc, bytes)?,
    })
}

/// How many bytes precede each line.
fn line_starts(alloc: Global, bytes: &[u8]) -> Result<Vec<usize>, AllocError> {
    let mut starts = vec![in alloc; 0]?;
    for (number, byte) in bytes.iter().enumerate() {
        if *byte == b'\n' {
            starts.push(number.saturating_add(1))?;
        }
    }
    Ok(starts)
}

/// A file laid out, where its lines mean nothing.
fn laid_of(
    alloc: Global,
    bytes: &[u8],
    tokens: &Tokens<'_>,
) -> Result<Option<LaidFile>, AllocError> {
    if keeps_lines(tokens) {
        return Ok(None);
    }
    Ok(Some(laid_file(alloc, bytes, tokens)?))
}

/// Adds a copy of a file, or returns that it could not.
fn add(alloc: Global, set: &mut FileSet, name: &str, bytes: &[u8]) -> Result<bool, AllocError> {
    let text = Vec::from_slice(alloc, bytes)?;
    match set.add(name, text) {
        Ok(()) => Ok(true),
        Err(fault) => is_taken(&fault),
    }
}

/// Returns that a set does not take a file; a refused growth is an error.
fn is_taken(fault: &Fault) -> Result<bool, AllocError> {
    if fault.code == Code::OutOfMemory.number() {
        Err(AllocError)
    } else {
        Ok(false)
    }
}
