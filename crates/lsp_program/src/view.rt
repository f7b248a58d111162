//! The names of a program, as requests use them.

use crate::unit_files::{Origin, UnitFile};
use lsp_budget::work_of;
use lsp_names::{Index, Lookup, Place, Source, Symbol, SymbolKind};
use lsp_text::{Encoding, Position, Span};
use std::alloc::{AllocError, Global};

/// The subject of a request: a file of a program, and an offset in it.
#[derive(Clone, Copy)]
pub struct Spot {
    pub file: usize,
    pub offset: usize,
}

/// A program with its names.
#[derive(Drop)]
pub struct View {
    pub files: Vec<UnitFile>,
    pub index: Index,
    pub encoding: Encoding,
    /// The work of its preprocessing, as `lsp_budget::work_of` estimates it.
    pub work: u64,
}

/// The work up to which a program is given to the compiler: some seconds.
pub const MAX_WORK: u64 = 16_000_000;

impl View {
    /// Indexes the files of a program.
    pub fn of(alloc: Global, files: Vec<UnitFile>, encoding: Encoding) -> Result<View, AllocError> {
        let index = index_of(alloc, files.as_slice())?;
        let work = work_of(alloc, &index, files.len())?;
        Ok(View {
            files,
            index,
            encoding,
            work,
        })
    }

    /// Whether the program is given to the compiler.
    pub fn is_within_budget(&self) -> bool {
        self.work <= MAX_WORK
    }

    /// The path of the main file; empty where there is none.
    pub fn root(&self) -> &str {
        match self.files.first() {
            Some(file) => file.path.as_str(),
            None => "",
        }
    }

    /// The name under which a file is included.
    pub fn file_name(&self, number: usize) -> &str {
        match self.files.get(number) {
            Some(file) => file.name.as_str(),
            None => "",
        }
    }

    /// The number of the file with this URI.
    pub fn number(&self, path: &str) -> Option<usize> {
        if path.is_empty() {
            return None;
        }
        self.files
            .iter()
            .position(|file| file.path.as_str() == path)
    }

    /// A place at which names are to be looked up.
    pub fn lookup(&self, spot: Spot) -> Lookup {
        self.index.lookup(spot.file, spot.offset)
    }

    /// Whether `(` directly follows the name of a macro where it is defined.
    pub fn has_parameters(&self, symbol: &Symbol) -> bool {
        let behind = Place {
            file: symbol.at.file,
            start: symbol.at.end,
            end: symbol.at.end.saturating_add(1),
        };
        symbol.kind == SymbolKind::Macro && self.bytes(behind) == b"(".as_slice()
    }

    /// The offset of a position in a file.
    pub fn offset(&self, number: usize, position: Position) -> usize {
        match self.files.get(number) {
            Some(file) => file
                .lines
                .offset(file.text.as_slice(), position, self.encoding),
            None => 0,
        }
    }

    /// The positions of a place.
    pub fn span(&self, place: Place) -> Span {
        match self.files.get(place.file) {
            Some(file) => {
                file.lines.span(file.text.as_slice(), place.start, place.end, self.encoding)
            }
            None => beginning(),
        }
    }

    /// The path of a file; empty where no person wrote it.
    pub fn path(&self, number: usize) -> &str {
        match self.files.get(number) {
            Some(file) => file.path.as_str(),
            None => "",
        }
    }

    /// The bytes of a line before an offset in it.
    pub fn line_before(&self, number: usize, offset: usize) -> &[u8] {
        let Some(file) = self.files.get(number) else {
            return &[];
        };
        let begin = Position {
            line: u32::try_from(file.lines.line_of(offset)).unwrap_or(u32::MAX),
            character: 0,
        };
        let start = file
            .lines
            .offset(file.text.as_slice(), begin, self.encoding);
        file.text.as_slice().get(start..offset).unwrap_or_default()
    }

    /// The URI of a file; `None` for a built-in header.
    pub fn uri(&self, number: usize) -> Option<&str> {
        let file = self.files.get(number)?;
        if file.path.is_empty() {
            return None;
        }
        Some(file.uri.as_str())
    }

    /// The bytes of a place.
    pub fn bytes(&self, place: Place) -> &[u8] {
        match self.files.get(place.file) {
            Some(file) => file
                .text
                .as_slice()
                .get(place.start..place.end)
                .unwrap_or_default(),
            None => &[],
        }
    }
}

/// The names, from the main file on, or from the one that has the macros of the options.
fn index_of(alloc: Global, files: &[UnitFile]) -> Result<Index, AllocError> {
    let mut sources = Vec::new(alloc);
    for file in files {
        sources.push(Source {
            name: file.name.as_str(),
            text: file.text.as_slice(),
        })?;
    }
    let main = match files.iter().position(|file| file.origin == Origin::Made) {
        Some(number) => number,
        None => 0,
    };
    Index::of(alloc, sources.as_slice(), main)
}

/// The empty range before the first character of a file.
pub fn beginning() -> Span {
    let start = Position {
        line: 0,
        character: 0,
    };
    Span { start, end: start }
}
