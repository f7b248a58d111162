//! The lines of the sources between the instructions of a listing.

use srcset::FileSet;
use std::alloc::{AllocError, Global};
use symbol_table::{Function, Line, SymbolTable};

/// The lines of the sources at the addresses of their code, which are requested in the order of rising addresses.
#[derive(Drop)]
pub(crate) struct SourceLines<'l> {
    table: &'l SymbolTable,
    /// For each file of the table the texts of its lines; none where the set has no file of that name.
    texts: Vec<Vec<&'l str>>,
    /// The function and how many of its lines were passed.
    function: usize,
    passed: usize,
    /// The line that was printed last.
    last: Option<(usize, u32)>,
}

impl<'l> SourceLines<'l> {
    pub(crate) fn new(
        alloc: Global,
        table: &'l SymbolTable,
        set: &'l FileSet,
    ) -> Result<SourceLines<'l>, AllocError> {
        let mut texts = Vec::with_capacity(alloc, table.files.len())?;
        for file in &table.files {
            texts.push(lines_of(alloc, set.get(file.as_str()).unwrap_or_default())?)?;
        }
        Ok(SourceLines {
            table,
            texts,
            function: 0,
            passed: 0,
            last: None,
        })
    }

    /// Appends the line whose code begins at an address, but none twice in a row. Of statements that begin at one address it is the
    /// last: those before it have no code of their own.
    pub(crate) fn put_at(
        &mut self,
        alloc: Global,
        address: u32,
        text: &mut String,
    ) -> Result<(), AllocError> {
        self.enter(address);
        let table = self.table;
        let Some(function) = table.functions.get(self.function) else {
            return Ok(());
        };
        let mut begun = None;
        for line in function.lines.get(self.passed..).unwrap_or_default() {
            if line.address > address {
                break;
            }
            self.passed = self.passed.saturating_add(1);
            begun = Some(*line);
        }
        match begun {
            Some(line) => self.put(alloc, line, text),
            None => Ok(()),
        }
    }

    /// Advances to the next function where it begins at this address.
    fn enter(&mut self, address: u32) {
        let next = self.function.saturating_add(1);
        if begins_at(self.table.functions.get(next), address) {
            self.function = next;
            self.passed = 0;
        }
    }

    fn put(&mut self, alloc: Global, line: Line, text: &mut String) -> Result<(), AllocError> {
        if self.last == Some((line.file, line.line)) {
            return Ok(());
        }
        self.last = Some((line.file, line.line));
        let name = match self.table.files.get(line.file) {
            Some(name) => name.as_str(),
            None => "",
        };
        let number = line.line;
        text.push_str(format!(in alloc; "# {name}:{number}")?.as_str())?;
        if let Some(source) = self.source(line) {
            text.push_str("  ")?;
            text.push_str(source)?;
        }
        text.push_str("\n")
    }

    /// The text of a line, without spaces at its end.
    fn source(&self, line: Line) -> Option<&'l str> {
        let number = (line.line as usize).checked_sub(1)?;
        let source = *self.texts.get(line.file)?.get(number)?;
        Some(source.trim_end())
    }
}

fn begins_at(function: Option<&Function>, address: u32) -> bool {
    match function {
        Some(function) => function.start == address,
        None => false,
    }
}

/// The lines of a file; none of a file that is not UTF-8.
fn lines_of<'f>(alloc: Global, bytes: &'f [u8]) -> Result<Vec<&'f str>, AllocError> {
    let mut lines = Vec::new(alloc);
    if let Ok(text) = str::from_utf8(bytes) {
        for line in text.lines() {
            lines.push(line)?;
        }
    }
    Ok(lines)
}
