//! The walk over the files of a unit, in the order in which the preprocessor includes them.

use crate::directives::{Step, directive};
use crate::scanner::{At, Scanner};
use crate::words::{Class, Word};
use srcset::Names;
use std::alloc::{AllocError, Global};

/// The tokens of a file under its name.
#[derive(Drop)]
pub(crate) struct File {
    /// The number of its name, with the quotes or brackets that an `#include` has.
    pub(crate) quoted: usize,
    pub(crate) bracketed: usize,
    pub(crate) words: Vec<Word>,
}

/// How far a file is read.
#[derive(Clone, Copy)]
struct Reader {
    file: usize,
    next: usize,
}

/// A walk over files, each of them once.
#[derive(Drop)]
struct Walk {
    readers: Vec<Reader>,
    seen: Vec<bool>,
    /// The stretches that were begun, and the file of the last one.
    stretches: Vec<Stretch>,
    last: Option<usize>,
}

/// Tokens of a file that are read in a row.
#[derive(Clone, Copy)]
pub(crate) struct Stretch {
    pub(crate) file: usize,
    /// The number of the first token.
    pub(crate) first: usize,
    /// How many tokens of all files were read before it.
    pub(crate) before: usize,
}

/// Walks over all files, from the main one on; files that nothing includes come last. Returns the stretches in their order.
pub(crate) fn walk_files(
    alloc: Global,
    scanner: &mut Scanner,
    names: &Names,
    files: &[File],
    main: usize,
) -> Result<Vec<Stretch>, AllocError> {
    let mut walk = Walk {
        readers: Vec::new(alloc),
        seen: Vec::new(alloc),
        stretches: Vec::new(alloc),
        last: None,
    };
    walk.seen.resize(files.len(), false)?;
    walk.enter(main)?;
    walk.run(scanner, names, files)?;
    for number in 0..files.len() {
        walk.enter(number)?;
        walk.run(scanner, names, files)?;
    }
    Ok(walk.stretches)
}

impl Walk {
    /// Begins with a file, unless it was read.
    fn enter(&mut self, number: usize) -> Result<(), AllocError> {
        let Some(seen) = self.seen.get_mut(number) else {
            return Ok(());
        };
        if *seen {
            return Ok(());
        }
        *seen = true;
        self.readers.push(Reader {
            file: number,
            next: 0,
        })?;
        Ok(())
    }

    /// Reads on until no file is left that was begun.
    fn run(
        &mut self,
        scanner: &mut Scanner,
        names: &Names,
        files: &[File],
    ) -> Result<(), AllocError> {
        for _ in 0..steps_of(files) {
            let Some(reader) = self.readers.pop() else {
                return Ok(());
            };
            self.read(scanner, names, files, reader)?;
        }
        Ok(())
    }

    /// Reads a token or a directive of a file.
    fn read(
        &mut self,
        scanner: &mut Scanner,
        names: &Names,
        files: &[File],
        reader: Reader,
    ) -> Result<(), AllocError> {
        let words = words_at(files, reader.file);
        self.note_stretch(reader, scanner.table.read)?;
        let Some(word) = words.get(reader.next).copied() else {
            return Ok(());
        };
        if !word.in_directive {
            let next = reader.next.saturating_add(1);
            self.go_on(reader.file, next)?;
            scanner.table.count(1);
            return scanner.step(At {
                file: reader.file,
                word,
                next: next_class(words.get(next..).unwrap_or_default()),
            });
        }
        let line = directive_line(words.get(reader.next..).unwrap_or_default());
        self.go_on(reader.file, reader.next.saturating_add(line.len().max(1)))?;
        scanner.table.count(line.len());
        match directive(&mut scanner.table, names, reader.file, line)? {
            Step::Pass => Ok(()),
            Step::Include(name) => self.include(files, name),
        }
    }

    /// Begins a stretch, unless the file of the last one continues.
    fn note_stretch(&mut self, reader: Reader, before: usize) -> Result<(), AllocError> {
        if self.last == Some(reader.file) {
            return Ok(());
        }
        self.last = Some(reader.file);
        self.stretches.push(Stretch {
            file: reader.file,
            first: reader.next,
            before,
        })?;
        Ok(())
    }

    fn go_on(&mut self, file: usize, next: usize) -> Result<(), AllocError> {
        self.readers.push(Reader { file, next })?;
        Ok(())
    }

    /// Begins with the file of a name in quotes or brackets.
    fn include(&mut self, files: &[File], name: Word) -> Result<(), AllocError> {
        let found = files.iter().position(|file| file.quoted == name.name
            || file.bracketed == name.name);
        match found {
            Some(number) => self.enter(number),
            None => Ok(()),
        }
    }
}

/// The tokens of the file with this number.
pub(crate) fn words_at(files: &[File], number: usize) -> &[Word] {
    match files.get(number) {
        Some(file) => file.words.as_slice(),
        None => &[],
    }
}

/// How many steps a walk takes at most: one for each token, and one for the end of each file.
fn steps_of(files: &[File]) -> usize {
    let mut count = files.len().saturating_add(1);
    for file in files {
        count = count.saturating_add(file.words.len());
    }
    count
}

/// The class of the first token that is in no directive.
fn next_class(words: &[Word]) -> Class {
    match words.iter().find(|word| !word.in_directive) {
        Some(word) => word.class,
        None => Class::Other,
    }
}

/// The tokens of the directive with which this begins.
fn directive_line(words: &[Word]) -> &[Word] {
    let rest = words.get(1..).unwrap_or_default();
    let end = match rest.iter().position(|word| word.is_first) {
        Some(count) => count.saturating_add(1),
        None => words.len(),
    };
    words.get(..end).unwrap_or(words)
}
