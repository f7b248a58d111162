//! The names of a set of files.

use crate::folding::{Fold, folds};
use crate::scanner::Scanner;
use crate::symbols::{Lookup, Mention, Parameter, Place, Role, Symbol, SymbolKind, Unresolved};
use crate::table::Table;
use crate::walking::{File, Stretch, walk_files, words_at};
use crate::words::{Word, words_of};
use srcset::Names;
use std::alloc::{AllocError, Global};

/// A file: its name as an `#include` has it, without quotes, and its text.
#[derive(Clone, Copy)]
pub struct Source<'a> {
    pub name: &'a str,
    pub text: &'a [u8],
}

/// The names of a set of files, with the meaning of each.
#[derive(Drop)]
pub struct Index {
    names: Names,
    files: Vec<File>,
    /// In which order the tokens of the files were read.
    stretches: Vec<Stretch>,
    /// The symbols, in the order in which they were met.
    pub symbols: Vec<Symbol>,
    /// The mentions of symbols, by file and place.
    pub mentions: Vec<Mention>,
    /// The names that mean no symbol that is known, as those of a missing header.
    pub unresolved: Vec<Unresolved>,
    parameters: Vec<Parameter>,
}

impl Index {
    /// Finds the names of files, from the one of number `main` on. A file that breaks a rule of translation phases 1 to 3 has none.
    /// Fails where memory runs out.
    pub fn of(alloc: Global, sources: &[Source<'_>], main: usize) -> Result<Index, AllocError> {
        let mut names = Names::new(alloc);
        let files = files_of(alloc, sources, &mut names)?;
        let table = Table::new(alloc, names.len())?;
        let mut scanner = Scanner::new(alloc, table, names.find(b"void".as_slice()));
        let stretches = walk_files(alloc, &mut scanner, &names, files.as_slice(), main)?;
        let mut table = scanner.table;
        table.resolve(alloc)?;
        Index::made(names, files, stretches, table)
    }

    fn made(
        names: Names,
        files: Vec<File>,
        stretches: Vec<Stretch>,
        table: Table,
    ) -> Result<Index, AllocError> {
        let found = table.found();
        let mut mentions = found.mentions;
        mentions.sort_unstable_by_key(|mention| (mention.place.file, mention.place.start));
        Ok(Index {
            names,
            files,
            stretches,
            symbols: found.symbols,
            mentions,
            unresolved: found.unresolved,
            parameters: found.parameters,
        })
    }

    /// The tokens of the file with this number.
    pub fn words(&self, file: usize) -> &[Word] {
        words_at(self.files.as_slice(), file)
    }

    /// The spelling with this number; empty where it is not UTF-8.
    pub fn spelling(&self, name: usize) -> &str {
        self.names.shown_text(name)
    }

    /// The name of a symbol.
    pub fn name(&self, symbol: usize) -> &str {
        match self.symbols.get(symbol) {
            Some(symbol) => self.spelling(symbol.name),
            None => "",
        }
    }

    /// Whether a token of some file is spelled so.
    pub fn has_spelling(&self, text: &str) -> bool {
        self.names.find(text.as_bytes()).is_some()
    }

    /// The mention of a symbol at an offset of a file.
    pub fn mention_at(&self, file: usize, offset: usize) -> Option<Mention> {
        let past = self
            .mentions
            .partition_point(|mention| mention.place.begins_by(file, offset));
        let last = self.mentions.get(past.checked_sub(1)?).copied()?;
        if last.place.touches(file, offset) {
            Some(last)
        } else {
            None
        }
    }

    /// The symbol of a function that has a parameter declared at a place, and the number of that parameter.
    pub fn function_with(&self, place: Place) -> Option<(&Symbol, usize)> {
        for symbol in &self.symbols {
            if symbol.kind == SymbolKind::Function {
                if let Some(number) = self.parameter_at(symbol, place) {
                    return Some((symbol, number));
                }
            }
        }
        None
    }

    /// The number of a function's parameter whose declaration has a place in it.
    fn parameter_at(&self, symbol: &Symbol, place: Place) -> Option<usize> {
        self.parameters(symbol)
            .iter()
            .position(|parameter| parameter.whole.contains(place))
    }

    /// Whether each macro has one definition, and none is undefined, so that each means the same after the whole program as where it is defined.
    pub fn are_macros_fixed(&self) -> bool {
        let mut defined: usize = 0;
        for mention in &self.mentions {
            if mention.role == Role::Declares && self.is_macro(mention.symbol) {
                defined = defined.saturating_add(1);
            }
        }
        let macros = self
            .symbols
            .iter()
            .filter(|symbol| symbol.kind == SymbolKind::Macro)
            .count();
        defined == macros && !self.has_spelling("undef")
    }

    fn is_macro(&self, symbol: usize) -> bool {
        match self.symbols.get(symbol) {
            Some(symbol) => symbol.kind == SymbolKind::Macro,
            None => false,
        }
    }

    /// The number of the file that a header's name in quotes or brackets denotes.
    pub fn file_of(&self, name: usize) -> Option<usize> {
        self.files
            .iter()
            .position(|other| other.quoted == name || other.bracketed == name)
    }

    /// The parameters of a function or a macro.
    pub fn parameters(&self, symbol: &Symbol) -> &[Parameter] {
        let end = symbol.first_parameter.saturating_add(symbol.parameters);
        self.parameters
            .get(symbol.first_parameter..end)
            .unwrap_or_default()
    }

    /// An offset of a file, at which names are to be looked up.
    pub fn lookup(&self, file: usize, offset: usize) -> Lookup {
        let count = self.words(file).partition_point(|word| word.end <= offset);
        Lookup {
            file,
            offset,
            read: self.read_before(file, count),
        }
    }

    /// How many tokens of the unit were read before the one of this number.
    fn read_before(&self, file: usize, number: usize) -> usize {
        let mut read = 0;
        for stretch in &self.stretches {
            if stretch.file == file && stretch.first <= number {
                read = stretch
                    .before
                    .saturating_add(number.saturating_sub(stretch.first));
            }
        }
        read
    }

    /// Whether a symbol is in scope at a place.
    pub fn is_visible(&self, symbol: &Symbol, at: Lookup) -> bool {
        if symbol.kind == SymbolKind::MacroParameter || at.read < symbol.scope_begin {
            return false;
        }
        symbol.is_global || symbol.at.file == at.file && at.offset <= symbol.scope_end
    }

    /// Whether the body of a macro has the name of a symbol that is not the whole unit's, so that it may or may not mean it.
    pub fn is_in_macros(&self, symbol: &Symbol) -> bool {
        self.unresolved
            .iter()
            .any(|name| name.in_directive && name.name == symbol.name)
    }

    /// The parts of a file that take several lines.
    pub fn folds(&self, alloc: Global, file: usize) -> Result<Vec<Fold>, AllocError> {
        folds(alloc, &self.names, self.words(file))
    }

    /// The place of the header's name at an offset of a file, where an `#include` is there, and the number of the file that it names.
    pub fn included_at(&self, file: usize, offset: usize) -> Option<(Place, usize)> {
        let word = self.words(file).iter().find(|word| word.in_directive
            && word.start <= offset
            && offset <= word.end)?;
        let number = self.file_of(word.name)?;
        let place = Place {
            file,
            start: word.start,
            end: word.end,
        };
        Some((place, number))
    }
}

/// The tokens of all files.
fn files_of(
    alloc: Global,
    sources: &[Source<'_>],
    names: &mut Names,
) -> Result<Vec<File>, AllocError> {
    let mut files = Vec::new(alloc);
    for source in sources {
        let name = source.name;
        let quoted = number_of(names, format!(in alloc; "\"{name}\"")?.as_str())?;
        let bracketed = number_of(names, format!(in alloc; "<{name}>")?.as_str())?;
        let words = match words_of(alloc, source.text, names)? {
            Some(words) => words,
            None => Vec::new(alloc),
        };
        files.push(File {
            quoted,
            bracketed,
            words,
        })?;
    }
    Ok(files)
}

fn number_of(names: &mut Names, text: &str) -> Result<usize, AllocError> {
    match names.intern(text.as_bytes()) {
        Ok(number) => Ok(number),
        Err(_) => Err(AllocError),
    }
}
