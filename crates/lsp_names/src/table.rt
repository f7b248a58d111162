//! The symbols of a set of files, with those that are in scope.

use crate::symbols::{Mention, Parameter, Place, Role, Symbol, SymbolKind, Unresolved};
use crate::words::Word;
use std::alloc::{AllocError, Global};

/// The meanings of names, and the symbols found so far.
#[derive(Drop)]
pub(crate) struct Table {
    pub(crate) symbols: Vec<Symbol>,
    pub(crate) mentions: Vec<Mention>,
    pub(crate) unresolved: Vec<Unresolved>,
    pub(crate) parameters: Vec<Parameter>,
    /// For each name, its meaning among ordinary identifiers, tags and macros (ISO/IEC 9899:2011 6.2.3).
    ordinary: Vec<Option<usize>>,
    tags: Vec<Option<usize>>,
    macros: Vec<Option<usize>>,
    /// For each name, whether it is a macro for a type.
    types: Vec<bool>,
    /// The symbols whose scope will end, the newest last.
    bound: Vec<usize>,
    /// The function whose parameters were begun last.
    function: Option<usize>,
    /// How many tokens were read.
    pub(crate) read: usize,
}

/// The contents of a declaration of a name.
#[derive(Clone, Copy)]
pub(crate) struct Declared {
    pub(crate) kind: SymbolKind,
    pub(crate) name: usize,
    pub(crate) at: Place,
    /// Where the declaration begins.
    pub(crate) begin: usize,
    pub(crate) is_global: bool,
}

/// The result of a walk.
#[derive(Drop)]
pub(crate) struct Found {
    pub(crate) symbols: Vec<Symbol>,
    pub(crate) mentions: Vec<Mention>,
    pub(crate) unresolved: Vec<Unresolved>,
    pub(crate) parameters: Vec<Parameter>,
}

impl Table {
    /// The symbols and mentions found.
    pub(crate) fn found(self) -> Found {
        Found {
            symbols: self.symbols,
            mentions: self.mentions,
            unresolved: self.unresolved,
            parameters: self.parameters,
        }
    }

    /// Makes a table without symbols for `names` names.
    pub(crate) fn new(alloc: Global, names: usize) -> Result<Table, AllocError> {
        let mut table = Table {
            symbols: Vec::new(alloc),
            mentions: Vec::new(alloc),
            unresolved: Vec::new(alloc),
            parameters: Vec::new(alloc),
            ordinary: Vec::new(alloc),
            tags: Vec::new(alloc),
            macros: Vec::new(alloc),
            types: Vec::new(alloc),
            bound: Vec::new(alloc),
            function: None,
            read: 0,
        };
        table.ordinary.resize(names, None)?;
        table.tags.resize(names, None)?;
        table.macros.resize(names, None)?;
        table.types.resize(names, false)?;
        Ok(table)
    }

    /// The meaning of a name where it is used, macros aside.
    pub(crate) fn meant(&self, name: usize, is_tag: bool) -> Option<usize> {
        let list = if is_tag { &self.tags } else { &self.ordinary };
        let number = list.get(name).copied().flatten()?;
        match self.meant_before(number) {
            Some(before) => Some(before),
            None => Some(number),
        }
    }

    /// The previous meaning of a symbol's name, while its own scope has not begun.
    fn meant_before(&self, number: usize) -> Option<usize> {
        let symbol = self.symbols.get(number)?;
        if symbol.has_begun {
            None
        } else {
            symbol.shadowed
        }
    }

    /// The macro of a name.
    pub(crate) fn macro_of(&self, name: usize) -> Option<usize> {
        self.macros.get(name).copied().flatten()
    }

    /// Whether a name is that of a macro for a type.
    pub(crate) fn is_type(&self, name: usize) -> bool {
        self.types.get(name).copied().unwrap_or(false)
    }

    /// Notes that a name is that of a macro for a type.
    pub(crate) fn note_type(&mut self, name: usize) {
        if let Some(entry) = self.types.get_mut(name) {
            *entry = true;
        }
    }

    /// Whether a symbol is the parameter of a macro.
    pub(crate) fn is_macro_parameter(&self, number: usize) -> bool {
        match self.symbols.get(number) {
            Some(symbol) => symbol.kind == SymbolKind::MacroParameter,
            None => false,
        }
    }

    /// Notes that `more` tokens were read.
    pub(crate) fn count(&mut self, more: usize) {
        self.read = self.read.saturating_add(more);
    }

    /// How many symbols have a scope that will end.
    pub(crate) fn mark(&self) -> usize {
        self.bound.len()
    }

    /// Notes a declaration; returns the symbol. A name that is declared again for the whole unit is the same symbol.
    pub(crate) fn declare(&mut self, declared: Declared) -> Result<usize, AllocError> {
        let number = match self.same(declared) {
            Some(number) => number,
            None => self.add(declared)?,
        };
        self.mention(declared.at, number, Role::Declares)?;
        Ok(number)
    }

    /// The symbol of an earlier declaration for the whole unit.
    fn same(&self, declared: Declared) -> Option<usize> {
        let number = match declared.kind {
            SymbolKind::Macro => self.macro_of(declared.name),
            SymbolKind::Tag => self.meant(declared.name, true),
            _ => self.meant(declared.name, false),
        }?;
        let known = self.symbols.get(number)?;
        if known.is_global && declared.is_global {
            Some(number)
        } else {
            None
        }
    }

    /// Adds a symbol and gives its name this meaning.
    fn add(&mut self, declared: Declared) -> Result<usize, AllocError> {
        let number = self.symbols.len();
        let whole = Place {
            file: declared.at.file,
            start: declared.begin.min(declared.at.start),
            end: declared.at.end,
        };
        let shadowed = self.give(declared, Some(number));
        self.symbols.push(Symbol {
            kind: declared.kind,
            name: declared.name,
            at: declared.at,
            head: whole,
            whole,
            is_global: declared.is_global,
            scope_begin: self.read,
            has_begun: has_no_declarator(declared.kind),
            scope_end: declared.at.end,
            is_defined: false,
            first_parameter: 0,
            parameters: 0,
            shadowed,
        })?;
        if !declared.is_global {
            self.bound.push(number)?;
        }
        Ok(number)
    }

    /// Gives a name a meaning; returns the one that it had.
    fn give(&mut self, declared: Declared, meaning: Option<usize>) -> Option<usize> {
        let list = match declared.kind {
            SymbolKind::Macro => &mut self.macros,
            SymbolKind::Tag => &mut self.tags,
            _ => &mut self.ordinary,
        };
        give_at(list, declared.name, meaning)
    }

    /// Ends the scopes of all symbols but the first `mark`; `end` is an offset in their file.
    pub(crate) fn unbind(&mut self, mark: usize, end: usize) {
        for _ in mark..self.bound.len() {
            if let Some(number) = self.bound.pop() {
                self.end_scope(number, end);
            }
        }
    }

    fn end_scope(&mut self, number: usize, end: usize) {
        let Some(symbol) = self.symbols.get_mut(number) else {
            return;
        };
        symbol.scope_end = end;
        let name = symbol.name;
        let shadowed = symbol.shadowed;
        if symbol.kind == SymbolKind::Tag {
            give_at(&mut self.tags, name, shadowed);
        } else {
            give_at(&mut self.ordinary, name, shadowed);
        }
    }

    /// Notes a name that means a symbol.
    pub(crate) fn mention(
        &mut self,
        place: Place,
        symbol: usize,
        role: Role,
    ) -> Result<(), AllocError> {
        self.mentions.push(Mention {
            place,
            symbol,
            role,
        })?;
        Ok(())
    }

    /// Notes the use of a name, of a tag or of another.
    pub(crate) fn use_name(
        &mut self,
        file: usize,
        word: Word,
        is_tag: bool,
    ) -> Result<(), AllocError> {
        let place = place_of(file, word);
        let found = match self.macro_of(word.name) {
            Some(number) => Some(number),
            None => self.meant(word.name, is_tag),
        };
        match found {
            Some(number) => self.mention(place, number, Role::Uses),
            None => self.leave(place, word),
        }
    }

    /// Begins the parameters of a function; those of an earlier declaration go.
    pub(crate) fn begin_parameters(&mut self, number: usize) {
        let first = self.parameters.len();
        if let Some(symbol) = self.symbols.get_mut(number) {
            symbol.first_parameter = first;
            symbol.parameters = 0;
        }
        self.function = Some(number);
    }

    /// Adds a parameter to the function whose parameters were begun last.
    pub(crate) fn add_parameter(&mut self, parameter: Parameter) -> Result<(), AllocError> {
        self.parameters.push(parameter)?;
        let Some(number) = self.function else {
            return Ok(());
        };
        if let Some(symbol) = self.symbols.get_mut(number) {
            symbol.parameters = symbol.parameters.saturating_add(1);
        }
        Ok(())
    }

    /// Notes that the first declarator of a symbol, or its enumerator, has ended.
    pub(crate) fn begin_scope(&mut self, number: usize) {
        let read = self.read;
        if let Some(symbol) = self.symbols.get_mut(number) {
            if !symbol.has_begun {
                symbol.has_begun = true;
                symbol.scope_begin = read;
            }
        }
    }

    /// Notes where the declaration of a symbol ends, if that is the one that is shown; returns the name of the symbol.
    pub(crate) fn end_whole(&mut self, number: usize, at: Place, end: usize) -> Option<usize> {
        let symbol = self.symbols.get_mut(number)?;
        if symbol.at == at {
            symbol.whole.end = end.max(at.end);
        }
        Some(symbol.name)
    }

    /// Notes where the declaration of a symbol ends without body and initialiser.
    pub(crate) fn end_head(&mut self, number: usize, at: Place, end: usize) {
        if let Some(symbol) = self.symbols.get_mut(number) {
            if symbol.at == at {
                symbol.head.end = end.max(at.end);
                symbol.whole.end = end.max(at.end);
            }
        }
    }

    /// Notes that the declaration of a name here, which begins so, is a definition.
    pub(crate) fn define(&mut self, number: usize, at: Place, begin: usize) {
        let Some(symbol) = self.symbols.get_mut(number) else {
            return;
        };
        if symbol.is_defined || symbol.kind == SymbolKind::Enumerator {
            return;
        }
        symbol.is_defined = true;
        if symbol.at != at {
            symbol.at = at;
            symbol.whole = Place {
                file: at.file,
                start: begin.min(at.start),
                end: at.end,
            };
            symbol.head = symbol.whole;
        }
    }

    /// Leaves a name for the end, when all symbols of the unit are known.
    pub(crate) fn leave(&mut self, place: Place, word: Word) -> Result<(), AllocError> {
        self.unresolved.push(Unresolved {
            place,
            name: word.name,
            in_directive: word.in_directive,
        })?;
        Ok(())
    }

    /// Gives names that were left the symbols of the unit; those that have none stay.
    pub(crate) fn resolve(&mut self, alloc: Global) -> Result<(), AllocError> {
        let mut left = Vec::new(alloc);
        for number in 0..self.unresolved.len() {
            let Some(name) = self.unresolved.get(number).copied() else {
                break;
            };
            let found = match self.macro_of(name.name) {
                Some(symbol) => Some(symbol),
                None => self.meant(name.name, false),
            };
            match found {
                Some(symbol) => self.mention(name.place, symbol, Role::Uses)?,
                None => left.push(name)?,
            }
        }
        self.unresolved = left;
        Ok(())
    }
}

/// Whether the scope of such a symbol begins where it is declared.
fn has_no_declarator(kind: SymbolKind) -> bool {
    matches!(
        kind,
        SymbolKind::Tag | SymbolKind::Macro | SymbolKind::MacroParameter
    )
}

/// The place of a token.
pub(crate) fn place_of(file: usize, word: Word) -> Place {
    Place {
        file,
        start: word.start,
        end: word.end,
    }
}

/// Writes an entry; returns its previous value.
fn give_at(list: &mut Vec<Option<usize>>, name: usize, meaning: Option<usize>) -> Option<usize> {
    let Some(entry) = list.get_mut(name) else {
        return None;
    };
    let before = *entry;
    *entry = meaning;
    before
}
