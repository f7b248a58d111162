//! The names that are declared, and the uses of each.

use srcset::Pos;
use std::alloc::{AllocError, Global};

/// The kind of entity that a name denotes.
#[derive(Clone, Copy, Debug, PartialEq, Eq)]
pub(crate) enum Sort {
    /// An object of a block.
    Variable,
    /// A parameter that is a number.
    Parameter,
    /// A parameter that refers to an array.
    ArrayParameter,
    /// An object at file scope with internal linkage (6.2.2p3).
    StaticObject,
    /// Another object at file scope.
    SharedObject,
    /// A function with internal linkage that is defined.
    StaticFunction,
    /// Another function.
    SharedFunction,
    Enumerator,
}

impl Sort {
    /// Whether a declaration in a block hides it where a reader may mean it: functions are distinguished by their calls.
    pub(crate) fn is_hidden(self) -> bool {
        match self {
            Sort::Variable | Sort::Parameter | Sort::ArrayParameter => true,
            Sort::StaticObject | Sort::SharedObject | Sort::Enumerator => true,
            Sort::StaticFunction | Sort::SharedFunction => false,
        }
    }
}

/// A name that is declared.
#[derive(Clone, Copy)]
pub(crate) struct Symbol {
    pub(crate) name: usize,
    pub(crate) pos: Pos,
    pub(crate) sort: Sort,
    pub(crate) is_read: bool,
    pub(crate) is_set: bool,
    /// Whether it is an object at file scope that was declared without a value (6.9.2p2).
    pub(crate) is_tentative: bool,
    // The symbol that had the name before.
    outer: Option<usize>,
}

/// The names in scope (6.2.1). One name is looked up in constant time.
#[derive(Drop)]
pub(crate) struct Scopes {
    symbols: Vec<Symbol>,
    // The innermost symbol of each name of the `Names`.
    current: Vec<Option<usize>>,
}

impl Scopes {
    /// The scope of a file, of a table with `names` names.
    pub(crate) fn new(alloc: Global, names: usize) -> Result<Scopes, AllocError> {
        Ok(Scopes {
            symbols: Vec::new(alloc),
            current: vec![in alloc; None; names]?,
        })
    }

    /// Where the scope that begins here ends.
    pub(crate) fn mark(&self) -> usize {
        self.symbols.len()
    }

    /// The innermost symbol of a name.
    pub(crate) fn find(&self, name: usize) -> Option<Symbol> {
        let number = self.current.get(name).copied().flatten()?;
        self.symbols.get(number).copied()
    }

    /// Declares a name in the innermost scope.
    pub(crate) fn declare(&mut self, name: usize, pos: Pos, sort: Sort) -> Result<(), AllocError> {
        let outer = self.current.get(name).copied().flatten();
        let number = self.symbols.len();
        self.symbols.push(Symbol {
            name,
            pos,
            sort,
            is_read: false,
            is_set: false,
            is_tentative: false,
            outer,
        })?;
        if let Some(current) = self.current.get_mut(name) {
            *current = Some(number);
        }
        Ok(())
    }

    /// Declares a name at file scope, where it may be declared before (6.2.2, 6.9.2).
    pub(crate) fn declare_again(
        &mut self,
        name: usize,
        pos: Pos,
        sort: Sort,
    ) -> Result<(), AllocError> {
        let known = self.current.get(name).copied().flatten();
        match known {
            Some(number) => {
                if let Some(symbol) = self.symbols.get_mut(number) {
                    symbol.pos = pos;
                    symbol.sort = sort;
                }
                Ok(())
            }
            None => self.declare(name, pos, sort),
        }
    }

    /// An object at file scope was declared without a value.
    pub(crate) fn mark_tentative(&mut self, name: usize) {
        let number = self
            .current
            .get(name)
            .copied()
            .flatten()
            .unwrap_or(usize::MAX);
        if let Some(symbol) = self.symbols.get_mut(number) {
            symbol.is_tentative = true;
        }
    }

    /// The value of a name is used.
    pub(crate) fn read(&mut self, name: usize) {
        let number = self
            .current
            .get(name)
            .copied()
            .flatten()
            .unwrap_or(usize::MAX);
        if let Some(symbol) = self.symbols.get_mut(number) {
            symbol.is_read = true;
        }
    }

    /// A name is given a value.
    pub(crate) fn set(&mut self, name: usize) {
        let number = self
            .current
            .get(name)
            .copied()
            .flatten()
            .unwrap_or(usize::MAX);
        if let Some(symbol) = self.symbols.get_mut(number) {
            symbol.is_set = true;
        }
    }

    /// Takes the last symbol of the scope that began at a mark out of scope; `None` at the scope's begin.
    pub(crate) fn leave(&mut self, mark: usize) -> Option<Symbol> {
        if self.symbols.len() <= mark {
            return None;
        }
        let symbol = self.symbols.pop()?;
        if let Some(current) = self.current.get_mut(symbol.name) {
            *current = symbol.outer;
        }
        Some(symbol)
    }
}
