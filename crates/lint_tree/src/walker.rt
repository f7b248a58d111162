//! The state kept while a unit is walked.

use crate::scopes::{Scopes, Sort, Symbol};
use lint::{Detail, Kind, Warning};
use srcset::{Names, Pos};
use std::alloc::{AllocError, Global};

/// The names in scope and the warnings so far.
#[derive(Drop)]
pub(crate) struct Walker {
    pub(crate) scopes: Scopes,
    pub(crate) warnings: Vec<Warning>,
    /// The number of the name `rv_exit`, whose call does not return.
    exit: Option<usize>,
    /// The number of the name `main`.
    main: Option<usize>,
    /// The name of the function whose body is walked.
    function: Option<usize>,
}

impl Walker {
    pub(crate) fn new(alloc: Global, names: &Names) -> Result<Walker, AllocError> {
        Ok(Walker {
            scopes: Scopes::new(alloc, names.len())?,
            warnings: Vec::new(alloc),
            exit: names.find(b"rv_exit".as_slice()),
            main: names.find(b"main".as_slice()),
            function: None,
        })
    }

    /// The body of a function begins, or ends.
    pub(crate) fn walk_in(&mut self, function: Option<usize>) {
        self.function = function;
    }

    /// A function is called; a call by the function itself does not count.
    pub(crate) fn call(&mut self, name: usize) {
        if self.function != Some(name) {
            self.scopes.read(name);
        }
    }

    /// Whether a function of this name does not return.
    pub(crate) fn is_exit(&self, name: usize) -> bool {
        self.exit == Some(name)
    }

    /// Whether this is the name `main`.
    pub(crate) fn is_main(&self, name: usize) -> bool {
        self.main == Some(name)
    }

    /// A warning about no name.
    pub(crate) fn warn(&mut self, kind: Kind, pos: Pos) -> Result<(), AllocError> {
        self.warnings.push(Warning::plain(kind, pos))?;
        Ok(())
    }

    /// A warning about a name.
    pub(crate) fn warn_named(
        &mut self,
        kind: Kind,
        pos: Pos,
        name: usize,
    ) -> Result<(), AllocError> {
        self.warnings.push(Warning::named(kind, pos, name))?;
        Ok(())
    }

    /// A warning about a name that is declared elsewhere too.
    pub(crate) fn warn_other(
        &mut self,
        kind: Kind,
        pos: Pos,
        name: usize,
        other: Pos,
    ) -> Result<(), AllocError> {
        self.warnings.push(Warning {
            kind,
            pos,
            name: Some(name),
            detail: Detail::Other(other),
        })?;
        Ok(())
    }

    /// Declares an object, a parameter or an enumerator of a function.
    pub(crate) fn declare_inner(
        &mut self,
        name: usize,
        pos: Pos,
        sort: Sort,
    ) -> Result<(), AllocError> {
        if let Some(outer) = self.scopes.find(name) {
            if outer.sort.is_hidden() {
                self.warn_other(Kind::Shadow, pos, name, outer.pos)?;
            }
        }
        self.scopes.declare(name, pos, sort)
    }

    /// Ends the scope that began at a mark, and warns of the names that were not used in it.
    pub(crate) fn end_scope(&mut self, mark: usize) -> Result<(), AllocError> {
        for _ in 0..usize::MAX {
            match self.scopes.leave(mark) {
                Some(symbol) => self.warn_unused(symbol)?,
                None => break,
            }
        }
        Ok(())
    }

    /// Warns of a name that is not used.
    fn warn_unused(&mut self, symbol: Symbol) -> Result<(), AllocError> {
        match unused(symbol) {
            Some(kind) => self.warn_named(kind, symbol.pos, symbol.name),
            None => Ok(()),
        }
    }
}

/// The warning for a name whose scope has ended.
fn unused(symbol: Symbol) -> Option<Kind> {
    if symbol.is_read {
        return None;
    }
    match symbol.sort {
        Sort::Variable if symbol.is_set => Some(Kind::UnusedButSetVariable),
        Sort::Variable => Some(Kind::UnusedVariable),
        Sort::Parameter if symbol.is_set => Some(Kind::UnusedButSetParameter),
        Sort::Parameter => Some(Kind::UnusedParameter),
        Sort::ArrayParameter if symbol.is_set => None,
        Sort::ArrayParameter => Some(Kind::UnusedParameter),
        Sort::StaticObject if symbol.is_set => None,
        Sort::StaticObject => Some(Kind::UnusedVariable),
        Sort::StaticFunction => Some(Kind::UnusedFunction),
        Sort::SharedObject | Sort::SharedFunction | Sort::Enumerator => None,
    }
}
