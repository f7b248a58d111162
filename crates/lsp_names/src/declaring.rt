//! The role of an identifier at its place: declared, used, or a part of specifiers.

use crate::frames::{Inside, Stage};
use crate::scanner::{At, Scanner};
use crate::symbols::SymbolKind;
use crate::table::{Declared, place_of};
use crate::words::Class;
use std::alloc::AllocError;

impl Scanner {
    pub(crate) fn identifier(&mut self, at: At) -> Result<(), AllocError> {
        if self.last_class() == Class::Enum {
            return self.tag(at);
        }
        match self.frames.top().stage {
            Stage::Start => self.first_name(at),
            Stage::Specifiers if self.is_specifier(at) => self
                .table
                .use_name(at.file, at.word, false),
            Stage::Specifiers | Stage::Declarator => self.declarator(at),
            Stage::Behind | Stage::Initialiser | Stage::Expression => {
                self.table.use_name(at.file, at.word, false)
            }
        }
    }

    /// Whether a name after specifiers is one of them, or a macro.
    fn is_specifier(&self, at: At) -> bool {
        self.table.macro_of(at.word.name).is_some()
            || matches!(at.next, Class::Identifier | Class::TypeWord)
    }

    /// A name with which a statement, a declaration or an enumerator begins.
    fn first_name(&mut self, at: At) -> Result<(), AllocError> {
        if self.frames.top().inside == Inside::Enumerators {
            return self.enumerator(at);
        }
        if self.begins_declaration(at) {
            self.specifier(at)?;
        } else {
            self.set_stage(Stage::Expression)?;
        }
        self.table.use_name(at.file, at.word, false)
    }

    /// Whether a name denotes a type: a macro for one, or a name that nothing declares and that a name follows.
    fn begins_declaration(&self, at: At) -> bool {
        let name = at.word.name;
        let is_unknown = self.table.macro_of(name).is_none()
            && self.table.meant(name, false).is_none();
        self.table.is_type(name) || is_unknown && at.next == Class::Identifier
    }

    /// The tag after `enum`: followed by braces it is a declaration.
    fn tag(&mut self, at: At) -> Result<(), AllocError> {
        if at.next != Class::OpenBrace && self.table.meant(at.word.name, true).is_some() {
            return self.table.use_name(at.file, at.word, true);
        }
        self.declare(at, SymbolKind::Tag)
    }

    fn enumerator(&mut self, at: At) -> Result<(), AllocError> {
        let mut top = self.frames.top();
        top.begin = at.word.start;
        top.stage = Stage::Behind;
        self.frames.set_top(top)?;
        self.declare(at, SymbolKind::Enumerator)
    }

    /// A declared name.
    fn declarator(&mut self, at: At) -> Result<(), AllocError> {
        let top = self.frames.top();
        let kind = if top.inside == Inside::Parameters {
            SymbolKind::Parameter
        } else if at.next == Class::OpenRound {
            SymbolKind::Function
        } else {
            SymbolKind::Object
        };
        self.declare(at, kind)?;
        self.set_stage(Stage::Behind)
    }

    /// Notes a declaration in the innermost part.
    fn declare(&mut self, at: At, kind: SymbolKind) -> Result<(), AllocError> {
        let mut top = self.frames.top();
        let place = place_of(at.file, at.word);
        let number = self.table.declare(Declared {
            kind,
            name: at.word.name,
            at: place,
            begin: top.begin,
            is_global: self.frames.is_global(),
        })?;
        top.symbol = Some(number);
        top.at = place;
        self.frames.set_top(top)
    }
}
