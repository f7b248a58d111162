//! Declarations (6.7) and function definitions (6.9.1).

use crate::conditions::Use;
use crate::flow::Flow;
use crate::scopes::Sort;
use crate::walker::Walker;
use lint::Kind;
use srcset::Pos;
use std::alloc::AllocError;
use tree::{
    Declaration, Enumerator, Expr, Function, Initialiser, Item, ObjectDeclarator, Parameter,
    Specifier, TypeSpecifier, Word,
};

impl Walker {
    /// Walks a declaration in a block.
    pub(crate) fn inner_declaration(
        &mut self,
        declaration: &Declaration,
    ) -> Result<(), AllocError> {
        match declaration {
            Declaration::Declared(specifiers, items) => {
                self.enumerators_in(specifiers.list.as_slice())?;
                self.inner_items(items.as_slice())
            }
            Declaration::Assertion(_, test, _) => self.expression(test, Use::Value),
        }
    }

    fn inner_items(&mut self, items: &[Item]) -> Result<(), AllocError> {
        for item in items {
            if let Item::Object(object) = item {
                self.sizes(object.sizes.as_slice())?;
                self.declare_inner(object.name, object.pos, Sort::Variable)?;
                self.first_value(object)?;
            }
        }
        Ok(())
    }

    /// Walks a declaration at file scope.
    pub(crate) fn file_declaration(&mut self, declaration: &Declaration) -> Result<(), AllocError> {
        match declaration {
            Declaration::Declared(specifiers, items) => {
                let list = specifiers.list.as_slice();
                self.enumerators_in(list)?;
                self.file_items(items.as_slice(), is_static(list))
            }
            Declaration::Assertion(_, test, _) => self.expression(test, Use::Value),
        }
    }

    fn file_items(&mut self, items: &[Item], is_static: bool) -> Result<(), AllocError> {
        for item in items {
            match item {
                Item::Object(object) => self.file_object(object, is_static)?,
                Item::Function(function) => {
                    self.file_name(function.name, function.pos, Sort::SharedFunction)?
                }
            }
        }
        Ok(())
    }

    /// Walks the declarator of an object at file scope.
    fn file_object(
        &mut self,
        object: &ObjectDeclarator,
        is_static: bool,
    ) -> Result<(), AllocError> {
        self.sizes(object.sizes.as_slice())?;
        if is_static && object.initialiser.is_none() {
            self.note_two_files(object)?;
        }
        let sort = if is_static {
            Sort::StaticObject
        } else {
            Sort::SharedObject
        };
        self.file_name(object.name, object.pos, sort)?;
        if is_static && object.initialiser.is_none() {
            self.scopes.mark_tentative(object.name);
        }
        self.first_value(object)
    }

    /// Warns where a static object is declared without a value in another file too (6.9.2p2).
    fn note_two_files(&mut self, object: &ObjectDeclarator) -> Result<(), AllocError> {
        match self.scopes.find(object.name) {
            Some(known) if known.is_tentative && known.pos.file != object.pos.file =>
                self.warn_other(Kind::StaticInTwoFiles, object.pos, object.name, known.pos),
            _ => Ok(()),
        }
    }

    /// Declares a name at file scope. The facts known of an earlier declaration stay: whether it is static, and where it is defined.
    fn file_name(&mut self, name: usize, pos: Pos, sort: Sort) -> Result<(), AllocError> {
        match self.scopes.find(name) {
            Some(_) => Ok(()),
            None => self.scopes.declare(name, pos, sort),
        }
    }

    /// Walks a function definition.
    pub(crate) fn function(&mut self, function: &Function) -> Result<(), AllocError> {
        let declarator = &function.declarator;
        let specifiers = function.specifiers.list.as_slice();
        self.enumerators_in(specifiers)?;
        let sort = if is_static(specifiers) {
            Sort::StaticFunction
        } else {
            Sort::SharedFunction
        };
        self.scopes
            .declare_again(declarator.name, declarator.pos, sort)?;
        self.walk_in(Some(declarator.name));
        let mark = self.scopes.mark();
        self.parameters(declarator.parameters.as_slice())?;
        let flow = self.items(function.body.as_slice())?;
        self.end_scope(mark)?;
        self.walk_in(None);
        self.note_end(function, flow)
    }

    /// Warns where a function with a result may reach its end; `main` may (5.1.2.2.3).
    fn note_end(&mut self, function: &Function, flow: Flow) -> Result<(), AllocError> {
        let declarator = &function.declarator;
        let has_result = !gives_nothing(function.specifiers.list.as_slice());
        if flow.falls && has_result && !self.is_main(declarator.name) {
            self.warn_named(Kind::ReturnType, declarator.pos, declarator.name)
        } else {
            Ok(())
        }
    }

    fn parameters(&mut self, parameters: &[Parameter]) -> Result<(), AllocError> {
        for parameter in parameters {
            self.sizes(parameter.sizes.as_slice())?;
            let sort = if parameter.sizes.is_empty() {
                Sort::Parameter
            } else {
                Sort::ArrayParameter
            };
            if let Some(name) = parameter.name {
                self.declare_inner(name, parameter.pos, sort)?;
            }
        }
        Ok(())
    }

    /// Walks the sizes of an array.
    fn sizes(&mut self, sizes: &[Option<Expr>]) -> Result<(), AllocError> {
        for size in sizes {
            if let Some(size) = size {
                self.expression(size, Use::Value)?;
            }
        }
        Ok(())
    }

    /// Declares the enumerators of specifiers.
    fn enumerators_in(&mut self, specifiers: &[Specifier]) -> Result<(), AllocError> {
        for specifier in specifiers {
            if let Specifier::Enumerators(_, list) = specifier {
                self.enumerators(list.as_slice())?;
            }
        }
        Ok(())
    }

    fn enumerators(&mut self, list: &[Enumerator]) -> Result<(), AllocError> {
        for enumerator in list {
            if let Some(value) = &enumerator.value {
                self.expression(value, Use::Value)?;
            }
            self.declare_inner(enumerator.name, enumerator.pos, Sort::Enumerator)?;
        }
        Ok(())
    }

    /// Walks the initialiser of an object.
    fn first_value(&mut self, object: &ObjectDeclarator) -> Result<(), AllocError> {
        match &object.initialiser {
            Some(initialiser) => self.initialiser(initialiser),
            None => Ok(()),
        }
    }

    #[cycle(initialisers)]
    fn initialiser(&mut self, initialiser: &Initialiser) -> Result<(), AllocError> {
        match initialiser {
            Initialiser::One(value) => self.expression(value, Use::Value),
            Initialiser::List(_, parts) => self.initialisers(parts.as_slice()),
        }
    }

    #[cycle(initialisers)]
    fn initialisers(&mut self, parts: &[Initialiser]) -> Result<(), AllocError> {
        for part in parts {
            self.initialiser(part)?;
        }
        Ok(())
    }
}

/// Whether one of the specifiers is `static`.
fn is_static(specifiers: &[Specifier]) -> bool {
    for specifier in specifiers {
        if matches!(specifier, Specifier::Static) {
            return true;
        }
    }
    false
}

/// Whether one of the specifiers is `void`.
fn gives_nothing(specifiers: &[Specifier]) -> bool {
    for specifier in specifiers {
        if matches!(specifier, Specifier::Plain(TypeSpecifier::Word(Word::Void))) {
            return true;
        }
    }
    false
}
