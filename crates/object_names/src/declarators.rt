//! The declarators of automatic objects in a syntax tree, in the order of the source.

use srcset::Pos;
use std::alloc::AllocError;
use tree::{BlockItem, Declaration, ForStart, Item, Specifier, Stmt};

/// The declarator of an automatic object.
#[derive(Clone, Copy, Debug, PartialEq, Eq)]
pub(crate) struct Declarator {
    /// The place of its name.
    pub pos: Pos,
    /// The number of its name.
    pub name: usize,
}

/// Appends the declarators in these items of a block.
#[cycle(items)]
pub(crate) fn put_items(
    items: &[BlockItem],
    found: &mut Vec<Declarator>,
) -> Result<(), AllocError> {
    for item in items {
        match item {
            BlockItem::Declaration(declaration) => put_declaration(declaration, found)?,
            BlockItem::Statement(statement) => put_statement(statement, found)?,
        }
    }
    Ok(())
}

/// Appends the declarators in a statement.
#[cycle(items)]
fn put_statement(statement: &Stmt, found: &mut Vec<Declarator>) -> Result<(), AllocError> {
    match statement {
        Stmt::Block(_, items) => put_items(items.as_slice(), found),
        Stmt::If(_, _, body) | Stmt::Switch(_, _, body) => put_statement(body, found),
        Stmt::IfElse(_, _, yes, no) => {
            put_statement(yes, found)?;
            put_statement(no, found)
        }
        Stmt::Case(_, _, body) | Stmt::While(_, _, body) => put_statement(body, found),
        Stmt::Default(_, body) | Stmt::DoWhile(_, body, _) => put_statement(body, found),
        Stmt::For(_, head, body) => {
            put_start(&head.start, found)?;
            put_statement(body, found)
        }
        Stmt::Empty(_) | Stmt::Expression(_, _) | Stmt::Return(_, _) => Ok(()),
        Stmt::Break(_) | Stmt::Continue(_) => Ok(()),
    }
}

/// Appends the declarators in the first part of a `for`.
fn put_start(start: &ForStart, found: &mut Vec<Declarator>) -> Result<(), AllocError> {
    match start {
        ForStart::Expression(_) => Ok(()),
        ForStart::Declaration(declaration) => put_declaration(declaration, found),
    }
}

/// Appends the declarators of a declaration in a block, where its objects are automatic (6.2.4p5).
fn put_declaration(
    declaration: &Declaration,
    found: &mut Vec<Declarator>,
) -> Result<(), AllocError> {
    match declaration {
        Declaration::Declared(specifiers, items) => {
            if has_storage(specifiers.list.as_slice()) {
                Ok(())
            } else {
                put_objects(items.as_slice(), found)
            }
        }
        Declaration::Assertion(_, _, _) => Ok(()),
    }
}

fn put_objects(items: &[Item], found: &mut Vec<Declarator>) -> Result<(), AllocError> {
    for item in items {
        if let Item::Object(object) = item {
            found.push(Declarator {
                pos: object.pos,
                name: object.name,
            })?;
        }
    }
    Ok(())
}

/// Whether `static` or `extern` is among these.
fn has_storage(specifiers: &[Specifier]) -> bool {
    for specifier in specifiers {
        if matches!(specifier, Specifier::Static | Specifier::Extern) {
            return true;
        }
    }
    false
}
