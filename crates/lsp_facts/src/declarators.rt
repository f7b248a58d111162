//! The declarators of automatic objects in a typed program.

use srcset::Pos;
use std::alloc::{AllocError, Global};
use typed_ast::{Function, Initialiser, Statement, Value};

/// The place of a declarator's name, the number of its object among those of its function, and its value, where the initialiser is a constant.
#[derive(Clone, Copy)]
pub(crate) struct Declarator {
    pub(crate) at: Pos,
    pub(crate) object: usize,
    pub(crate) value: Option<i64>,
}

/// The declarators in the body of a function.
pub(crate) fn declarators(
    alloc: Global,
    function: &Function,
) -> Result<Vec<Declarator>, AllocError> {
    let mut found = Vec::new(alloc);
    put_statement(&function.body, &mut found)?;
    Ok(found)
}

fn declarator_of(statement: &Statement) -> Option<Declarator> {
    match statement {
        Statement::Declare(at, object) => Some(Declarator {
            at: *at,
            object: *object,
            value: None,
        }),
        Statement::Define(at, object, initialiser) => Some(Declarator {
            at: *at,
            object: *object,
            value: constant_of(initialiser),
        }),
        _ => None,
    }
}

/// The value of an initialiser that is a constant.
fn constant_of(initialiser: &Initialiser) -> Option<i64> {
    match initialiser {
        Initialiser::One(ty, Value::Constant(_, value)) if ty.contains(*value) => Some(*value),
        _ => None,
    }
}

/// Appends the declarators of statements. The compiler limits the nesting of these.
#[cycle(declared_statements)]
fn put_statements(all: &[Statement], found: &mut Vec<Declarator>) -> Result<(), AllocError> {
    for statement in all {
        put_statement(statement, found)?;
    }
    Ok(())
}

#[cycle(declared_statements)]
fn put_statement(statement: &Statement, found: &mut Vec<Declarator>) -> Result<(), AllocError> {
    if let Some(declarator) = declarator_of(statement) {
        found.extend_from_slice(&[declarator])?;
    }
    match statement {
        Statement::Block(_, _, _, all) => put_statements(all.as_slice(), found),
        Statement::Switch(_, _, _, _, _, all) => put_statements(all.as_slice(), found),
        Statement::If(_, _, inner) => put_statement(inner, found),
        Statement::While(_, _, inner) => put_statement(inner, found),
        Statement::DoWhile(_, inner, _) => put_statement(inner, found),
        Statement::IfElse(_, _, first, second) => {
            put_statement(first, found)?;
            put_statement(second, found)
        }
        Statement::For(_, declared, _, inner) => {
            put_statements(declared.as_slice(), found)?;
            put_statement(inner, found)
        }
        _ => Ok(()),
    }
}
