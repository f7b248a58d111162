//! The declarations of automatic objects in a typed function, in the order of the source.

use srcset::Pos;
use std::alloc::AllocError;
use typed_ast::Statement;

/// The declaration of an automatic object.
#[derive(Clone, Copy, Debug, PartialEq, Eq)]
pub(crate) struct Declared {
    /// The place of its name.
    pub pos: Pos,
    /// The number of the object in its function.
    pub object: usize,
}

/// Appends the declarations in these statements.
#[cycle(statements)]
fn put_statements(statements: &[Statement], found: &mut Vec<Declared>) -> Result<(), AllocError> {
    for statement in statements {
        put_declared(statement, found)?;
    }
    Ok(())
}

/// Appends the declarations in a statement.
#[cycle(statements)]
pub(crate) fn put_declared(
    statement: &Statement,
    found: &mut Vec<Declared>,
) -> Result<(), AllocError> {
    match statement {
        Statement::Declare(pos, object) | Statement::Define(pos, object, _) => {
            found.push(Declared {
                pos: *pos,
                object: *object,
            })?;
            Ok(())
        }
        Statement::Block(_, _, _, inner) | Statement::Switch(_, _, _, _, _, inner) => {
            put_statements(inner.as_slice(), found)
        }
        Statement::If(_, _, body) | Statement::While(_, _, body) => put_declared(body, found),
        Statement::IfElse(_, _, yes, no) => {
            put_declared(yes, found)?;
            put_declared(no, found)
        }
        Statement::DoWhile(_, body, _) => put_declared(body, found),
        Statement::For(_, declared, _, body) => {
            put_statements(declared.as_slice(), found)?;
            put_declared(body, found)
        }
        Statement::Empty(_) | Statement::Evaluate(_, _) | Statement::Case(_, _) => Ok(()),
        Statement::Default(_) | Statement::Break(_) | Statement::Continue(_) => Ok(()),
        Statement::ReturnNothing(_) | Statement::ReturnValue(_, _, _) => Ok(()),
    }
}
