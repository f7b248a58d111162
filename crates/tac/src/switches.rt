//! The tests of the labels of a `switch` (6.8.4.2).

ghost use Rattle.std.specs.Prelude.{◌≡◌, map, OnOk};
ghost use Rattle.csem.specs.Statements.{labels_at};
ghost use Rattle.typed_ast.specs.View.{statement_of, statements_of};
ghost use Rattle.tac.specs.inside.Scopes.{program_in, function_in};
ghost use Rattle.tac.specs.inside.Places.{one_label};
ghost use Rattle.tac.specs.inside.Written.{WroteTests};

use crate::block_sizes::statement_size;
use lower_ops::form_sizes::plus;
use lower_ops::instructions::branch;
use lower_ops::scopes::Scope;
use lower_ops::words::word_of;
use lower_ops::writing::{Code, put};
use std::alloc::AllocError;
use tac_code::{Comparison, Instruction, Operand, Reading};
use typed_ast::Statement;

/// The label that a statement is: the value of a case, none for default.
fn label_at(statement: &Statement) -> Option<Option<i64>>
    ensures { labels_at (statement_of statement.now) ≡ one_label result }
{
    match statement {
        Statement::Case(_, value) => Some(Some(*value)),
        Statement::Default(_) => Some(None),
        _ => None,
    }
}

/// The tests of the labels among statements, the first of which is to be placed at `at`; where none matches, the code goes to `other`. Each recursive call is a
/// tail call and borrows no local of the caller, so that a compiler makes a loop of it.
pub(crate) fn put_tests(
    scope: &Scope<'_>,
    code: &mut Code,
    operand: &Operand,
    all: &[Statement],
    at: usize,
    other: usize,
) -> Result<(), AllocError>
    ensures { OnOk result (WroteTests (program_in scope.now) (function_in scope.now) operand.now (statements_of (map statement_of all.now)) at other code.old.list.items code.new.list.items) }
{
    match all.split_first() {
        None => {
            put(code, Instruction::Jump(other))?;
            Ok(())
        }
        Some((statement, more)) => {
            let next = plus(at, statement_size(scope.program, scope.function, statement));
            match label_at(statement) {
                None => {
                    put_tests(scope, code, operand, more, next, other)?;
                    Ok(())
                }
                Some(None) => {
                    put_tests(scope, code, operand, more, next, at)?;
                    Ok(())
                }
                Some(Some(value)) => {
                    let case = Operand::Constant(word_of(value));
                    put(
                        code,
                        branch(Comparison::Equal, Reading::Signed, *operand, case, at),
                    )?;
                    put_tests(scope, code, operand, more, next, other)?;
                    Ok(())
                }
            }
        }
    }
}
