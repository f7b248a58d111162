//! The first use in a statement of an object or function without a definition (6.9p3, p5).
#![tactic(auto)]

ghost use Rattle.std.specs.Prelude.{◌≡◌, ◌++◌, map};
ghost use Rattle.typed_ast.specs.View.{option_value, statement_of, statements_of};
ghost use Rattle.typing_scopes.specs.Scopes.{static_of};
ghost use Rattle.typing_spec.specs.Uses as typed;
ghost use Rattle.typing_units.specs.inside.Undefined.{undefined_in};

use crate::value_uses::{earlier, in_initialiser, in_option, in_value};
use srcset::Pos;
use typed_ast::{Statement, Value};
use typing_scopes::StaticObject;

#[cycle(uses_of_statements)]
fn in_statements(statics: &[StaticObject], statements: &[Statement]) -> Option<Pos>
    ensures { result ≡ undefined_in (map static_of statics.now) (typed.uses_in_statements (statements_of (map statement_of statements.now))) }
{
    let mut found = None;
    for statement in statements {
        found = earlier(found, in_statement(statics, statement));
    }
    found
}

/// The parts before the body of a `for`.
#[cycle(uses_of_statements)]
fn in_head(
    statics: &[StaticObject],
    declared: &[Statement],
    start: &Option<Value>,
    test: &Option<Value>,
    step: &Option<Value>,
) -> Option<Pos>
    ensures { result ≡ undefined_in (map static_of statics.now) (typed.uses_in_statements (statements_of (map statement_of declared.now)) ++ typed.uses_in_option (option_value start.now) ++ typed.uses_in_option (option_value test.now) ++ typed.uses_in_option (option_value step.now)) }
{
    let first = earlier(in_statements(statics, declared), in_option(statics, start));
    earlier(
        earlier(first, in_option(statics, test)),
        in_option(statics, step),
    )
}

/// The recursion is as deep as the tree.
#[cycle(uses_of_statements)]
pub(crate) fn in_statement(statics: &[StaticObject], statement: &Statement) -> Option<Pos>
    ensures { result ≡ undefined_in (map static_of statics.now) (typed.uses_in_statement (statement_of statement.now)) }
{
    match statement {
        Statement::Empty(_) => None,
        Statement::Evaluate(_, e) => in_value(statics, e),
        Statement::Declare(_, _) => None,
        Statement::Define(_, _, initialiser) => in_initialiser(statics, initialiser),
        Statement::Block(_, _, _, all) => in_statements(statics, all),
        Statement::If(_, e, a) => earlier(in_value(statics, e), in_statement(statics, a)),
        Statement::IfElse(_, e, a, b) => earlier(
            earlier(in_value(statics, e), in_statement(statics, a)),
            in_statement(statics, b),
        ),
        Statement::Switch(_, _, e, _, _, all) => {
            earlier(in_value(statics, e), in_statements(statics, all))
        }
        Statement::Case(_, _) => None,
        Statement::Default(_) => None,
        Statement::While(_, e, a) => earlier(in_value(statics, e), in_statement(statics, a)),
        Statement::DoWhile(_, a, e) => earlier(in_statement(statics, a), in_value(statics, e)),
        Statement::For(_, declared, control, a) => earlier(
            in_head(
                statics,
                declared,
                &control.start,
                &control.test,
                &control.step,
            ),
            in_statement(statics, a),
        ),
        Statement::Break(_) => None,
        Statement::Continue(_) => None,
        Statement::ReturnNothing(_) => None,
        Statement::ReturnValue(_, _, e) => in_value(statics, e),
    }
}
