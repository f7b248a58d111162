//! Labels of a switch (6.8.1, 6.8.4.2).

ghost use Rattle.std.specs.Prelude.{◌≡◌, false, map, true, IfOk, IsTrue};
ghost use Rattle.typing_spec.specs.Program as typed;
ghost use Rattle.typed_ast.specs.View.{statement_of, statements_of};
ghost use Rattle.csem.specs.Statements.{labels_of};
ghost use Rattle.verify_logic.specs.States.{Implies};
ghost use Rattle.verify_logic.specs.Statements.{Executes, has_default};
ghost use Rattle.verify_expressions.specs.Views.{frame_of, state_of};
ghost use Rattle.verify_statements.specs.Switches.{is_default, is_label};
ghost use Rattle.verify_statements.specs.Ways.{ways_of};

use crate::ways::{Left, only};
use std::alloc::Global;
use typed_ast::Statement;
use verify_expressions::{AbsState, Scope, Stop, joined};

/// Tests whether a statement is a label.
pub fn is_label(a: &Statement) -> bool
    ensures { result ≡ is_label (statement_of a.now) }
{
    match a {
        Statement::Empty(_) => false,
        Statement::Evaluate(_, _) => false,
        Statement::Declare(_, _) => false,
        Statement::Define(_, _, _) => false,
        Statement::Block(_, _, _, _) => false,
        Statement::If(_, _, _) => false,
        Statement::IfElse(_, _, _, _) => false,
        Statement::Switch(_, _, _, _, _, _) => false,
        Statement::Case(_, _) => true,
        Statement::Default(_) => true,
        Statement::While(_, _, _) => false,
        Statement::DoWhile(_, _, _) => false,
        Statement::For(_, _, _, _) => false,
        Statement::Break(_) => false,
        Statement::Continue(_) => false,
        Statement::ReturnNothing(_) => false,
        Statement::ReturnValue(_, _, _) => false,
    }
}

fn is_default(a: &Statement) -> bool
    ensures { result ≡ is_default (statement_of a.now) }
{
    match a {
        Statement::Empty(_) => false,
        Statement::Evaluate(_, _) => false,
        Statement::Declare(_, _) => false,
        Statement::Define(_, _, _) => false,
        Statement::Block(_, _, _, _) => false,
        Statement::If(_, _, _) => false,
        Statement::IfElse(_, _, _, _) => false,
        Statement::Switch(_, _, _, _, _, _) => false,
        Statement::Case(_, _) => false,
        Statement::Default(_) => true,
        Statement::While(_, _, _) => false,
        Statement::DoWhile(_, _, _) => false,
        Statement::For(_, _, _, _) => false,
        Statement::Break(_) => false,
        Statement::Continue(_) => false,
        Statement::ReturnNothing(_) => false,
        Statement::ReturnValue(_, _, _) => false,
    }
}

/// Tests whether one of the statements is `default`.
pub fn any_default(all: &[Statement]) -> bool
    ensures { IsTrue result → has_default (labels_of (statements_of (map statement_of all.now))) ≡ true }
{
    for n in 0..all.len() {
        let found = is_default(&all[n]);
        if found {
            return true;
        }
    }
    false
}

/// `case`, as a statement.
pub fn cased(scope: &Scope<'_>, state: AbsState, v: i64) -> Result<Left, Stop>
    ensures { IfOk result (λ r. Executes (frame_of scope.now) (typed.case v) (state_of state) (ways_of r)) }
{
    Ok(only(state))
}

/// `default`, as a statement.
pub fn defaulted(scope: &Scope<'_>, state: AbsState) -> Result<Left, Stop>
    ensures { IfOk result (λ r. Executes (frame_of scope.now) typed.default (state_of state) (ways_of r)) }
{
    Ok(only(state))
}

/// The state after a switch: if no label is `default`, also the state before its statements.
///
/// Errors: memory ran out.
pub fn behind_switch(
    alloc: Global,
    out: AbsState,
    entry: AbsState,
    any: bool,
) -> Result<AbsState, Stop>
    ensures left { IfOk result (λ r. Implies (state_of out) (state_of r)) }
    ensures passed { IfOk result (λ r. (any ≡ false) → Implies (state_of entry) (state_of r)) }
{
    if any {
        Ok(out)
    } else {
        joined(alloc, out, entry)
    }
}
