//! Expression statements and jumps (6.8.3, 6.8.6).
#![tactic(auto, using(decls_declarators::proofs::Verdicts::told))]

ghost use Rattle.std.specs.Prelude.{◌≡◌, [], Option, IfErr, IfOk, OnOk};
ghost use Rattle.srcset.specs.declared.refusal.Pos.{Pos};
ghost use Rattle.ctypes.specs.declared.types.IntType.{IntType};
ghost use Rattle.tree.specs.Tree as tree;
ghost use Rattle.tree.specs.View.{tree_of, option_tree};
ghost use Rattle.typing_spec.specs.Verdict.{fine};
ghost use Rattle.typing_spec.specs.Scope as scope_typed;
ghost use Rattle.typing_spec.specs.Statements as typed;
ghost use Rattle.typing_expressions.specs.Refused.{Tells};
ghost use Rattle.typing_scopes.specs.Scopes.{with_texts};
ghost use Rattle.typing_statements.specs.Views.{around_of, done_of};

use crate::controls::{effect_past, worth_past};
use crate::surroundings::Around;
use srcset::{Code, Names, Pos, Refusal};
use std::alloc::Global;
use tree::Expr;
use typed_ast::Statement;
use typing_expressions::broken;
use typing_scopes::Scope;

/// An expression statement (6.8.3).
#[inline(never)]
pub(crate) fn expression_typed(
    alloc: Global,
    names: &Names,
    scope: &mut Scope,
    pos: Pos,
    e: &Expr,
) -> Result<Statement, Refusal>
    ensures ok { (around : typed.Around) (d : Option IntType) → IfOk result (λ x. typed.statement around d (with_texts names.now scope.old) (tree.expression_stmt pos (tree_of e.now)) ≡ fine (done_of (with_texts names.now scope.new) [] [] x)) }
    ensures err { (around : typed.Around) (d : Option IntType) → IfErr result (λ r. Tells r (typed.statement around d (with_texts names.now scope.old) (tree.expression_stmt pos (tree_of e.now)))) }
{
    match effect_past(alloc, names, scope, e) {
        Ok(value) => Ok(Statement::Evaluate(pos, value)),
        Err(refusal) => Err(refusal),
    }
}

/// `break` must be in a loop or in a switch (6.8.6.3p1). Else reports 542 at it.
#[inline(never)]
pub(crate) fn break_typed(around: Around, pos: Pos) -> Result<Statement, Refusal>
    ensures ok { (d : Option IntType) (s : scope_typed.Scope) → IfOk result (λ x. typed.statement (around_of around) d s (tree.break_stmt pos) ≡ fine (done_of s [] [] x)) }
    ensures err { (d : Option IntType) (s : scope_typed.Scope) → IfErr result (λ r. Tells r (typed.statement (around_of around) d s (tree.break_stmt pos))) }
{
    if around.in_loop || around.in_switch {
        return Ok(Statement::Break(pos));
    }
    Err(broken(Code::JumpOutside, pos))
}

/// `continue` must be in a loop (6.8.6.2p1). Else reports 542 at it.
#[inline(never)]
pub(crate) fn continue_typed(around: Around, pos: Pos) -> Result<Statement, Refusal>
    ensures ok { (d : Option IntType) (s : scope_typed.Scope) → IfOk result (λ x. typed.statement (around_of around) d s (tree.continue_stmt pos) ≡ fine (done_of s [] [] x)) }
    ensures err { (d : Option IntType) (s : scope_typed.Scope) → IfErr result (λ r. Tells r (typed.statement (around_of around) d s (tree.continue_stmt pos))) }
{
    if around.in_loop {
        return Ok(Statement::Continue(pos));
    }
    Err(broken(Code::JumpOutside, pos))
}

/// `return` has a value where the function has one, and only there (6.8.6.4p1). Else reports 543 at it.
#[inline(never)]
pub(crate) fn return_typed(
    alloc: Global,
    names: &Names,
    around: Around,
    scope: &mut Scope,
    pos: Pos,
    e: &Option<Expr>,
) -> Result<Statement, Refusal>
    ensures ok { (d : Option IntType) → IfOk result (λ x. typed.statement (around_of around) d (with_texts names.now scope.old) (tree.return_stmt pos (option_tree e.now)) ≡ fine (done_of (with_texts names.now scope.new) [] [] x)) }
    ensures err { (d : Option IntType) → IfErr result (λ r. Tells r (typed.statement (around_of around) d (with_texts names.now scope.old) (tree.return_stmt pos (option_tree e.now)))) }
{
    match (around.result, e) {
        (None, None) => Ok(Statement::ReturnNothing(pos)),
        (None, Some(_)) => Err(broken(Code::ReturnMismatch, pos)),
        (Some(_), None) => Err(broken(Code::ReturnMismatch, pos)),
        (Some(ty), Some(e)) => {
            match worth_past(alloc, names, scope, Code::VoidAssigned, pos, e) {
                Ok(worth) => Ok(Statement::ReturnValue(pos, ty, worth.value)),
                Err(refusal) => Err(refusal),
            }
        }
    }
}
