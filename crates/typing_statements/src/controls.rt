//! The expressions that statements evaluate (6.8.3 to 6.8.5).
#![tactic(auto, using(typing_expressions::proofs::Verdicts::tells_then, decls_declarators::proofs::Verdicts::told, crate::proofs::Typings::typed_fine, crate::proofs::Typings::typed_tells))]

ghost use Rattle.std.specs.Prelude.{◌≡◌, IfErr, IfOk, OnOk};
ghost use Rattle.srcset.specs.declared.refusal.Refusal.TheVariants.{Memory};
ghost use Rattle.typed_ast.specs.View.{value_of, option_value};
ghost use Rattle.tree.specs.View.{tree_of, option_tree};
ghost use Rattle.typing_spec.specs.Verdict.{fine, then_check};
ghost use Rattle.typing_spec.specs.Scope as scope_typed;
ghost use Rattle.typing_spec.specs.Expressions as expressions;
ghost use Rattle.typing_spec.specs.Statements as typed;
ghost use Rattle.typing_expressions.specs.Refused.{Tells};
ghost use Rattle.typing_expressions.specs.Forms.{checked_of, worth_of};
ghost use Rattle.typing_scopes.specs.Scopes.{with_texts};

use const_expr::expression;
use decls_declarators::past;
use srcset::{Code, Names, Pos, Refusal};
use std::alloc::Global;
use tree::Expr;
use typed_ast::Value;
use typing_expressions::{Checked, LiteralCount, Worth, effect, valued};
use typing_scopes::Scope;

/// Types an expression in the scope, which stays as it is.
#[inline(never)]
fn typed_in<'s>(
    alloc: Global,
    names: &Names,
    scope: &'s Scope,
    e: &Expr,
) -> Result<Checked<'s>, Refusal>
    ensures ok { IfOk result (λ x. expressions.typing (with_texts names.now scope.now) (tree_of e.now) ≡ fine (checked_of x)) }
    ensures err { IfErr result (λ r. Tells r (expressions.typing (with_texts names.now scope.now) (tree_of e.now))) }
{
    let mut literals = LiteralCount::behind(alloc, scope.literals());
    match expression(alloc, names, scope, &mut literals, e) {
        Ok(x) => Ok(x),
        Err(refusal) => Err(refusal),
    }
}

/// The value of an expression; for one of type `void` reports this code at this place.
#[inline(never)]
fn worth_in(
    alloc: Global,
    names: &Names,
    scope: &Scope,
    code: Code,
    pos: Pos,
    e: &Expr,
) -> Result<Worth, Refusal>
    ensures ok { IfOk result (λ w. expressions.valued code pos (expressions.typing (with_texts names.now scope.now) (tree_of e.now)) ≡ fine (worth_of w)) }
    ensures err { IfErr result (λ r. Tells r (expressions.valued code pos (expressions.typing (with_texts names.now scope.now) (tree_of e.now)))) }
{
    match typed_in(alloc, names, scope, e) {
        Ok(x) => valued(alloc, code, pos, x),
        Err(refusal) => Err(refusal),
    }
}

/// The value of an expression, whose literals are appended to the scope's.
#[inline(never)]
pub(crate) fn worth_past(
    alloc: Global,
    names: &Names,
    scope: &mut Scope,
    code: Code,
    pos: Pos,
    e: &Expr,
) -> Result<Worth, Refusal>
    ensures ok { IfOk result (λ w. (expressions.valued code pos (expressions.typing (with_texts names.now scope.old) (tree_of e.now)) ≡ fine (worth_of w)) × (scope.new ≡ scope_typed.past scope.old (tree_of e.now))) }
    ensures err { IfErr result (λ r. Tells r (expressions.valued code pos (expressions.typing (with_texts names.now scope.old) (tree_of e.now)))) }
{
    let worth = match worth_in(alloc, names, scope, code, pos, e) {
        Ok(worth) => worth,
        Err(refusal) => return Err(refusal),
    };
    match past(scope, e) {
        Ok(()) => Ok(worth),
        Err(_) => Err(Refusal::Memory),
    }
}

/// An expression for its side effects (6.8.3p2).
#[inline(never)]
fn effect_of(alloc: Global, names: &Names, scope: &Scope, e: &Expr) -> Result<Value, Refusal>
    ensures ok { IfOk result (λ v. then_check (expressions.typing (with_texts names.now scope.now) (tree_of e.now)) expressions.effect ≡ fine (value_of v)) }
    ensures err { IfErr result (λ r. Tells r (then_check (expressions.typing (with_texts names.now scope.now) (tree_of e.now)) expressions.effect)) }
{
    match typed_in(alloc, names, scope, e) {
        Ok(x) => effect(alloc, x),
        Err(refusal) => Err(refusal),
    }
}

/// An expression for its side effects, whose literals are appended to the scope's.
#[inline(never)]
pub(crate) fn effect_past(
    alloc: Global,
    names: &Names,
    scope: &mut Scope,
    e: &Expr,
) -> Result<Value, Refusal>
    ensures ok { IfOk result (λ v. (then_check (expressions.typing (with_texts names.now scope.old) (tree_of e.now)) expressions.effect ≡ fine (value_of v)) × (scope.new ≡ scope_typed.past scope.old (tree_of e.now))) }
    ensures err { IfErr result (λ r. Tells r (then_check (expressions.typing (with_texts names.now scope.old) (tree_of e.now)) expressions.effect)) }
{
    let value = match effect_of(alloc, names, scope, e) {
        Ok(value) => value,
        Err(refusal) => return Err(refusal),
    };
    match past(scope, e) {
        Ok(()) => Ok(value),
        Err(_) => Err(Refusal::Memory),
    }
}

/// The first part or the step of a `for`, whose literals are appended to the scope's (6.8.5.3).
#[inline(never)]
pub(crate) fn effect_in(
    alloc: Global,
    names: &Names,
    scope: &mut Scope,
    e: &Option<Expr>,
) -> Result<Option<Value>, Refusal>
    ensures ok { IfOk result (λ v. (typed.effect_in (with_texts names.now scope.old) (option_tree e.now) ≡ fine (option_value v)) × (scope.new ≡ typed.past_option scope.old (option_tree e.now))) }
    ensures err { IfErr result (λ r. Tells r (typed.effect_in (with_texts names.now scope.old) (option_tree e.now))) }
{
    match e {
        None => Ok(None),
        Some(e) => match effect_past(alloc, names, scope, e) {
            Ok(value) => Ok(Some(value)),
            Err(refusal) => Err(refusal),
        },
    }
}

/// The test of a `for`, whose literals are appended to the scope's.
#[inline(never)]
pub(crate) fn test_in(
    alloc: Global,
    names: &Names,
    scope: &mut Scope,
    pos: Pos,
    e: &Option<Expr>,
) -> Result<Option<Value>, Refusal>
    ensures ok { IfOk result (λ v. (typed.test_in (with_texts names.now scope.old) pos (option_tree e.now) ≡ fine (option_value v)) × (scope.new ≡ typed.past_option scope.old (option_tree e.now))) }
    ensures err { IfErr result (λ r. Tells r (typed.test_in (with_texts names.now scope.old) pos (option_tree e.now))) }
{
    match e {
        None => Ok(None),
        Some(e) => match worth_past(alloc, names, scope, Code::VoidControl, pos, e) {
            Ok(worth) => Ok(Some(worth.value)),
            Err(refusal) => Err(refusal),
        },
    }
}
