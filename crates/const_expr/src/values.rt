//! The values of constant expressions (6.6).
#![tactic(auto)]

ghost use Rattle.std.specs.Prelude.{◌≡◌, IfErr, IfOk};
ghost use Rattle.tree.specs.View.{tree_of};
ghost use Rattle.typing_spec.specs.Verdict.{fine};
ghost use Rattle.typing_spec.specs.Expressions as typed;
ghost use Rattle.typing_expressions.specs.Refused.{Tells};
ghost use Rattle.typing_scopes.specs.Scopes.{with_texts};
ghost use Rattle.const_expr.specs.Typings.{constant_of};
ghost use Rattle.const_expr.specs.Told.{IsFaultOfVerdict};

use crate::constant_forms::constant_form;
use crate::constants::{Constant, constant_worth};
use crate::typing::expression;
use ctypes::IntType;
use srcset::{Fault, Names, Refusal};
use std::alloc::Global;
use tree::Expr;
use typing_expressions::LiteralCount;
use typing_scopes::Scope;

/// The type and the value of a constant expression.
pub fn constant_value(
    alloc: Global,
    names: &Names,
    scope: &Scope,
    e: &Expr,
) -> Result<Constant, Refusal>
    ensures ok { IfOk result (λ c. typed.constant_value (with_texts names.now scope.now) (tree_of e.now) ≡ fine (constant_of c)) }
    ensures err { IfErr result (λ r. Tells r (typed.constant_value (with_texts names.now scope.now) (tree_of e.now))) }
{
    match constant_form(scope, e) {
        Ok(()) => {}
        Err(refusal) => return Err(refusal),
    }
    let mut literals = LiteralCount::behind(alloc, scope.literals());
    match expression(alloc, names, scope, &mut literals, e) {
        Ok(x) => constant_worth(alloc, x),
        Err(refusal) => Err(refusal),
    }
}

/// The type and the value of a constant expression (6.6) in a scope, whose names and literals have these texts.
///
/// Fails
/// - with 501 where a part is not allowed in a constant expression, also where it is not evaluated;
/// - else with another constraint that the expression breaks, 5xx, 62x or 712;
/// - else with 503 at a division by zero, or 502 at another operation without a value, the first that is evaluated;
/// - with 801 where memory runs out.
///
/// Its recursion is as deep as the tree is.
pub fn value(alloc: Global, e: &Expr, scope: &Scope, names: &Names) -> Result<(IntType, i64), Fault>
    ensures ok { IfOk result (λ v. typed.constant_value (with_texts names.now scope.now) (tree_of e.now) ≡ fine (record { type = v.0; v = v.1 })) }
    ensures err { IfErr result (λ fault. IsFaultOfVerdict fault names.now (typed.constant_value (with_texts names.now scope.now) (tree_of e.now))) }
{
    match constant_value(alloc, names, scope, e) {
        Ok(constant) => Ok((constant.ty, constant.value)),
        Err(refusal) => Err(refusal.to_fault(alloc, names)),
    }
}
