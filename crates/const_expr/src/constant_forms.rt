//! The forms that are allowed in a constant expression (6.6p3, p6).
#![tactic(auto, using(typing_expressions::proofs::Verdicts::each_left, typing_expressions::proofs::Verdicts::each_right, typing_expressions::proofs::Verdicts::each_fine))]

ghost use Rattle.std.specs.Prelude.{◌≡◌, IfErr, OnOk};
ghost use Rattle.typing_spec.specs.Verdict.{fine};
ghost use Rattle.typing_spec.specs.Constants as typed;
ghost use Rattle.tree.specs.View.{tree_of};
ghost use Rattle.typing_expressions.specs.Refused.{IsOf};
ghost use Rattle.typing_scopes.specs.Scopes.{option_binding};

use srcset::{Code, Pos, Refusal};
use tree::{BinaryOp, Expr};
use typing_scopes::{Binding, Meaning, Scope};

fn not_constant(pos: Pos) -> Result<(), Refusal>
    ensures ok { OnOk result (typed.unfit_at pos ≡ fine tt) }
    ensures err { IfErr result (λ r. IsOf r (typed.unfit_at pos)) }
{
    Err(Refusal::At {
        code: Code::NotConstantExpression,
        pos,
    })
}

fn no_comma(pos: Pos, op: BinaryOp) -> Result<(), Refusal>
    ensures ok { OnOk result (typed.no_comma pos op ≡ fine tt) }
    ensures err { IfErr result (λ r. IsOf r (typed.no_comma pos op)) }
{
    if op == BinaryOp::Comma {
        return not_constant(pos);
    }
    Ok(())
}

/// Whether an expression may be the operand of `sizeof` in a constant expression: no assignment, increment, decrement, call or
/// comma, also where it is not evaluated. Else 501 is reported at one of these.
pub fn measurable(e: &Expr) -> Result<(), Refusal>
    ensures ok { OnOk result (typed.measurable (tree_of e.now) ≡ fine tt) }
    ensures err { IfErr result (λ r. IsOf r (typed.measurable (tree_of e.now))) }
{
    match e {
        Expr::Name(..) | Expr::Constant(..) | Expr::StringLiteral(..) => Ok(()),
        Expr::SizeofType(..) => Ok(()),
        Expr::Paren(a) => measurable(a),
        Expr::Prefix(_, _, a) => measurable(a),
        Expr::SizeofExpr(_, a) => measurable(a),
        Expr::Cast(_, _, a) => measurable(a),
        Expr::Subscript(_, a, i) => {
            measurable(a)?;
            measurable(i)
        }
        Expr::Binary(pos, op, a, b) => {
            no_comma(*pos, *op)?;
            measurable(a)?;
            measurable(b)
        }
        Expr::Conditional(_, c, a, b) => {
            measurable(c)?;
            measurable(a)?;
            measurable(b)
        }
        Expr::Call(pos, ..) | Expr::After(pos, ..) => not_constant(*pos),
        Expr::Before(pos, ..) | Expr::Assign(pos, ..) => not_constant(*pos),
    }
}

fn constant_name(pos: Pos, binding: Option<&Binding>) -> Result<(), Refusal>
    ensures ok { OnOk result (typed.constant_name pos (option_binding binding.entry) ≡ fine tt) }
    ensures err { IfErr result (λ r. IsOf r (typed.constant_name pos (option_binding binding.entry))) }
{
    let Some(binding) = binding else {
        return Ok(());
    };
    match &binding.meaning {
        Meaning::Enumerator(_) => Ok(()),
        Meaning::Object(..) => not_constant(pos),
        Meaning::ArrayParameter(..) => not_constant(pos),
        Meaning::Function(..) => not_constant(pos),
    }
}

/// Whether an expression may be a constant expression: of names enumerators alone, and string literals and subscripts under
/// `sizeof` alone. Else 501 is reported at a part that is not allowed.
pub fn constant_form(scope: &Scope, e: &Expr) -> Result<(), Refusal>
    ensures ok { OnOk result (typed.constant_form scope.now (tree_of e.now) ≡ fine tt) }
    ensures err { IfErr result (λ r. IsOf r (typed.constant_form scope.now (tree_of e.now))) }
{
    match e {
        Expr::Name(pos, name) => constant_name(*pos, scope.lookup(*name)),
        Expr::Constant(..) | Expr::SizeofType(..) => Ok(()),
        Expr::Paren(a) => constant_form(scope, a),
        Expr::Prefix(_, _, a) => constant_form(scope, a),
        Expr::SizeofExpr(_, a) => measurable(a),
        Expr::Cast(_, _, a) => constant_form(scope, a),
        Expr::Binary(pos, op, a, b) => {
            no_comma(*pos, *op)?;
            constant_form(scope, a)?;
            constant_form(scope, b)
        }
        Expr::Conditional(_, c, a, b) => {
            constant_form(scope, c)?;
            constant_form(scope, a)?;
            constant_form(scope, b)
        }
        Expr::StringLiteral(pos, _) | Expr::Subscript(pos, ..) => not_constant(*pos),
        Expr::Call(pos, ..) | Expr::After(pos, ..) => not_constant(*pos),
        Expr::Before(pos, ..) | Expr::Assign(pos, ..) => not_constant(*pos),
    }
}
