//! The string literals of expressions, each an object of its own (6.4.5p6).
#![tactic(auto, using(crate::proofs::Strings::none_more, crate::proofs::Strings::some_more))]

ghost use Rattle.std.specs.Prelude.{◌≡◌, map, OnOk, IfErr};
ghost use Rattle.srcset.specs.declared.refusal.Refusal.TheVariants.{Memory};
ghost use Rattle.tree.specs.View.{tree_of, trees_of};
ghost use Rattle.typing_spec.specs.Scope as typed;

use srcset::Refusal;
use tree::Expr;
use typing_scopes::Scope;

/// Appends the literals of expressions to those of the scope.
#[cycle(literals)]
fn all_past(scope: &mut Scope, es: &[Expr]) -> Result<(), Refusal>
    ensures ok { OnOk result (scope.new ≡ typed.with_literals scope.old (typed.strings_in (trees_of (map tree_of es.now)))) }
    ensures err { IfErr result (λ r. r ≡ Memory) }
{
    for e in es {
        match past(scope, e) {
            Ok(()) => {}
            Err(refusal) => return Err(refusal),
        }
    }
    Ok(())
}

/// Appends the literals of an expression to those of the scope. It fails where memory runs out.
///
/// Its recursion is as deep as the tree is.
#[cycle(literals)]
pub fn past(scope: &mut Scope, e: &Expr) -> Result<(), Refusal>
    ensures ok { OnOk result (scope.new ≡ typed.past scope.old (tree_of e.now)) }
    ensures err { IfErr result (λ r. r ≡ Memory) }
{
    match e {
        Expr::Name(_, _) => Ok(()),
        Expr::Constant(_, _, _) => Ok(()),
        Expr::StringLiteral(_, name) => scope.with_literal(*name),
        Expr::Paren(a) => past(scope, a),
        Expr::Call(_, _, es) => all_past(scope, es),
        Expr::Subscript(_, a, i) => match past(scope, a) {
            Ok(()) => past(scope, i),
            Err(refusal) => Err(refusal),
        },
        Expr::After(_, _, a) => past(scope, a),
        Expr::Before(_, _, a) => past(scope, a),
        Expr::Prefix(_, _, a) => past(scope, a),
        Expr::SizeofExpr(_, a) => past(scope, a),
        Expr::SizeofType(_, name) => all_past(scope, &name.sizes),
        Expr::Cast(_, name, a) => match all_past(scope, &name.sizes) {
            Ok(()) => past(scope, a),
            Err(refusal) => Err(refusal),
        },
        Expr::Binary(_, _, a, b) => match past(scope, a) {
            Ok(()) => past(scope, b),
            Err(refusal) => Err(refusal),
        },
        Expr::Conditional(_, test, a, b) => match past(scope, test) {
            Ok(()) => match past(scope, a) {
                Ok(()) => past(scope, b),
                Err(refusal) => Err(refusal),
            },
            Err(refusal) => Err(refusal),
        },
        Expr::Assign(_, _, a, b) => match past(scope, a) {
            Ok(()) => past(scope, b),
            Err(refusal) => Err(refusal),
        },
    }
}
