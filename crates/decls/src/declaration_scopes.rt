//! Declarations and static assertions (6.7, 6.7.10).
#![tactic(auto, using(decls_declarators::proofs::Verdicts::told))]

ghost use Rattle.std.specs.Prelude.{◌≡◌, map, IfErr, IfOk, OnOk};
ghost use Rattle.tree.specs.Tree.{declared};
ghost use Rattle.tree.specs.View.{tree_of, specifier_of, item_of, declaration_of};
ghost use Rattle.typing_spec.specs.Verdict.{fine};
ghost use Rattle.typing_spec.specs.Declarations as typed;
ghost use Rattle.typing_expressions.specs.Refused.{Tells};
ghost use Rattle.typing_scopes.specs.Scopes.{with_texts};
ghost use Rattle.decls.specs.Told.{IsFaultOfVerdict};

use crate::declared_items::items_declared;
use const_expr::constant_value;
use decls_declarators::past;
use decls_specifiers::specified_for;
use srcset::{Code, Fault, Names, Pos, Refusal};
use std::alloc::Global;
use tree::{Declaration, Expr, Item, Specifiers};
use typing_expressions::broken;
use typing_scopes::Scope;

/// The scope after a static assertion, whose condition is a constant other than zero (6.7.10p3).
///
/// Fails
/// - with the violations of the condition as a constant expression, and with 523 where it is zero;
/// - with 801 where memory runs out.
pub fn asserted(
    alloc: Global,
    names: &Names,
    scope: &mut Scope,
    pos: Pos,
    condition: &Expr,
) -> Result<(), Refusal>
    ensures ok { OnOk result (typed.asserted (with_texts names.now scope.old) pos (tree_of condition.now) ≡ fine (with_texts names.now scope.new)) }
    ensures err { IfErr result (λ r. Tells r (typed.asserted (with_texts names.now scope.old) pos (tree_of condition.now))) }
{
    let constant = match constant_value(alloc, names, scope, condition) {
        Ok(constant) => constant,
        Err(refusal) => return Err(refusal),
    };
    if constant.value == 0 {
        return Err(broken(Code::StaticAssertionFailed, pos));
    }
    match past(scope, condition) {
        Ok(()) => Ok(()),
        Err(_) => Err(Refusal::Memory),
    }
}

/// The scope after specifiers and their declarators.
fn with_items(
    alloc: Global,
    names: &Names,
    scope: &mut Scope,
    specifiers: &Specifiers,
    items: &[Item],
) -> Result<(), Refusal>
    ensures ok { OnOk result (typed.scope_after (with_texts names.now scope.old) (declared specifiers.now.pos (map specifier_of specifiers.now.list.items) (map item_of items.now)) ≡ fine (with_texts names.now scope.new)) }
    ensures err { IfErr result (λ r. Tells r (typed.scope_after (with_texts names.now scope.old) (declared specifiers.now.pos (map specifier_of specifiers.now.list.items) (map item_of items.now)))) }
{
    let said = match specified_for(alloc, names, scope, specifiers, items) {
        Ok(said) => said,
        Err(refusal) => return Err(refusal),
    };
    match items_declared(alloc, names, scope, said.class, said.base, items) {
        Ok(()) => Ok(()),
        Err(refusal) => Err(refusal),
    }
}

fn scope_after(
    alloc: Global,
    names: &Names,
    scope: &mut Scope,
    declaration: &Declaration,
) -> Result<(), Refusal>
    ensures ok { OnOk result (typed.scope_after (with_texts names.now scope.old) (declaration_of declaration.now) ≡ fine (with_texts names.now scope.new)) }
    ensures err { IfErr result (λ r. Tells r (typed.scope_after (with_texts names.now scope.old) (declaration_of declaration.now))) }
{
    match declaration {
        Declaration::Declared(specifiers, items) => {
            with_items(alloc, names, scope, specifiers, items)
        }
        Declaration::Assertion(pos, condition, _) => asserted(alloc, names, scope, *pos, condition),
    }
}

/// The scope after a declaration (6.7) or a static assertion (6.7.10), in which names and literals have these texts. Initialisers
/// are examined only for the sizes that they give.
///
/// Fails
/// - with the violations of the specifiers, 511 to 514, 515, 524, 525 and those of the value of an enumerator;
/// - with the violations of a declarator, 514 to 519, 521, 526, 553, 712 and those of its sizes;
/// - with the violations of an assertion's condition, or with 523;
/// - with 801 where memory runs out.
///
/// The fault is of a violated constraint, at its place; the scope is then lost.
pub fn declare(
    alloc: Global,
    declaration: &Declaration,
    scope: Scope,
    names: &Names,
) -> Result<Scope, Fault>
    ensures ok { IfOk result (λ s. typed.scope_after (with_texts names.now scope) (declaration_of declaration.now) ≡ fine (with_texts names.now s)) }
    ensures err { IfErr result (λ fault. IsFaultOfVerdict fault names.now (typed.scope_after (with_texts names.now scope) (declaration_of declaration.now))) }
{
    let mut scope = scope;
    match scope_after(alloc, names, &mut scope, declaration) {
        Ok(()) => Ok(scope),
        Err(refusal) => Err(refusal.to_fault(alloc, names)),
    }
}
