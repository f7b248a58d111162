//! Declarations and static assertions with their effects (6.7, 6.7.10).
#![tactic(auto)]

ghost use Rattle.std.specs.Prelude.{◌≡◌, ◌++◌, List, map, IfErr, OnOk};
ghost use Rattle.tree.specs.Tree.{declared};
ghost use Rattle.tree.specs.View.{specifier_of, item_of, declaration_of};
ghost use Rattle.typed_ast.specs.declared.statements.Statement.{Statement};
ghost use Rattle.typing_units.specs.declared.first_values.Initial.{Initial};
ghost use Rattle.typing_spec.specs.Verdict.{fine};
ghost use Rattle.typing_spec.specs.Declarations as typed;
ghost use Rattle.typing_expressions.specs.Refused.{Tells};
ghost use Rattle.typing_scopes.specs.Scopes.{with_texts};
ghost use Rattle.typing_declarations.specs.Views.{declared_of};
ghost use Rattle.typing_declarations.specs.inside.Effects.{Leaves};

use crate::typed_items::items_typed;
use decls::asserted;
use decls_specifiers::specified_for;
use srcset::{Names, Refusal};
use std::alloc::Global;
use tree::{Declaration, Item, Specifiers};
use typed_ast::Statement;
use typing_scopes::Scope;
use typing_units::Initial;

/// Specifiers and their declarators.
fn with_items(
    alloc: Global,
    names: &Names,
    scope: &mut Scope,
    statements: &mut Vec<Statement>,
    firsts: &mut Vec<Initial>,
    specifiers: &Specifiers,
    items: &[Item],
) -> Result<(), Refusal>
    ensures ok { OnOk result (Leaves (typed.declaration_typed (with_texts names.now scope.old) (declared specifiers.now.pos (map specifier_of specifiers.now.list.items) (map item_of items.now))) (with_texts names.now scope.new) statements.old.items statements.new.items firsts.old.items firsts.new.items) }
    ensures err { IfErr result (λ r. Tells r (typed.declaration_typed (with_texts names.now scope.old) (declared specifiers.now.pos (map specifier_of specifiers.now.list.items) (map item_of items.now)))) }
{
    let said = match specified_for(alloc, names, scope, specifiers, items) {
        Ok(said) => said,
        Err(refusal) => return Err(refusal),
    };
    items_typed(
        alloc, names, scope, statements, firsts, said.class, said.base, items,
    )
}

/// A declaration (6.7) or a static assertion (6.7.10), in a scope whose names and literals have these texts: the scope after it, and
/// the statements of its automatic objects and the first values of its objects with static storage, appended to those before.
///
/// Fails
/// - with a fault of the specifiers, 511 to 514, 515, 524, 525, and a fault of the value of an enumerator;
/// - with a fault of a declarator, 514 to 519, 521, 526, 553, 712, and a fault of its sizes;
/// - with a fault of an initialiser, 501, 520, 521, 534, 622, and a fault of its expressions;
/// - with a fault of an assertion's condition, or with 523;
/// - with 801 where memory runs out.
///
/// After a refusal the scope, the statements and the first values are unspecified.
pub fn declaration_typed(
    alloc: Global,
    names: &Names,
    scope: &mut Scope,
    statements: &mut Vec<Statement>,
    initial: &mut Vec<Initial>,
    declaration: &Declaration,
) -> Result<(), Refusal>
    ensures ok { OnOk result ((xs : List Statement) × (js : List Initial) × (statements.new.items ≡ statements.old.items ++ xs) × (initial.new.items ≡ initial.old.items ++ js) × (typed.declaration_typed (with_texts names.now scope.old) (declaration_of declaration.now) ≡ fine (declared_of (with_texts names.now scope.new) xs js))) }
    ensures err { IfErr result (λ r. Tells r (typed.declaration_typed (with_texts names.now scope.old) (declaration_of declaration.now))) }
{
    match declaration {
        Declaration::Declared(specifiers, items) => with_items(
            alloc, names, scope, statements, initial, specifiers, items,
        ),
        Declaration::Assertion(pos, condition, _) => {
            match asserted(alloc, names, scope, *pos, condition) {
                Ok(()) => Ok(()),
                Err(refusal) => Err(refusal),
            }
        }
    }
}
