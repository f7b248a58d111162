//! Declarators in order with their effects (6.7, 6.7.6, 6.7.9).
#![tactic(auto)]

ghost use Rattle.std.specs.Prelude.{◌≡◌, map, IfErr, OnOk};
ghost use Rattle.tree.specs.View.{option_tree, option_init, item_of};
ghost use Rattle.typing_spec.specs.Verdict.{then_check};
ghost use Rattle.typing_spec.specs.Declarations as typed;
ghost use Rattle.typing_expressions.specs.Refused.{Tells};
ghost use Rattle.const_expr.specs.Typings.{base_type_of};
ghost use Rattle.typing_scopes.specs.Scopes.{with_texts};
ghost use Rattle.decls_linkage.specs.Views.{class_of};
ghost use Rattle.decls.specs.Views.{begun_of};
ghost use Rattle.typing_declarations.specs.inside.Effects.{object_typed, item_typed, Leaves};

use crate::object_effects::object_effect;
use crate::put_effects::put_effect;
use const_expr::BaseType;
use decls::{BegunObject, begun, finished, function_at};
use decls_linkage::StorageClass;
use srcset::{Names, Refusal};
use std::alloc::Global;
use tree::{Item, ObjectDeclarator};
use typed_ast::Statement;
use typing_scopes::Scope;
use typing_units::Initial;

/// An object that has begun: the effects of its initialiser, and the scope after it.
fn begun_typed(
    alloc: Global,
    names: &Names,
    scope: &mut Scope,
    statements: &mut Vec<Statement>,
    firsts: &mut Vec<Initial>,
    class: StorageClass,
    declarator: &ObjectDeclarator,
    object: &BegunObject,
) -> Result<(), Refusal>
    ensures ok { OnOk result (Leaves (object_typed (begun_of object.now class declarator.now (with_texts names.now scope.old))) (with_texts names.now scope.new) statements.old.items statements.new.items firsts.old.items firsts.new.items) }
    ensures err { IfErr result (λ r. Tells r (object_typed (begun_of object.now class declarator.now (with_texts names.now scope.old)))) }
{
    let pos = declarator.pos;
    let init = &declarator.initialiser;
    let effect = match object_effect(
        alloc,
        names,
        scope,
        pos,
        object.what,
        &object.declared,
        init,
    ) {
        Ok(effect) => effect,
        Err(refusal) => return Err(refusal),
    };
    match finished(alloc, names, scope, class, declarator, object) {
        Ok(()) => {}
        Err(refusal) => return Err(refusal),
    }
    let literals = scope.literals();
    let declared = &object.declared;
    match put_effect(alloc, names, literals, declared, effect, statements, firsts) {
        Ok(()) => Ok(()),
        Err(refusal) => Err(refusal),
    }
}

/// The declarator of an object.
fn object_declared(
    alloc: Global,
    names: &Names,
    scope: &mut Scope,
    statements: &mut Vec<Statement>,
    firsts: &mut Vec<Initial>,
    class: StorageClass,
    base: BaseType,
    declarator: &ObjectDeclarator,
) -> Result<(), Refusal>
    ensures ok { OnOk result (Leaves (then_check (typed.begun (with_texts names.now scope.old) (class_of class) (base_type_of base) declarator.now.pos declarator.now.name (map option_tree declarator.now.sizes.items) (option_init declarator.now.initialiser)) object_typed) (with_texts names.now scope.new) statements.old.items statements.new.items firsts.old.items firsts.new.items) }
    ensures err { IfErr result (λ r. Tells r (then_check (typed.begun (with_texts names.now scope.old) (class_of class) (base_type_of base) declarator.now.pos declarator.now.name (map option_tree declarator.now.sizes.items) (option_init declarator.now.initialiser)) object_typed)) }
{
    let object = match begun(alloc, names, scope, class, base, declarator) {
        Ok(object) => object,
        Err(refusal) => return Err(refusal),
    };
    begun_typed(
        alloc, names, scope, statements, firsts, class, declarator, &object,
    )
}

fn item_declared(
    alloc: Global,
    names: &Names,
    scope: &mut Scope,
    statements: &mut Vec<Statement>,
    firsts: &mut Vec<Initial>,
    class: StorageClass,
    base: BaseType,
    item: &Item,
) -> Result<(), Refusal>
    ensures ok { OnOk result (Leaves (item_typed (with_texts names.now scope.old) (class_of class) (base_type_of base) (item_of item.now)) (with_texts names.now scope.new) statements.old.items statements.new.items firsts.old.items firsts.new.items) }
    ensures err { IfErr result (λ r. Tells r (item_typed (with_texts names.now scope.old) (class_of class) (base_type_of base) (item_of item.now))) }
{
    match item {
        Item::Object(declarator) => object_declared(
            alloc, names, scope, statements, firsts, class, base, declarator,
        ),
        Item::Function(declarator) => {
            match function_at(alloc, names, scope, class, base, declarator) {
                Ok(()) => Ok(()),
                Err(refusal) => Err(refusal),
            }
        }
    }
}

/// Declarators, each in the scope of those before it.
pub(crate) fn items_typed(
    alloc: Global,
    names: &Names,
    scope: &mut Scope,
    statements: &mut Vec<Statement>,
    firsts: &mut Vec<Initial>,
    class: StorageClass,
    base: BaseType,
    items: &[Item],
) -> Result<(), Refusal>
    ensures ok { OnOk result (Leaves (typed.items_typed (with_texts names.now scope.old) (class_of class) (base_type_of base) (map item_of items.now)) (with_texts names.now scope.new) statements.old.items statements.new.items firsts.old.items firsts.new.items) }
    ensures err { IfErr result (λ r. Tells r (typed.items_typed (with_texts names.now scope.old) (class_of class) (base_type_of base) (map item_of items.now))) }
{
    for item in items {
        match item_declared(alloc, names, scope, statements, firsts, class, base, item) {
            Ok(()) => {}
            Err(refusal) => return Err(refusal),
        }
    }
    Ok(())
}
