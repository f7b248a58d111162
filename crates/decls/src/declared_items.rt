//! Declarators in order (6.7, 6.7.6).
#![tactic(auto, using(decls_declarators::proofs::Verdicts::told))]

ghost use Rattle.std.specs.Prelude.{◌≡◌, map, IfErr, OnOk};
ghost use Rattle.tree.specs.View.{option_tree, option_init, parameter_of, item_of};
ghost use Rattle.typing_spec.specs.Verdict.{fine, then_check};
ghost use Rattle.typing_spec.specs.Declarations as typed;
ghost use Rattle.typing_expressions.specs.Refused.{Tells};
ghost use Rattle.const_expr.specs.Typings.{base_type_of};
ghost use Rattle.typing_scopes.specs.Scopes.{with_texts};
ghost use Rattle.decls_linkage.specs.Views.{class_of};
ghost use Rattle.decls.specs.inside.Parts.{item_read};

use crate::begun_objects::begun;
use crate::finished_objects::finished;
use const_expr::BaseType;
use decls_declarators::function_type;
use decls_linkage::{StorageClass, file_function};
use srcset::{Code, Names, Refusal};
use std::alloc::Global;
use tree::{FunctionDeclarator, Item, ObjectDeclarator};
use typing_expressions::broken;
use typing_scopes::{Scope, State};

/// The scope after the declarator of a function, which in a block has no tree.
///
/// Fails
/// - with 401 in a block;
/// - as `decls_declarators::function_type` does where its type is none;
/// - as `decls_linkage::file_function` does where the name is declared already.
///
/// After an error the scope is unspecified.
pub fn function_at(
    alloc: Global,
    names: &Names,
    scope: &mut Scope,
    class: StorageClass,
    base: BaseType,
    declarator: &FunctionDeclarator,
) -> Result<(), Refusal>
    ensures ok { OnOk result (typed.function_at scope.old.level (with_texts names.now scope.old) (class_of class) (base_type_of base) declarator.now.pos declarator.now.name (map parameter_of declarator.now.parameters.items) ≡ fine (with_texts names.now scope.new)) }
    ensures err { IfErr result (λ r. Tells r (typed.function_at scope.old.level (with_texts names.now scope.old) (class_of class) (base_type_of base) declarator.now.pos declarator.now.name (map parameter_of declarator.now.parameters.items))) }
{
    let pos = declarator.pos;
    if scope.level() != 0 {
        return Err(broken(Code::SyntaxError, pos));
    }
    let function = match function_type(alloc, names, scope, base, &declarator.parameters) {
        Ok(function) => function,
        Err(refusal) => return Err(refusal),
    };
    let state = State::Mentioned;
    match file_function(
        alloc,
        names,
        scope,
        pos,
        declarator.name,
        class,
        function,
        state,
    ) {
        Ok(()) => Ok(()),
        Err(refusal) => Err(refusal),
    }
}

/// The scope after the declarator of an object, whose initialiser is examined only for a size.
fn object_declared(
    alloc: Global,
    names: &Names,
    scope: &mut Scope,
    class: StorageClass,
    base: BaseType,
    declarator: &ObjectDeclarator,
) -> Result<(), Refusal>
    ensures ok { OnOk result (then_check (typed.begun (with_texts names.now scope.old) (class_of class) (base_type_of base) declarator.now.pos declarator.now.name (map option_tree declarator.now.sizes.items) (option_init declarator.now.initialiser)) typed.finished ≡ fine (with_texts names.now scope.new)) }
    ensures err { IfErr result (λ r. Tells r (then_check (typed.begun (with_texts names.now scope.old) (class_of class) (base_type_of base) declarator.now.pos declarator.now.name (map option_tree declarator.now.sizes.items) (option_init declarator.now.initialiser)) typed.finished)) }
{
    let object = match begun(alloc, names, scope, class, base, declarator) {
        Ok(object) => object,
        Err(refusal) => return Err(refusal),
    };
    match finished(alloc, names, scope, class, declarator, &object) {
        Ok(()) => Ok(()),
        Err(refusal) => Err(refusal),
    }
}

fn item_declared(
    alloc: Global,
    names: &Names,
    scope: &mut Scope,
    class: StorageClass,
    base: BaseType,
    item: &Item,
) -> Result<(), Refusal>
    ensures ok { OnOk result (item_read (with_texts names.now scope.old) (class_of class) (base_type_of base) (item_of item.now) ≡ fine (with_texts names.now scope.new)) }
    ensures err { IfErr result (λ r. Tells r (item_read (with_texts names.now scope.old) (class_of class) (base_type_of base) (item_of item.now))) }
{
    match item {
        Item::Object(declarator) => {
            object_declared(alloc, names, scope, class, base, declarator)
        }
        Item::Function(declarator) => function_at(alloc, names, scope, class, base, declarator),
    }
}

/// The scope after declarators, each in the scope of those before it.
pub(crate) fn items_declared(
    alloc: Global,
    names: &Names,
    scope: &mut Scope,
    class: StorageClass,
    base: BaseType,
    items: &[Item],
) -> Result<(), Refusal>
    ensures ok { OnOk result (typed.items_declared (with_texts names.now scope.old) (class_of class) (base_type_of base) (map item_of items.now) ≡ fine (with_texts names.now scope.new)) }
    ensures err { IfErr result (λ r. Tells r (typed.items_declared (with_texts names.now scope.old) (class_of class) (base_type_of base) (map item_of items.now))) }
{
    for item in items {
        match item_declared(alloc, names, scope, class, base, item) {
            Ok(()) => {}
            Err(refusal) => return Err(refusal),
        }
    }
    Ok(())
}
