//! The specifiers of a declaration (6.7.1, 6.7.2).
#![tactic(auto, using(decls_declarators::proofs::Verdicts::told))]

ghost use Rattle.std.specs.Prelude.{◌≡◌, ◌∷◌, List, map, IfErr, IfOk, OnOk};
ghost use Rattle.tree.specs.Tree.{SpecifierTree};
ghost use Rattle.tree.specs.View.{specifier_of, item_of};
ghost use Rattle.typing_spec.specs.Scope as scope_typed;
ghost use Rattle.typing_spec.specs.Verdict.{fine, then_check};
ghost use Rattle.typing_spec.specs.Declarations as typed;
ghost use Rattle.typing_expressions.specs.Refused.{Tells};
ghost use Rattle.typing_scopes.specs.Scopes.{with_texts};
ghost use Rattle.decls_specifiers.specs.Views.{specified_of};
ghost use Rattle.decls_specifiers.specs.inside.Lists.{list_read};

use crate::classes::class_of;
use crate::enumerator_lists::enumerated;
use crate::plain_specifiers::{base_in, lists_in};
use const_expr::BaseType;
use decls_linkage::StorageClass;
use srcset::{Code, Names, Pos, Refusal};
use std::alloc::Global;
use tree::{Item, Specifier, Specifiers};
use typing_expressions::broken;
use typing_scopes::Scope;

/// The meaning of specifiers.
#[derive(Clone, Copy)]
pub struct SpecifiedBase {
    pub class: StorageClass,
    pub base: BaseType,
}

/// The enumerators of a specifier, if it contains a list.
fn with_list(
    alloc: Global,
    names: &Names,
    scope: &mut Scope,
    pos: Pos,
    specifier: &Specifier,
) -> Result<(), Refusal>
    ensures ok { OnOk result (list_read (with_texts names.now scope.old) pos (specifier_of specifier.now) ≡ fine (with_texts names.now scope.new)) }
    ensures err { IfErr result (λ r. Tells r (list_read (with_texts names.now scope.old) pos (specifier_of specifier.now))) }
{
    match specifier {
        Specifier::Extern => Ok(()),
        Specifier::Static => Ok(()),
        Specifier::Plain(_) => Ok(()),
        Specifier::Enumerators(tag, list) => enumerated(alloc, names, scope, pos, *tag, list),
    }
}

/// The enumerators of all lists.
fn with_lists(
    alloc: Global,
    names: &Names,
    scope: &mut Scope,
    pos: Pos,
    specifiers: &[Specifier],
) -> Result<(), Refusal>
    ensures ok { OnOk result (typed.with_lists (with_texts names.now scope.old) pos (map specifier_of specifiers.now) ≡ fine (with_texts names.now scope.new)) }
    ensures err { IfErr result (λ r. Tells r (typed.with_lists (with_texts names.now scope.old) pos (map specifier_of specifiers.now))) }
{
    for specifier in specifiers {
        match with_list(alloc, names, scope, pos, specifier) {
            Ok(()) => {}
            Err(refusal) => return Err(refusal),
        }
    }
    Ok(())
}

/// The meaning of specifiers, after their lists of enumerators.
///
/// Fails
/// - with 512 where there are two storage-class specifiers;
/// - with 511 where they name no type, and with 525 where a tag has no complete list, or a second one in a scope;
/// - with 514 where an enumerator is declared already, and with 524 where its value is no `int`;
/// - with 515 where it has the name of a built-in at file scope;
/// - with the violations of an enumerator's value, and with 801 where memory runs out.
///
/// After an error the scope is unspecified.
pub fn specified(
    alloc: Global,
    names: &Names,
    scope: &mut Scope,
    specifiers: &Specifiers,
) -> Result<SpecifiedBase, Refusal>
    ensures ok { IfOk result (λ d. typed.specified (with_texts names.now scope.old) specifiers.now.pos (map specifier_of specifiers.now.list.items) ≡ fine (specified_of d (with_texts names.now scope.new))) }
    ensures err { IfErr result (λ r. Tells r (typed.specified (with_texts names.now scope.old) specifiers.now.pos (map specifier_of specifiers.now.list.items))) }
{
    match with_lists(alloc, names, scope, specifiers.pos, &specifiers.list) {
        Ok(()) => {}
        Err(refusal) => return Err(refusal),
    }
    let class = match class_of(specifiers.pos, &specifiers.list) {
        Ok(class) => class,
        Err(refusal) => return Err(refusal),
    };
    match base_in(alloc, scope, specifiers) {
        Ok(base) => Ok(SpecifiedBase { class, base }),
        Err(refusal) => Err(refusal),
    }
}

/// A declaration declares a declarator or enumerators (6.7p2).
fn declares_nothing(specifiers: &[Specifier], items: &[Item]) -> bool
    ensures { result ≡ typed.declares_nothing (map specifier_of specifiers.now) (map item_of items.now) }
{
    lists_in(specifiers) == 0 && items.is_empty()
}

/// The meaning of the specifiers of a declaration with these declarators. It fails as `specified` does, and with 513 where the declaration
/// declares nothing.
pub fn specified_for(
    alloc: Global,
    names: &Names,
    scope: &mut Scope,
    specifiers: &Specifiers,
    items: &[Item],
) -> Result<SpecifiedBase, Refusal>
    ensures ok { IfOk result (λ d. typed.specified_for (with_texts names.now scope.old) specifiers.now.pos (map specifier_of specifiers.now.list.items) (map item_of items.now) ≡ fine (specified_of d (with_texts names.now scope.new))) }
    ensures err { IfErr result (λ r. Tells r (typed.specified_for (with_texts names.now scope.old) specifiers.now.pos (map specifier_of specifiers.now.list.items) (map item_of items.now))) }
{
    let said = match specified(alloc, names, scope, specifiers) {
        Ok(said) => said,
        Err(refusal) => return Err(refusal),
    };
    if declares_nothing(&specifiers.list, items) {
        return Err(broken(Code::DeclaresNothing, specifiers.pos));
    }
    Ok(said)
}
