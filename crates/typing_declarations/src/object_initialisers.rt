//! The initialisers of objects with their types (6.7.9).
#![tactic(auto)]

ghost use Rattle.std.specs.Prelude.{◌≡◌, true, IfErr, IfOk};
ghost use Rattle.tree.specs.View.{init_of};
ghost use Rattle.typed_ast.specs.View.{declared_type_of, initialiser_of};
ghost use Rattle.typing_spec.specs.Verdict.{fine};
ghost use Rattle.typing_spec.specs.Initialisers as initialisers;
ghost use Rattle.typing_spec.specs.Declarations as typed;
ghost use Rattle.typing_expressions.specs.Refused.{Tells};
ghost use Rattle.typing_scopes.specs.Scopes.{with_texts};
ghost use Rattle.decls_initialisers.specs.Views.{wanted_of};

use ctypes::IntType;
use decls_initialisers::{Wanted, initialiser, wanted_object};
use srcset::{Names, Pos, Refusal};
use std::alloc::Global;
use tree::Initialiser as Init;
use typed_ast::{DeclaredType, Initialiser};
use typing_scopes::Scope;

/// The type of its elements.
pub(crate) fn element_of(declared: &DeclaredType) -> IntType
    ensures { result ≡ typed.element_of (declared_type_of declared.now) }
{
    match declared {
        DeclaredType::Complete(object) => object.element,
        DeclaredType::UnknownSize(element) => element.element,
    }
}

/// The object to initialise: an object, or an array of as many elements as its initialiser gives it.
pub(crate) fn wanted_by<'t>(declared: &'t DeclaredType) -> Wanted<'t>
    ensures { wanted_of result ≡ typed.wanted_by (declared_type_of declared.now) }
{
    match declared {
        DeclaredType::Complete(object) => wanted_object(&object.lengths),
        DeclaredType::UnknownSize(element) => Wanted::Array(None, &element.lengths),
    }
}

/// The initialiser of an object with this type.
pub(crate) fn object_initialiser(
    alloc: Global,
    names: &Names,
    scope: &Scope,
    pos: Pos,
    declared: &DeclaredType,
    init: &Init,
) -> Result<Initialiser, Refusal>
    ensures ok { IfOk result (λ i. initialisers.initialiser (with_texts names.now scope.now) pos (typed.element_of (declared_type_of declared.now)) (typed.wanted_by (declared_type_of declared.now)) true (init_of init.now) ≡ fine (initialiser_of i)) }
    ensures err { IfErr result (λ r. Tells r (initialisers.initialiser (with_texts names.now scope.now) pos (typed.element_of (declared_type_of declared.now)) (typed.wanted_by (declared_type_of declared.now)) true (init_of init.now))) }
{
    let element = element_of(declared);
    let wanted = wanted_by(declared);
    initialiser(alloc, names, scope, pos, element, wanted, true, init)
}
