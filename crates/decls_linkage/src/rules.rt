//! Linkage and definitions, by the storage-class specifier and the declaration before (6.2.2, 6.9.2).
#![tactic(auto)]

ghost use Rattle.std.specs.Prelude.{◌≡◌};
ghost use Rattle.typing_spec.specs.Linkage as typed;
ghost use Rattle.typing_spec.specs.Scope as typed_scope;
ghost use Rattle.typing_scopes.specs.Scopes.{option_binding, linkage_of, state_of};
ghost use Rattle.decls_linkage.specs.Views.{class_of};

use typing_scopes::{Binding, Linkage, State};

/// The storage-class specifier of a declaration (6.7.1).
#[derive(Clone, Copy, PartialEq, Eq, Debug)]
pub enum StorageClass {
    None,
    Extern,
    Static,
}

/// 6.2.2p4, p5: `extern` keeps the linkage of the declaration before.
fn as_before(before: Option<&Binding>) -> Linkage
    ensures { linkage_of result ≡ typed.as_before (option_binding before.entry) }
{
    match before {
        None => Linkage::External,
        Some(binding) => binding.linkage,
    }
}

pub(crate) fn linkage_of_object(class: StorageClass, before: Option<&Binding>) -> Linkage
    ensures { linkage_of result ≡ typed.linkage_of_object (class_of class) (option_binding before.entry) }
{
    match class {
        StorageClass::None => Linkage::External,
        StorageClass::Extern => as_before(before),
        StorageClass::Static => Linkage::Internal,
    }
}

/// A function without a specifier is as with `extern`.
pub(crate) fn linkage_of_function(class: StorageClass, before: Option<&Binding>) -> Linkage
    ensures { linkage_of result ≡ typed.linkage_of_function (class_of class) (option_binding before.entry) }
{
    match class {
        StorageClass::None => as_before(before),
        StorageClass::Extern => as_before(before),
        StorageClass::Static => Linkage::Internal,
    }
}

/// With an initialiser a definition, without one a tentative definition, unless it has `extern` (6.9.2p1, p2).
pub fn state_of_object(class: StorageClass, initialised: bool) -> State
    ensures { state_of result ≡ typed.state_of_object (class_of class) initialised }
{
    if initialised {
        return State::Defined;
    }
    match class {
        StorageClass::Extern => State::Mentioned,
        StorageClass::Static => State::Tentative,
        StorageClass::None => State::Tentative,
    }
}

pub(crate) fn joined(a: State, b: State) -> State
    ensures { state_of result ≡ typed.joined (state_of a) (state_of b) }
{
    match a {
        State::Defined => State::Defined,
        State::Mentioned => b,
        State::Tentative => match b {
            State::Defined => State::Defined,
            State::Tentative => State::Tentative,
            State::Mentioned => State::Tentative,
        },
    }
}

pub(crate) fn is_linked(linkage: Linkage) -> bool
    ensures { result ≡ typed.is_linked (linkage_of linkage) }
{
    match linkage {
        Linkage::None => false,
        Linkage::Internal => true,
        Linkage::External => true,
    }
}

pub(crate) fn is_internal(linkage: Linkage) -> bool
    ensures { result ≡ typed.is_internal (linkage_of linkage) }
{
    match linkage {
        Linkage::None => false,
        Linkage::Internal => true,
        Linkage::External => false,
    }
}

fn is_external(linkage: Linkage) -> bool
    ensures { result ≡ typed.clash typed_scope.internal (linkage_of linkage) }
{
    match linkage {
        Linkage::None => false,
        Linkage::Internal => false,
        Linkage::External => true,
    }
}

/// Internal linkage and external linkage of one name (6.2.2p7).
pub(crate) fn clash(a: Linkage, b: Linkage) -> bool
    ensures { result ≡ typed.clash (linkage_of a) (linkage_of b) }
{
    match a {
        Linkage::None => false,
        Linkage::Internal => is_external(b),
        Linkage::External => is_internal(b),
    }
}

pub(crate) fn is_defined(state: State) -> bool
    ensures { result ≡ typed.is_defined (state_of state) }
{
    match state {
        State::Defined => true,
        State::Tentative => false,
        State::Mentioned => false,
    }
}

pub(crate) fn is_mentioned(state: State) -> bool
    ensures { result ≡ typed.is_mentioned (state_of state) }
{
    match state {
        State::Defined => false,
        State::Tentative => false,
        State::Mentioned => true,
    }
}
