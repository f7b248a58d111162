//! The meaning of a name once it is declared again (6.2.2p7, 6.7p3, p4, 6.9p3, p5).
#![tactic(auto, using(typing_expressions::proofs::Verdicts::each_left, typing_expressions::proofs::Verdicts::each_right, typing_expressions::proofs::Verdicts::each_fine, crate::proofs::Same::same_function_is, crate::proofs::Tellings::told))]

ghost use Rattle.std.specs.Prelude.{◌≡◌, ◌&&◌, IfErr, IfOk, OnOk};
ghost use Rattle.srcset.specs.declared.code.Code.TheVariants as code;
ghost use Rattle.srcset.specs.declared.refusal.Refusal.TheVariants.{Memory};
ghost use Rattle.typing_spec.specs.Verdict.{fine, refuse_if, each};
ghost use Rattle.typing_spec.specs.Types.{composite};
ghost use Rattle.typing_spec.specs.Scope.{a_function};
ghost use Rattle.typing_spec.specs.Linkage as typed;
ghost use Rattle.typed_ast.specs.View.{storage_of, declared_type_of, function_type_of};
ghost use Rattle.typing_expressions.specs.Refused.{IsOf, Tells};
ghost use Rattle.typing_scopes.specs.Scopes.{meaning_of, linkage_of, state_of, binding_of, option_binding};
ghost use Rattle.decls_linkage.specs.Views.{option_meaning, agreed_of};

use crate::comparisons::same_function;
use crate::composites::composite;
use crate::rules::{clash, is_defined, is_linked, joined};
use srcset::{Code, Pos, Refusal};
use std::alloc::Global;
use typed_ast::{DeclaredType, FunctionType, Storage};
use typing_expressions::broken;
use typing_scopes::{Binding, Linkage, Meaning, State};

/// The meaning of a name.
#[derive(Drop)]
pub struct Agreed {
    pub meaning: Meaning,
    pub linkage: Linkage,
    pub state: State,
}

/// An object of the composite type.
fn composite_object(
    alloc: Global,
    what: Storage,
    old: &DeclaredType,
    new: DeclaredType,
) -> Result<Option<Meaning>, Refusal>
    ensures ok { IfOk result (λ m. option_meaning m ≡ typed.object_with (storage_of what) (composite (declared_type_of old.now) (declared_type_of new))) }
    ensures err { IfErr result (λ r. r ≡ Memory) }
{
    match composite(alloc, old, new) {
        Ok(Some(object)) => Ok(Some(Meaning::Object(what, object))),
        Ok(None) => Ok(None),
        Err(refusal) => Err(refusal),
    }
}

/// The new one of two functions, where their types are the same.
fn agreeing_function(old: &FunctionType, new: FunctionType) -> Option<Meaning>
    ensures { option_meaning result ≡ typed.composite_meaning (a_function (function_type_of old.now)) (a_function (function_type_of new)) }
{
    if same_function(old, &new) {
        return Some(Meaning::Function(new));
    }
    None
}

fn composite_meaning(alloc: Global, old: &Meaning, new: Meaning) -> Result<Option<Meaning>, Refusal>
    ensures ok { IfOk result (λ m. option_meaning m ≡ typed.composite_meaning (meaning_of old.now) (meaning_of new)) }
    ensures err { IfErr result (λ r. r ≡ Memory) }
{
    match old {
        Meaning::Object(what, old) => match new {
            Meaning::Object(_, new) => composite_object(alloc, *what, old, new),
            Meaning::ArrayParameter(_, _) => Ok(None),
            Meaning::Function(_) => Ok(None),
            Meaning::Enumerator(_) => Ok(None),
        },
        Meaning::Function(old) => match new {
            Meaning::Function(new) => Ok(agreeing_function(old, new)),
            Meaning::Object(_, _) => Ok(None),
            Meaning::ArrayParameter(_, _) => Ok(None),
            Meaning::Enumerator(_) => Ok(None),
        },
        Meaning::ArrayParameter(_, _) => Ok(None),
        Meaning::Enumerator(_) => Ok(None),
    }
}

/// The composite type of two meanings, where they are compatible (6.7p4).
fn compatible(alloc: Global, pos: Pos, old: &Meaning, new: Meaning) -> Result<Meaning, Refusal>
    ensures ok { IfOk result (λ m. typed.compatible pos (typed.composite_meaning (meaning_of old.now) (meaning_of new)) ≡ fine (meaning_of m)) }
    ensures err { IfErr result (λ r. Tells r (typed.compatible pos (typed.composite_meaning (meaning_of old.now) (meaning_of new)))) }
{
    match composite_meaning(alloc, old, new) {
        Ok(Some(meaning)) => Ok(meaning),
        Ok(None) => Err(broken(Code::RedeclaredWithAnotherType, pos)),
        Err(refusal) => Err(refusal),
    }
}

/// One linkage (6.2.2p7), and one definition (6.9p3, p5).
fn one_linkage(
    pos: Pos,
    linkage: Linkage,
    state: State,
    old_linkage: Linkage,
    old_state: State,
) -> Result<(), Refusal>
    ensures ok { OnOk result (each (refuse_if (typed.clash (linkage_of old_linkage) (linkage_of linkage)) code.LinkageConflict pos) (refuse_if (typed.is_defined (state_of old_state) && typed.is_defined (state_of state)) code.DefinedTwice pos) ≡ fine tt) }
    ensures err { IfErr result (λ r. IsOf r (each (refuse_if (typed.clash (linkage_of old_linkage) (linkage_of linkage)) code.LinkageConflict pos) (refuse_if (typed.is_defined (state_of old_state) && typed.is_defined (state_of state)) code.DefinedTwice pos))) }
{
    if clash(old_linkage, linkage) {
        return Err(broken(Code::LinkageConflict, pos));
    }
    if is_defined(old_state) && is_defined(state) {
        return Err(broken(Code::DefinedTwice, pos));
    }
    Ok(())
}

fn with_linkage(alloc: Global, pos: Pos, new: Agreed, old: &Binding) -> Result<Agreed, Refusal>
    ensures ok { IfOk result (λ a. typed.with_linkage pos (agreed_of new) (binding_of old.now) ≡ fine (agreed_of a)) }
    ensures err { IfErr result (λ r. Tells r (typed.with_linkage pos (agreed_of new) (binding_of old.now))) }
{
    match one_linkage(pos, new.linkage, new.state, old.linkage, old.state) {
        Ok(()) => {}
        Err(refusal) => return Err(refusal),
    }
    match compatible(alloc, pos, &old.meaning, new.meaning) {
        Ok(meaning) => Ok(Agreed {
            meaning,
            linkage: old.linkage,
            state: joined(old.state, new.state),
        }),
        Err(refusal) => Err(refusal),
    }
}

/// The meaning of a name that is declared, perhaps again.
pub(crate) fn redeclared(
    alloc: Global,
    pos: Pos,
    new: Agreed,
    before: Option<&Binding>,
) -> Result<Agreed, Refusal>
    ensures ok { IfOk result (λ a. typed.redeclared pos (agreed_of new) (option_binding before.entry) ≡ fine (agreed_of a)) }
    ensures err { IfErr result (λ r. Tells r (typed.redeclared pos (agreed_of new) (option_binding before.entry))) }
{
    match before {
        None => Ok(new),
        Some(old) if is_linked(old.linkage) => with_linkage(alloc, pos, new, old),
        Some(_) => Err(broken(Code::NameDeclaredTwice, pos)),
    }
}
