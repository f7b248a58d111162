//! The effects of the declarators of objects, as far as they are known before the scope after them (6.7.9).
#![tactic(auto)]

ghost use Rattle.std.specs.Prelude.{◌≡◌, IfErr, IfOk};
ghost use Rattle.tree.specs.View.{init_of, option_init};
ghost use Rattle.typed_ast.specs.View.{declared_type_of, storage_of};
ghost use Rattle.typing_spec.specs.Verdict.{fine};
ghost use Rattle.typing_spec.specs.Program as program;
ghost use Rattle.typing_spec.specs.Initialisers.{past_init};
ghost use Rattle.typing_spec.specs.Declarations as typed;
ghost use Rattle.typing_expressions.specs.Refused.{Tells};
ghost use Rattle.typing_scopes.specs.Scopes.{with_texts};
ghost use Rattle.typing_declarations.specs.inside.Effects.{begun_at, behind, effect_in};

use crate::object_initialisers::{element_of, object_initialiser, wanted_by};
use decls_initialisers::constant_parts;
use srcset::{Names, Pos, Refusal};
use std::alloc::Global;
use tree::Initialiser as Init;
use typed_ast::{DeclaredType, Initialiser, Storage};
use typing_scopes::Scope;

/// The effect of a declarator, with its place. The values of an initialiser for static storage are not checked yet: they need its literals.
#[derive(Drop)]
pub(crate) enum ObjectEffect {
    Nothing,
    /// The object begins, by its number.
    Declared(Pos, usize),
    Defined(Pos, usize, Initialiser),
    /// The object with static storage has first values.
    First(usize, Initialiser),
}

/// An initialiser for static storage.
fn first_effect(
    alloc: Global,
    names: &Names,
    scope: &Scope,
    pos: Pos,
    number: usize,
    declared: &DeclaredType,
    init: &Init,
) -> Result<ObjectEffect, Refusal>
    ensures ok { IfOk result (λ e. typed.static_values (begun_at (with_texts names.now scope.now) pos (declared_type_of declared.now)) number (init_of init.now) ≡ effect_in (past_init (with_texts names.now scope.now) (init_of init.now)) (declared_type_of declared.now) e) }
    ensures err { IfErr result (λ r. Tells r (typed.static_values (begun_at (with_texts names.now scope.now) pos (declared_type_of declared.now)) number (init_of init.now))) }
{
    match constant_parts(scope, element_of(declared), wanted_by(declared), init) {
        Ok(()) => {}
        Err(refusal) => return Err(refusal),
    }
    match object_initialiser(alloc, names, scope, pos, declared, init) {
        Ok(initialiser) => Ok(ObjectEffect::First(number, initialiser)),
        Err(refusal) => Err(refusal),
    }
}

/// An object with static storage.
fn static_effect(
    alloc: Global,
    names: &Names,
    scope: &Scope,
    pos: Pos,
    number: usize,
    declared: &DeclaredType,
    initialiser: &Option<Init>,
) -> Result<ObjectEffect, Refusal>
    ensures ok { IfOk result (λ e. typed.initialised_as (begun_at (with_texts names.now scope.now) pos (declared_type_of declared.now)) (program.static number) (option_init initialiser.now) ≡ effect_in (behind (with_texts names.now scope.now) (option_init initialiser.now)) (declared_type_of declared.now) e) }
    ensures err { IfErr result (λ r. Tells r (typed.initialised_as (begun_at (with_texts names.now scope.now) pos (declared_type_of declared.now)) (program.static number) (option_init initialiser.now))) }
{
    match initialiser {
        None => Ok(ObjectEffect::Nothing),
        Some(init) => first_effect(alloc, names, scope, pos, number, declared, init),
    }
}

/// An object of the present function.
fn automatic_effect(
    alloc: Global,
    names: &Names,
    scope: &Scope,
    pos: Pos,
    number: usize,
    declared: &DeclaredType,
    initialiser: &Option<Init>,
) -> Result<ObjectEffect, Refusal>
    ensures ok { IfOk result (λ e. typed.initialised_as (begun_at (with_texts names.now scope.now) pos (declared_type_of declared.now)) (program.automatic number) (option_init initialiser.now) ≡ effect_in (behind (with_texts names.now scope.now) (option_init initialiser.now)) (declared_type_of declared.now) e) }
    ensures err { IfErr result (λ r. Tells r (typed.initialised_as (begun_at (with_texts names.now scope.now) pos (declared_type_of declared.now)) (program.automatic number) (option_init initialiser.now))) }
{
    match initialiser {
        None => Ok(ObjectEffect::Declared(pos, number)),
        Some(init) => match object_initialiser(alloc, names, scope, pos, declared, init) {
            Ok(initialiser) => Ok(ObjectEffect::Defined(pos, number, initialiser)),
            Err(refusal) => Err(refusal),
        },
    }
}

/// An object with this storage.
pub(crate) fn object_effect(
    alloc: Global,
    names: &Names,
    scope: &Scope,
    pos: Pos,
    what: Storage,
    declared: &DeclaredType,
    initialiser: &Option<Init>,
) -> Result<ObjectEffect, Refusal>
    ensures ok { IfOk result (λ e. typed.initialised_as (begun_at (with_texts names.now scope.now) pos (declared_type_of declared.now)) (storage_of what) (option_init initialiser.now) ≡ effect_in (behind (with_texts names.now scope.now) (option_init initialiser.now)) (declared_type_of declared.now) e) }
    ensures err { IfErr result (λ r. Tells r (typed.initialised_as (begun_at (with_texts names.now scope.now) pos (declared_type_of declared.now)) (storage_of what) (option_init initialiser.now))) }
{
    match what {
        Storage::Literal(_) => Ok(ObjectEffect::Nothing),
        Storage::Static(n) => static_effect(alloc, names, scope, pos, n, declared, initialiser),
        Storage::Automatic(n) => {
            automatic_effect(alloc, names, scope, pos, n, declared, initialiser)
        }
        Storage::Parameter(_) => Ok(ObjectEffect::Nothing),
    }
}
