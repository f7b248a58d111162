//! Binding of the names of parameters in the scope of a function's body (6.2.1p4).
#![tactic(auto)]

ghost use Rattle.std.specs.Prelude.{◌≡◌, ◌<◌, ◌≤◌, ◌+◌, ◌-◌, ◌^◌, ◌∷◌, ℕ, List, drop, length, map, IfErr, IfOk, OnOk};
ghost use Rattle.ctypes.specs.declared.types.IntType.{IntType};
ghost use Rattle.typed_ast.specs.declared.types.ObjectType.{ObjectType};
ghost use Rattle.typing_spec.specs.Types.{number, elements};
ghost use Rattle.srcset.specs.declared.refusal.Refusal.TheVariants.{Memory};
ghost use Rattle.tree.specs.View.{parameter_of};
ghost use Rattle.typed_ast.specs.View.{object_type_of, parameter_type_of};
ghost use Rattle.typing_spec.specs.Declarators.{a_number, a_reference};
ghost use Rattle.typing.specs.inside.Names.{named, bound, names_of, with_bindings, Again};

use decls_linkage::copied;
use srcset::Refusal;
use std::alloc::Global;
use tree::Parameter;
use typed_ast::{DeclaredType, ObjectType, ParameterType, Storage};
use typing_scopes::{Linkage, Meaning, Scope, State};

/// A copy of the type of the object with this number.
fn own_copy(alloc: Global, own: &[ObjectType], place: usize) -> Result<ObjectType, Refusal>
    requires { place < length own.now }
    ensures ok { IfOk result (λ t. map object_type_of (drop place own.now) ≡ object_type_of t ∷ map object_type_of (drop (place + 1) own.now)) }
    ensures err { IfErr result (λ r. r ≡ Memory) }
{
    copied(alloc, &own[place])
}

/// Binds a name, if there is one, to the object with this number.
fn name_number(
    scope: &mut Scope,
    name: Option<usize>,
    place: usize,
    object: ObjectType,
) -> Result<(), Refusal>
    ensures ok { (r : ℕ) → OnOk result (scope.new ≡ with_bindings (named scope.old.level r place name (a_number (object_type_of object)) scope.old.bindings) scope.old) }
    ensures err { IfErr result (λ r. r ≡ Memory) }
{
    match name {
        None => Ok(()),
        Some(name) => {
            let meaning = Meaning::Object(
                Storage::Automatic(place),
                DeclaredType::Complete(object),
            );
            scope.with_name(name, meaning, Linkage::None, State::Defined)
        }
    }
}

/// Binds a name, if there is one, to the reference with this number.
fn name_reference(
    scope: &mut Scope,
    name: Option<usize>,
    place: usize,
    element: ObjectType,
) -> Result<(), Refusal>
    ensures ok { (k : ℕ) → OnOk result (scope.new ≡ with_bindings (named scope.old.level place k name (a_reference (object_type_of element)) scope.old.bindings) scope.old) }
    ensures err { IfErr result (λ r. r ≡ Memory) }
{
    match name {
        None => Ok(()),
        Some(name) => {
            let meaning = Meaning::ArrayParameter(place, element);
            scope.with_name(name, meaning, Linkage::None, State::Defined)
        }
    }
}

/// The next number, where there is an object with it.
fn number_again(
    alloc: Global,
    scope: &mut Scope,
    numbers: &mut usize,
    name: Option<usize>,
    own: &[ObjectType],
) -> Result<(), Refusal>
    requires { numbers.old < 2 ^ 64 - 1 }
    ensures ok { (t : IntType) (r : ℕ) → OnOk result (Again scope.old scope.new r r numbers.old numbers.new name (number t) own.now) }
    ensures few { numbers.new ≡ numbers.old + 1 }
    ensures err { IfErr result (λ r. r ≡ Memory) }
{
    let place = *numbers;
    *numbers = place + 1;
    if place >= own.len() {
        return Ok(());
    }
    let object = match own_copy(alloc, own, place) {
        Ok(object) => object,
        Err(refusal) => return Err(refusal),
    };
    match name_number(scope, name, place, object) {
        Ok(()) => Ok(()),
        Err(refusal) => Err(refusal),
    }
}

/// The next reference.
fn reference_again(
    alloc: Global,
    scope: &mut Scope,
    references: &mut usize,
    name: Option<usize>,
    element: &ObjectType,
) -> Result<(), Refusal>
    requires { references.old < 2 ^ 64 - 1 }
    ensures ok { (own : List ObjectType) (k : ℕ) → OnOk result (Again scope.old scope.new references.old references.new k k name (elements (object_type_of element.now)) own) }
    ensures few { references.new ≡ references.old + 1 }
    ensures err { IfErr result (λ r. r ≡ Memory) }
{
    let place = *references;
    *references = place + 1;
    let element = match copied(alloc, element) {
        Ok(element) => element,
        Err(refusal) => return Err(refusal),
    };
    match name_reference(scope, name, place, element) {
        Ok(()) => Ok(()),
        Err(refusal) => Err(refusal),
    }
}

/// One more parameter.
fn parameter_again(
    alloc: Global,
    scope: &mut Scope,
    references: &mut usize,
    numbers: &mut usize,
    name: Option<usize>,
    ty: &ParameterType,
    own: &[ObjectType],
) -> Result<(), Refusal>
    requires references { references.old < 2 ^ 64 - 1 }
    requires numbers { numbers.old < 2 ^ 64 - 1 }
    ensures ok { OnOk result (Again scope.old scope.new references.old references.new numbers.old numbers.new name (parameter_type_of ty.now) own.now) }
    ensures references { references.new ≤ references.old + 1 }
    ensures numbers { numbers.new ≤ numbers.old + 1 }
    ensures err { IfErr result (λ r. r ≡ Memory) }
{
    match ty {
        ParameterType::Number(_) => number_again(alloc, scope, numbers, name, own),
        ParameterType::Elements(element) => {
            reference_again(alloc, scope, references, name, element)
        }
    }
}

/// The names of parameters of these types in order, where a function has these objects of theirs.
pub(crate) fn parameters_again(
    alloc: Global,
    scope: &mut Scope,
    parameters: &[Parameter],
    types: &[ParameterType],
    own: &[ObjectType],
) -> Result<(), Refusal>
    ensures ok { OnOk result (scope.new ≡ with_bindings (bound scope.old.level 0 0 (names_of (map parameter_of parameters.now)) (map parameter_type_of types.now) (map object_type_of own.now) scope.old.bindings) scope.old) }
    ensures err { IfErr result (λ r. r ≡ Memory) }
{
    let mut references = 0;
    let mut numbers = 0;
    let mut place = 0;
    for parameter in parameters {
        if place >= types.len() {
            return Ok(());
        }
        let ty = &types[place];
        match parameter_again(
            alloc,
            scope,
            &mut references,
            &mut numbers,
            parameter.name,
            ty,
            own,
        ) {
            Ok(()) => {}
            Err(refusal) => return Err(refusal),
        }
        place += 1;
    }
    Ok(())
}
