//! The first values of the objects with static storage (6.7.9p10).
#![tactic(auto)]

ghost use Rattle.std.specs.Prelude.{◌≡◌, ◌∷◌, ◌++◌, [], List, map, OnOk, IfOk, IfErr};
ghost use Rattle.srcset.specs.declared.refusal.Refusal.TheVariants.{Memory};
ghost use Rattle.typed_ast.specs.View as view;
ghost use Rattle.typing_scopes.specs.Scopes.{static_of};
ghost use Rattle.typing_spec.specs.Scope as scope_typed;
ghost use Rattle.typing_spec.specs.Declarations as declarations;
ghost use Rattle.typing_spec.specs.Units as typed;
ghost use Rattle.typing_units.specs.Views.{initial_of};

use srcset::Refusal;
use std::alloc::Global;
use typed_ast::Static;
use typing_scopes::StaticObject;

/// The values that an initialiser gives an object with static storage.
#[derive(Drop)]
pub struct Initial {
    /// The number of the object.
    pub static_number: usize,
    /// The values of its first elements.
    pub values: Vec<i64>,
}

/// One more object.
fn push_static(all: &mut Vec<Static>, object: Static) -> Result<(), Refusal>
    ensures ok { OnOk result (all.new.items ≡ all.old.items ++ object ∷ []) }
    ensures err { IfErr result (λ r. r ≡ Memory) }
{
    match all.push(object) {
        Ok(()) => Ok(()),
        Err(_) => Err(Refusal::Memory),
    }
}

/// The objects, none with a value.
fn without_values(alloc: Global, statics: Vec<StaticObject>) -> Result<Vec<Static>, Refusal>
    ensures ok { IfOk result (λ all. map view.static_of all.items ≡ typed.statics_from 0 (map static_of statics.items) []) }
    ensures err { IfErr result (λ r. r ≡ Memory) }
{
    let mut all = Vec::new(alloc);
    for object in statics {
        let empty = Static {
            name: object.name,
            object_type: object.object_type,
            defined: object.defined,
            values: Vec::new(alloc),
        };
        match push_static(&mut all, empty) {
            Ok(()) => {}
            Err(refusal) => return Err(refusal),
        }
    }
    Ok(all)
}

/// An object has these values, in place of those that it had.
fn with_values(all: &mut Vec<Static>, initial: Initial)
    ensures { (os : List scope_typed.StaticObject) (is : List declarations.Initial) → map view.static_of all.old.items ≡ typed.statics_from 0 os is → map view.static_of all.new.items ≡ typed.statics_from 0 os (initial_of initial ∷ is) }
{
    if initial.static_number < all.len() {
        all[initial.static_number].values = initial.values;
    }
}

/// The objects have these values: of several for one object, the first.
fn set_values(all: &mut Vec<Static>, mut given: Vec<Initial>)
    ensures { (os : List scope_typed.StaticObject) → map view.static_of all.old.items ≡ typed.statics_from 0 os [] → map view.static_of all.new.items ≡ typed.statics_from 0 os (map initial_of given.items) }
{
    while let Some(last) = given.pop() {
        with_values(all, last);
    }
}

/// The objects with static storage with their first values: of several for one object the first, and none for an object without
/// an initialiser. It fails where memory runs out, and takes time by the objects and the initialisers.
pub fn statics_of(
    alloc: Global,
    statics: Vec<StaticObject>,
    given: Vec<Initial>,
) -> Result<Vec<Static>, Refusal>
    ensures ok { IfOk result (λ all. map view.static_of all.items ≡ typed.statics_from 0 (map static_of statics.items) (map initial_of given.items)) }
    ensures err { IfErr result (λ r. r ≡ Memory) }
{
    let mut all = match without_values(alloc, statics) {
        Ok(all) => all,
        Err(refusal) => return Err(refusal),
    };
    set_values(&mut all, given);
    Ok(all)
}
