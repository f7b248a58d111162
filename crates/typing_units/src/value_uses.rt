//! The first use in an expression or an initialiser of an object or function without a definition (6.9p3, p5).
#![tactic(auto, using(crate::proofs::Firsts::found_first, crate::proofs::Firsts::found_later))]

ghost use Rattle.std.specs.Prelude.{◌≡◌, ◌++◌, List, map, slice_get};
ghost use Rattle.typed_ast.specs.View.{storage_of, callee_of, place_of, value_of, argument_of, arguments_of, option_value, initialiser_of, initialisers_of};
ghost use Rattle.typing_scopes.specs.Scopes.{static_of};
ghost use Rattle.typing_spec.specs.Scope as scope_typed;
ghost use Rattle.typing_spec.specs.Uses as typed;
ghost use Rattle.typing_units.specs.inside.Undefined.{undefined_in, uses_in_given};

use srcset::Pos;
use typed_ast::{Argument, Callee, Initialiser, Place, Storage, Value};
use typing_scopes::StaticObject;

/// The first of two places, found in two parts.
pub(crate) fn earlier(first: Option<Pos>, later: Option<Pos>) -> Option<Pos>
    ensures { (os : List scope_typed.StaticObject) (xs ys : List typed.Use) → first ≡ undefined_in os xs → later ≡ undefined_in os ys → result ≡ undefined_in os (xs ++ ys) }
{
    match first {
        Some(pos) => Some(pos),
        None => later,
    }
}

/// Whether an object has no definition.
fn is_undefined(statics: &[StaticObject], number: usize) -> bool
    ensures { result ≡ typed.is_undefined_object (slice_get (map static_of statics.now) number) }
{
    match statics.get(number) {
        Some(object) => !object.defined,
        None => false,
    }
}

fn use_of_static(statics: &[StaticObject], pos: Pos, number: usize) -> Option<Pos>
    ensures { result ≡ undefined_in (map static_of statics.now) (typed.use_of pos (typed.an_object number)) }
{
    if is_undefined(statics, number) {
        return Some(pos);
    }
    None
}

fn use_of_storage(statics: &[StaticObject], pos: Pos, what: Storage) -> Option<Pos>
    ensures { result ≡ undefined_in (map static_of statics.now) (typed.use_of_storage pos (storage_of what)) }
{
    match what {
        Storage::Static(number) => use_of_static(statics, pos, number),
        Storage::Literal(_) => None,
        Storage::Automatic(_) => None,
        Storage::Parameter(_) => None,
    }
}

fn use_of_callee(pos: Pos, callee: Callee) -> Option<Pos>
    ensures { (os : List scope_typed.StaticObject) → result ≡ undefined_in os (typed.use_of_callee pos (callee_of callee)) }
{
    match callee {
        Callee::Missing(_) => Some(pos),
        Callee::Function(_) => None,
        Callee::GetByte => None,
        Callee::PutByte => None,
        Callee::Exit => None,
    }
}

// ---- expressions

#[cycle(uses_of_values)]
fn in_place(statics: &[StaticObject], place: &Place) -> Option<Pos>
    ensures { result ≡ undefined_in (map static_of statics.now) (typed.uses_in_place (place_of place.now)) }
{
    match place {
        Place::Named(pos, what) => use_of_storage(statics, *pos, *what),
        Place::Element(_, array, index) => earlier(
            in_place(statics, array),
            in_value(statics, index),
        ),
    }
}

#[cycle(uses_of_values)]
fn in_argument(statics: &[StaticObject], argument: &Argument) -> Option<Pos>
    ensures { result ≡ undefined_in (map static_of statics.now) (uses_in_given (argument_of argument.now)) }
{
    match argument {
        Argument::Number(_, e) => in_value(statics, e),
        Argument::Array(place) => in_place(statics, place),
    }
}

#[cycle(uses_of_values)]
fn in_arguments(statics: &[StaticObject], arguments: &[Argument]) -> Option<Pos>
    ensures { result ≡ undefined_in (map static_of statics.now) (typed.uses_in_arguments (arguments_of (map argument_of arguments.now))) }
{
    let mut found = None;
    for argument in arguments {
        found = earlier(found, in_argument(statics, argument));
    }
    found
}

/// The recursion is as deep as the tree.
#[cycle(uses_of_values)]
pub(crate) fn in_value(statics: &[StaticObject], value: &Value) -> Option<Pos>
    ensures { result ≡ undefined_in (map static_of statics.now) (typed.uses (value_of value.now)) }
{
    match value {
        Value::Constant(_, _) => None,
        Value::Read(_, place) => in_place(statics, place),
        Value::Assigned(_, _, place, e) => earlier(in_place(statics, place), in_value(statics, e)),
        Value::Compound(_, _, _, _, place, e) => {
            earlier(in_place(statics, place), in_value(statics, e))
        }
        Value::Stepped(_, _, _, _, _, place) => in_place(statics, place),
        Value::Unary(_, _, _, e) => in_value(statics, e),
        Value::Binary(_, _, _, a, b) => earlier(in_value(statics, a), in_value(statics, b)),
        Value::BothTrue(a, b) => earlier(in_value(statics, a), in_value(statics, b)),
        Value::OneTrue(a, b) => earlier(in_value(statics, a), in_value(statics, b)),
        Value::Chosen(_, test, a, b) => earlier(
            earlier(in_value(statics, test), in_value(statics, a)),
            in_value(statics, b),
        ),
        Value::Sequence(a, b) => earlier(in_value(statics, a), in_value(statics, b)),
        Value::Cast(_, e) => in_value(statics, e),
        Value::Discarded(e) => in_value(statics, e),
        Value::Call(pos, callee, _, _, arguments) => {
            earlier(
                use_of_callee(*pos, *callee),
                in_arguments(statics, arguments),
            )
        }
    }
}

pub(crate) fn in_option(statics: &[StaticObject], value: &Option<Value>) -> Option<Pos>
    ensures { result ≡ undefined_in (map static_of statics.now) (typed.uses_in_option (option_value value.now)) }
{
    match value {
        Some(value) => in_value(statics, value),
        None => None,
    }
}

// ---- initialisers

#[cycle(uses_of_initialisers)]
fn in_initialisers(statics: &[StaticObject], initialisers: &[Initialiser]) -> Option<Pos>
    ensures { result ≡ undefined_in (map static_of statics.now) (typed.uses_in_initialisers (initialisers_of (map initialiser_of initialisers.now))) }
{
    let mut found = None;
    for initialiser in initialisers {
        found = earlier(found, in_initialiser(statics, initialiser));
    }
    found
}

#[cycle(uses_of_initialisers)]
pub(crate) fn in_initialiser(statics: &[StaticObject], initialiser: &Initialiser) -> Option<Pos>
    ensures { result ≡ undefined_in (map static_of statics.now) (typed.uses_in_initialiser (initialiser_of initialiser.now)) }
{
    match initialiser {
        Initialiser::One(_, value) => in_value(statics, value),
        Initialiser::Text(_) => None,
        Initialiser::InBraces(inner) => in_initialiser(statics, inner),
        Initialiser::List(parts) => in_initialisers(statics, parts),
    }
}
