//! The bytes of elements and rows (6.5.2.1, 6.5.3.4).

ghost use Rattle.std.specs.Prelude.{◌≡◌, ◌∷◌, [], map, Option, Some, None, slice_get};
ghost use Rattle.ctypes.specs.declared.types.IntType.TheVariants as ty;
ghost use Rattle.typing_spec.specs.Types.{elements_in, complete, unknown_size};
ghost use Rattle.typing_spec.specs.Nodes as typed;
ghost use Rattle.typed_ast.specs.View.{place_of, storage_of, object_type_of, parameter_type_of, static_of, program_of, function_of};
ghost use Rattle.lower_ops.specs.layer.Rows as rows;

use crate::scopes::Scope;
use ctypes::{IntType, size_of};
use typed_ast::{ObjectType, ParameterType, Place, Static, Storage};

/// How many elements an array of these lengths has, as far as a word counts.
pub fn elements_counted(lengths: &[u32]) -> usize
    ensures { result ≡ rows.counted (elements_in lengths.now) }
{
    match lengths.split_first() {
        None => 1,
        Some((first, rest)) => (*first as usize).saturating_mul(elements_counted(rest)),
    }
}

// ---- sizes, as far as a word counts

fn object_size(element: IntType, lengths: &[u32]) -> usize
    ensures { result ≡ rows.counted (rows.size_at 0 element lengths.now) }
{
    (size_of(element) as usize).saturating_mul(elements_counted(lengths))
}

/// The bytes of a part that is `depth` elements deep in an object of these lengths.
fn size_at(depth: usize, element: IntType, lengths: &[u32]) -> usize
    ensures { result ≡ rows.counted (rows.size_at depth element lengths.now) }
{
    if depth == 0 {
        return object_size(element, lengths);
    }
    match lengths.split_first() {
        None => 0,
        Some((_, rest)) => size_at(depth - 1, element, rest),
    }
}

fn size_in(depth: usize, object: &ObjectType) -> usize
    ensures { result ≡ rows.counted (rows.deep_size depth (Some (complete (object_type_of object.now)))) }
{
    size_at(depth, object.element, &object.lengths)
}

fn text_size(depth: usize, length: usize) -> usize
    ensures { result ≡ rows.size_at depth ty.Char (length ∷ []) }
{
    if depth == 0 {
        return length;
    }
    if depth == 1 { 1 } else { 0 }
}

fn literal_size(depth: usize, literals: &[Vec<u8>], number: usize) -> usize
    ensures { result ≡ rows.deep_size depth (typed.text_type (slice_get (map (λ text. text.items) literals.now) number)) }
{
    match literals.get(number) {
        None => 0,
        Some(text) => text_size(depth, text.len()),
    }
}

fn static_size(depth: usize, statics: &[Static], number: usize) -> usize
    ensures { result ≡ rows.counted (rows.deep_size depth (typed.static_type (slice_get (map static_of statics.now) number))) }
{
    match statics.get(number) {
        None => 0,
        Some(object) => size_in(depth, &object.object_type),
    }
}

fn automatic_size(depth: usize, objects: &[ObjectType], number: usize) -> usize
    ensures { result ≡ rows.counted (rows.deep_size depth (typed.object_type (slice_get (map object_type_of objects.now) number))) }
{
    match objects.get(number) {
        None => 0,
        Some(object) => size_in(depth, object),
    }
}

/// An array parameter refers to elements of an array of unknown size.
fn unknown_size(depth: usize, object: &ObjectType) -> usize
    ensures { result ≡ rows.counted (rows.deep_size depth (Some (unknown_size (object_type_of object.now)))) }
{
    if depth == 0 {
        return 0;
    }
    size_in(depth - 1, object)
}

fn parameter_size(depth: usize, parameters: &[ParameterType], number: usize) -> usize
    ensures { result ≡ rows.counted (rows.deep_size depth (typed.reference_in (map parameter_type_of parameters.now) number)) }
{
    match parameters.split_first() {
        None => 0,
        Some((ParameterType::Number(_), rest)) => parameter_size(depth, rest, number),
        Some((ParameterType::Elements(object), rest)) => {
            if number == 0 {
                return unknown_size(depth, object);
            }
            parameter_size(depth, rest, number - 1)
        }
    }
}

fn named_size(scope: &Scope<'_>, depth: usize, what: Storage) -> usize
    ensures { result ≡ rows.counted (rows.deep_size depth (typed.type_of_storage (program_of scope.now.program.now) (function_of scope.now.function.now) (storage_of what))) }
{
    match what {
        Storage::Literal(number) => literal_size(depth, &scope.program.literals, number),
        Storage::Static(number) => static_size(depth, &scope.program.statics, number),
        Storage::Automatic(number) => automatic_size(depth, &scope.function.objects, number),
        Storage::Parameter(number) => {
            parameter_size(depth, &scope.function.function_type.parameters, number)
        }
    }
}

/// The bytes of a part that is `depth` elements deep in a place. No type has as many lengths as a word counts.
fn deep_size(scope: &Scope<'_>, depth: usize, place: &Place) -> usize
    ensures { result ≡ rows.counted (rows.deep_size depth (typed.type_of_place (program_of scope.now.program.now) (function_of scope.now.function.now) (place_of place.now))) }
{
    match place {
        Place::Named(_, what) => named_size(scope, depth, *what),
        Place::Element(_, array, _) => deep_size(scope, depth.saturating_add(1), array),
    }
}

// ---- whole sizes

/// The bytes of the elements of an array.
pub fn element_size(scope: &Scope<'_>, array: &Place) -> usize
    ensures { result ≡ rows.deep_size 1 (typed.type_of_place (program_of scope.now.program.now) (function_of scope.now.function.now) (place_of array.now)) }
{
    deep_size(scope, 1, array)
}
