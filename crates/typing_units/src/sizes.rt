//! The bytes that objects take (6.5.3.4), each in whole words. From 2^32 - 1 on a size is this number.
#![tactic(auto, using(crate::proofs::Sums::capped32_none, crate::proofs::Sums::capped32_one, crate::proofs::Bytes::in_words_more, crate::proofs::Bytes::in_words_none, crate::proofs::Bytes::capped32_four))]

ghost use Rattle.std.specs.Prelude.{◌≡◌, ◌+◌, ◌*◌, ℕ, map};
ghost use Rattle.tree.specs.Capped.{capped, capped32};
ghost use Rattle.typed_ast.specs.View.{object_type_of, parameter_type_of};
ghost use Rattle.typing_spec.specs.Types.{elements_in, size_of_object};
ghost use Rattle.typing_spec.specs.Units as typed;
ghost use Rattle.typing_units.specs.inside.Parts.{reference_bytes};

use ctypes::size_of;
use typed_ast::{ObjectType, ParameterType};

/// The sum, or 2^32 - 1 where it is greater.
pub(crate) fn sum(a: u32, b: u32) -> u32
    ensures { (x y : ℕ) → a ≡ capped32 x → b ≡ capped32 y → result ≡ capped32 (x + y) }
{
    a.saturating_add(b)
}

/// A number, or 2^32 - 1 where it is greater.
pub(crate) fn narrowed(number: u64) -> u32
    ensures { (x : ℕ) → number ≡ capped x → result ≡ capped32 x }
{
    if number < 4_294_967_295 {
        number as u32
    } else {
        4_294_967_295
    }
}

/// The product, or 2^32 - 1 where it is greater.
fn product(a: u32, b: u32) -> u32
    ensures { (x y : ℕ) → a ≡ capped32 x → b ≡ capped32 y → result ≡ capped32 (x * y) }
{
    a.saturating_mul(b)
}

/// Bytes rounded up to a multiple of 4. The result saturates at 2^32 - 1.
pub fn in_words(bytes: u32) -> u32
    ensures { (x : ℕ) → bytes ≡ capped32 x → result ≡ capped32 (typed.in_words x) }
{
    match bytes.checked_add(3) {
        Some(more) => more / 4 * 4,
        None => u32::MAX,
    }
}

/// How many elements an array of these lengths has.
fn elements(lengths: &[u32]) -> u32
    ensures { result ≡ capped32 (elements_in lengths.now) }
{
    let mut count: u32 = 1;
    for length in lengths {
        count = count.saturating_mul(*length);
    }
    count
}

/// The bytes of an object.
pub(crate) fn object_size(object: &ObjectType) -> u32
    ensures { result ≡ capped32 (size_of_object (object_type_of object.now)) }
{
    product(size_of(object.element), elements(&object.lengths))
}

/// The bytes of objects, each in whole words, or 2^32 - 1 where they are more.
pub fn bytes_of_objects(objects: &[ObjectType]) -> u32
    ensures { result ≡ capped32 (typed.bytes_of_objects (map object_type_of objects.now)) }
{
    let mut total = 0;
    for object in objects {
        total = sum(total, in_words(object_size(object)));
    }
    total
}

/// The bytes of the reference that a parameter is, none of a number.
fn reference_size(parameter: &ParameterType) -> u32
    ensures { result ≡ capped32 (reference_bytes (parameter_type_of parameter.now)) }
{
    match parameter {
        ParameterType::Number(_) => 0,
        ParameterType::Elements(_) => 4,
    }
}

/// The bytes of the references among parameters, or 2^32 - 1 where they are more. Those that are numbers are among the objects.
pub fn bytes_of_references(parameters: &[ParameterType]) -> u32
    ensures { result ≡ capped32 (typed.bytes_of_references (map parameter_type_of parameters.now)) }
{
    let mut total = 0;
    for parameter in parameters {
        total = sum(total, reference_size(parameter));
    }
    total
}
