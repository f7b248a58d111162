//! The bytes of objects (ISO/IEC 9899:2011 6.5.3.4), up to a bound.

ghost use Rattle.std.specs.Prelude.{◌≡◌, ◌↔◌, ◌≤◌, ◌<◌, ◌+◌, ◌*◌, ◌^◌, map, length, min, IsTrue};
ghost use Rattle.typed_ast.specs.View.{object_type_of};
ghost use Rattle.typing_spec.specs.Types.{elements_in, size_of_object};
ghost use Rattle.typing_spec.specs.Units as units;
ghost use Rattle.test_tac_soundness.specs.inside.Parts.{AreSized};

use ctypes::size_of;
use typed_ast::ObjectType;

/// One byte more than the data of a program may take: sums and products stop here.
pub const TOO_MANY: usize = 0x100_0001;

/// Bytes rounded up to a multiple of 4.
fn in_words(bytes: usize) -> usize
    requires { bytes ≤ 16777217 }
    ensures { result ≡ units.in_words bytes }
{
    (bytes + 3) / 4 * 4
}

/// Adds `bytes` bytes, in whole words.
pub fn plus_words(total: usize, bytes: usize) -> usize
    requires total { total ≤ 16777217 }
    requires bytes { bytes ≤ 16777217 }
    ensures { result ≡ min (total + units.in_words bytes) 16777217 }
{
    (total + in_words(bytes)).min(TOO_MANY)
}

fn times(count: usize, length: usize) -> usize
    requires count { count ≤ 16777217 }
    requires length { length < 2 ^ 32 }
    ensures { result ≡ min (count * length) 16777217 }
{
    (count * length).min(TOO_MANY)
}

/// How many elements an array of these lengths has.
fn elements(lengths: &[u32]) -> usize
    ensures { result ≡ min (elements_in lengths.now) 16777217 }
{
    let mut count = 1;
    for length in lengths {
        count = times(count, *length as usize);
    }
    count
}

/// Whether an array of these lengths has an element of this number: divides instead of multiplying, since the product has no bound.
pub fn has_element_in(lengths: &[u32], number: usize) -> bool
    ensures { IsTrue result ↔ (number < elements_in lengths.now) }
{
    let mut rest = number;
    for length in lengths {
        if *length == 0 {
            return false;
        }
        rest /= *length as usize;
    }
    rest == 0
}

/// The bytes of an object.
pub fn object_size(object: &ObjectType) -> usize
    ensures { result ≡ min (size_of_object (object_type_of object.now)) 16777217 }
{
    times(elements(&object.lengths), size_of(object.element) as usize)
}

/// The bytes of objects, each in whole words.
pub fn objects_size(objects: &[ObjectType]) -> usize
    ensures { result ≡ min (units.bytes_of_objects (map object_type_of objects.now)) 16777217 }
{
    let mut total = 0;
    for object in objects {
        total = plus_words(total, object_size(object));
    }
    total
}

fn is_sized(object: &ObjectType) -> bool
    ensures { IsTrue result ↔ (0 < size_of_object (object_type_of object.now)) }
{
    0 < object_size(object)
}

/// Whether no object is without bytes.
pub fn are_sized(objects: &[ObjectType]) -> bool
    ensures { IsTrue result ↔ AreSized (map object_type_of objects.now) (length objects.now) }
{
    for (number, object) in objects.iter().enumerate() {
        if !is_sized(object) {
            return false;
        }
    }
    true
}
