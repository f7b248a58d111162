//! Sizes of objects (ISO/IEC 9899:2011 6.5.3.4).

ghost use Rattle.std.specs.Prelude.{◌≡◌, ◌<◌, ◌^◌, min, IsTrue};
ghost use Rattle.typed_ast.specs.View.{object_type_of};
ghost use Rattle.typing_spec.specs.Types.{elements_in, size_of_object};
ghost use Rattle.typing_spec.specs.Units as units;
ghost use Rattle.frames.specs.Layout.{is_scalar};

use ctypes::size_of;
use typed_ast::ObjectType;

/// Bytes rounded up to a multiple of 4.
pub fn in_words(bytes: usize) -> usize
    requires { bytes < 2 ^ 63 }
    ensures { result ≡ units.in_words bytes }
{
    (bytes + 3) / 4 * 4
}

/// How many elements an array of these lengths has, or the greatest number where there are more.
fn elements(lengths: &[u32]) -> usize
    ensures { result ≡ min (elements_in lengths.now) usize.MAX }
{
    let mut count: usize = 1;
    for length in lengths {
        count = count.saturating_mul(*length as usize);
    }
    count
}

/// The bytes of an object, or the greatest number where there are more.
pub fn object_size(object: &ObjectType) -> usize
    ensures { result ≡ min (size_of_object (object_type_of object.now)) usize.MAX }
{
    elements(&object.lengths).saturating_mul(size_of(object.element) as usize)
}
