//! Whether string literals and objects with static storage are sound.

ghost use Rattle.std.specs.Prelude.{◌≡◌, ◌↔◌, ◌≤◌, ◌<◌, ◌+◌, ◌^◌, true, length, map, min, IsTrue};
ghost use Rattle.typed_ast.specs.View.{static_of, object_type_of};
ghost use Rattle.typing_spec.specs.Types.{size_of_object};
ghost use Rattle.typing_spec.specs.WellTyped.{values_fit};
ghost use Rattle.tac_code.specs.Sound.{static_bytes};
ghost use Rattle.frames.specs.Sizes.{literal_bytes, statics_bytes};
ghost use Rattle.test_tac_soundness.specs.inside.Parts.{BytesFit, LiteralsFit, ValuesFit};

use crate::objects::{TOO_MANY, object_size, plus_words};
use ctypes::IntType;
use typed_ast::Static;

/// Whether each is a value of the type.
fn are_values(element: IntType, values: &[i64]) -> bool
    ensures { IsTrue result ↔ (values_fit element values.now ≡ true) }
{
    for value in values {
        if !element.contains(*value) {
            return false;
        }
    }
    true
}

fn has_values(object: &Static) -> bool
    ensures { IsTrue result ↔ (values_fit (static_of object.now).type.element (static_of object.now).values ≡ true) }
{
    are_values(object.object_type.element, &object.values)
}

/// Whether objects begin with values of their types.
pub fn have_values(statics: &[Static]) -> bool
    ensures { IsTrue result ↔ ValuesFit (map static_of statics.now) (length statics.now) }
{
    for (number, object) in statics.iter().enumerate() {
        if !has_values(object) {
            return false;
        }
    }
    true
}

/// Whether each is below 2^8, as its type guarantees.
fn are_bytes(text: &[u8]) -> bool
    ensures { IsTrue result ↔ BytesFit text.now (length text.now) }
{
    for (number, byte) in text.iter().enumerate() {
        if u16::from(*byte) > 0xFF {
            return false;
        }
    }
    true
}

/// Whether the characters of string literals are bytes.
pub fn have_bytes(literals: &[Vec<u8>]) -> bool
    ensures { IsTrue result ↔ LiteralsFit (map (λ text. text.items) literals.now) (length literals.now) }
{
    for (number, text) in literals.iter().enumerate() {
        if !are_bytes(text) {
            return false;
        }
    }
    true
}

/// The bytes of string literals.
pub fn literals_size(literals: &[Vec<u8>]) -> usize
    ensures { result ≡ min (literal_bytes (map (λ text. text.items) literals.now)) 16777217 }
{
    let mut total = 0;
    for text in literals {
        total = plus_words(total, text.len().min(TOO_MANY));
    }
    total
}

/// The bytes of an object: none where it is only declared.
fn static_size(object: &Static) -> usize
    ensures { result ≡ min (static_bytes object.now.defined (size_of_object (object_type_of object.now.object_type))) 16777217 }
{
    if object.defined {
        plus_words(0, object_size(&object.object_type))
    } else {
        0
    }
}

/// The sum, up to the bound.
fn plus(total: usize, bytes: usize) -> usize
    requires total { total ≤ 16777217 }
    requires bytes { bytes ≤ 16777217 }
    ensures { result ≡ min (total + bytes) 16777217 }
{
    (total + bytes).min(TOO_MANY)
}

/// The bytes of objects with static storage.
pub fn statics_size(statics: &[Static]) -> usize
    ensures { result ≡ min (statics_bytes (map static_of statics.now)) 16777217 }
{
    let mut total = 0;
    for object in statics {
        total = plus(total, static_size(object));
    }
    total
}
