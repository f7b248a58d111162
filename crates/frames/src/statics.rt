//! The bytes of the data as a program begins.

ghost use Rattle.std.specs.Prelude.{ℕ, ◌≡◌, ◌≤◌, ◌<◌, ◌+◌, ◌^◌, ◌++◌, map, length, vec_len, OnOk, IfOk};
ghost use Rattle.ctypes.specs.Types as types;
ghost use Rattle.typed_ast.specs.View.{object_type_of, static_of};
ghost use Rattle.tac_code.specs.Code.{program_of};
ghost use Rattle.tac_code.specs.Sound.{data_bytes, static_bytes};
ghost use Rattle.typing_spec.specs.Types.{size_of_object};
ghost use Rattle.frames.specs.Sizes.{literal_bytes, statics_bytes};
ghost use Rattle.frames.specs.Data.{low_bytes, filled_up, bytes_of_values, bytes_of_static, bytes_of_statics, bytes_of_literals, data_of};
ghost use Rattle.frames.specs.layer.Alone.{with_data};
ghost use Rattle.typing_spec.specs.Units as units;

use crate::sizes::in_words;
use crate::starts::static_size;
use ctypes::{IntType, size_of};
use std::alloc::{AllocError, Global};
use tac_code::TacProgram;
use typed_ast::Static;

/// A number modulo 2^32.
fn word_of(number: i64) -> u32
    ensures { result ≡ types.modulo 32 number }
{
    (number.cast_unsigned() % 0x1_0000_0000) as u32
}

/// The `count` lowest bytes of a word, the lowest first.
fn put_low_bytes(bytes: &mut Vec<u8>, count: u32, word: u32) -> Result<(), AllocError>
    ensures { OnOk result (bytes.new.items ≡ bytes.old.items ++ low_bytes count word) }
{
    let mut rest = word;
    for _ in 0..count {
        bytes.push((rest % 0x100) as u8)?;
        rest /= 0x100;
    }
    Ok(())
}

fn put_values(bytes: &mut Vec<u8>, element: IntType, values: &[i64]) -> Result<(), AllocError>
    ensures { OnOk result (bytes.new.items ≡ bytes.old.items ++ bytes_of_values element values.now) }
{
    for value in values {
        put_low_bytes(bytes, size_of(element), word_of(*value))?;
    }
    Ok(())
}

/// A string literal, with zeros up to a multiple of 4.
fn put_literal(bytes: &mut Vec<u8>, text: &[u8]) -> Result<(), AllocError>
    requires old { length bytes.old.items < 2 ^ 62 }
    requires new { length text.now < 2 ^ 62 }
    ensures { OnOk result (bytes.new.items ≡ bytes.old.items ++ filled_up (units.in_words (length text.now)) text.now) }
{
    let start = bytes.len();
    bytes.extend_from_slice(text)?;
    bytes.resize(start + in_words(text.len()), 0)
}

fn put_literals(bytes: &mut Vec<u8>, literals: &[Vec<u8>]) -> Result<(), AllocError>
    requires { length bytes.old.items + literal_bytes (map (λ text. text.items) literals.now) < 2 ^ 62 }
    ensures { OnOk result (bytes.new.items ≡ bytes.old.items ++ bytes_of_literals (map (λ text. text.items) literals.now)) }
{
    for text in literals {
        put_literal(bytes, text)?;
    }
    Ok(())
}

/// An object with its first values, and zeros after them; nothing where it has no bytes.
fn put_static(bytes: &mut Vec<u8>, object: &Static) -> Result<(), AllocError>
    requires old { length bytes.old.items < 2 ^ 62 }
    requires new { static_bytes object.now.defined (size_of_object (object_type_of object.now.object_type)) < 2 ^ 62 }
    ensures { OnOk result (bytes.new.items ≡ bytes.old.items ++ bytes_of_static (static_of object.now)) }
{
    if !object.defined {
        return Ok(());
    }
    let start = bytes.len();
    put_values(bytes, object.object_type.element, &object.values)?;
    bytes.resize(start + static_size(object), 0)
}

fn put_statics(bytes: &mut Vec<u8>, statics: &[Static]) -> Result<(), AllocError>
    requires { length bytes.old.items + statics_bytes (map static_of statics.now) < 2 ^ 62 }
    ensures { OnOk result (bytes.new.items ≡ bytes.old.items ++ bytes_of_statics (map static_of statics.now)) }
{
    for object in statics {
        put_static(bytes, object)?;
    }
    Ok(())
}

/// The bytes of the data as a program with these string literals and objects with static storage begins.
pub fn data_alone(
    alloc: Global,
    literals: &[Vec<u8>],
    statics: &[Static],
) -> Result<Vec<u8>, AllocError>
    requires { data_bytes (map (λ text. text.items) literals.now) (map static_of statics.now) ≤ 2 ^ 24 }
    ensures { IfOk result (λ bytes. bytes.items ≡ data_of (with_data (map (λ text. text.items) literals.now) (map static_of statics.now))) }
{
    let mut bytes = Vec::new(alloc);
    bytes.resize(16, 0)?;
    put_literals(&mut bytes, literals)?;
    put_statics(&mut bytes, statics)?;
    Ok(bytes)
}

/// The bytes of the data as a program begins: 16 zeros, its string literals, its objects with static storage, each from a multiple
/// of 4 on, the lowest byte of a number first.
pub fn data(alloc: Global, program: &TacProgram) -> Result<Vec<u8>, AllocError>
    requires { data_bytes (program_of program.now).literals (program_of program.now).statics ≤ 2 ^ 24 }
    ensures { IfOk result (λ bytes. bytes.items ≡ data_of (program_of program.now)) }
{
    data_alone(alloc, &program.literals, &program.statics)
}
