//! The layout of data: the objects, references and slots of a function in its frame, the literals and static objects in the statics.

ghost use Rattle.std.specs.Prelude.{◌≡◌, ◌≤◌, ◌<◌, ◌+◌, ◌^◌, ◌++◌, map, length, IfOk};
ghost use Rattle.typed_ast.specs.View.{object_type_of};
ghost use Rattle.tac_code.specs.Costs.{array_parameters};
ghost use Rattle.frames.specs.Layout.{homes_from, words_in, bytes_in, bytes_of_array};

use crate::sizes::{in_words, object_size};
use std::alloc::{AllocError, Global};
use tac_code::Parameter;
use typed_ast::ObjectType;

/// Where an object of a call lies.
#[derive(Clone, Copy, Debug, PartialEq, Eq)]
pub enum Home {
    /// In a word of the frame.
    Cell(usize),
    /// In the frame's arrays, from this byte on.
    Array(usize),
}

/// The homes of a function's objects, the words of its first reference and of its first slot, all its words, the bytes of its
/// arrays, and how many instructions come first, which move its parameters.
#[derive(Drop)]
pub struct Layout {
    pub homes: Vec<Home>,
    pub references: usize,
    pub slots: usize,
    pub cells: usize,
    pub area: usize,
    pub first: usize,
    ghost near: { references + (slots + first) < 2 ^ 40 },
}

/// How many parameters are arrays.
fn count_arrays(parameters: &[Parameter]) -> usize
    ensures is { result ≡ array_parameters parameters.now }
    ensures few { result ≤ length parameters.now }
{
    let mut count = 0;
    for parameter in parameters {
        match parameter {
            Parameter::Number => {}
            Parameter::Array => count += 1,
        }
    }
    count
}

/// The bytes that an object takes among the arrays.
fn array_bytes(object: &ObjectType) -> usize
    requires { bytes_of_array (object_type_of object.now) < 2 ^ 62 }
    ensures { result ≡ bytes_of_array (object_type_of object.now) }
{
    if object.lengths.is_empty() {
        0
    } else {
        in_words(object_size(object))
    }
}

/// The homes of these objects, one after the other, with their words and the bytes of their arrays.
fn put_homes(homes: &mut Vec<Home>, objects: &[ObjectType]) -> Result<(usize, usize), AllocError>
    requires { words_in (map object_type_of objects.now) + bytes_in (map object_type_of objects.now) < 2 ^ 62 }
    ensures { IfOk result (λ taken. (homes.new.items ≡ homes.old.items ++ homes_from 0 0 (map object_type_of objects.now))
        × (taken.0 ≡ words_in (map object_type_of objects.now)) × (taken.1 ≡ bytes_in (map object_type_of objects.now))) }
{
    let mut cell = 0;
    let mut offset = 0;
    for object in objects {
        if object.lengths.is_empty() {
            homes.push(Home::Cell(cell))?;
            cell += 1;
        } else {
            homes.push(Home::Array(offset))?;
            offset += array_bytes(object);
        }
    }
    Ok((cell, offset))
}

impl Layout {
    ghost use Rattle.std.specs.Prelude.{◌≡◌, ◌<◌, ◌+◌, ◌^◌, length, slice_get, IfOk};
    ghost use Rattle.tac_code.specs.Code.{function_of};
    ghost use Rattle.frames.specs.Layout.{words_in, bytes_in, cell_in, offset_in};
    ghost use Rattle.frames.specs.inside.Held.{IsLayoutOf};

    /// The layout of a function.
    pub fn new(alloc: Global, function: &tac_code::Function) -> Result<Layout, AllocError>
        requires objects { words_in (function_of function.now).objects + bytes_in (function_of function.now).objects < 2 ^ 32 }
        requires parameters { length function.now.parameters.items < 2 ^ 32 }
        requires kept { function.now.kept < 2 ^ 32 }
        ensures { IfOk result (λ layout. IsLayoutOf layout (function_of function.now)) }
    {
        let mut homes = Vec::new(alloc);
        let (words, area) = put_homes(&mut homes, &function.objects)?;
        let slots = words + count_arrays(&function.parameters);
        Ok(Layout {
            homes,
            references: words,
            slots,
            cells: slots + function.kept,
            area,
            first: function.parameters.len(),
        })
    }

    /// The word of an object that is no array.
    pub fn cell(&self, object: usize) -> usize
        ensures { result ≡ cell_in (slice_get self.now.homes.items object) }
    {
        match self.homes.get(object) {
            Some(Home::Cell(number)) => *number,
            Some(Home::Array(_)) => 0,
            None => 0,
        }
    }

    /// Where in the frame's arrays an array begins.
    pub fn offset(&self, object: usize) -> usize
        ensures { result ≡ offset_in (slice_get self.now.homes.items object) }
    {
        match self.homes.get(object) {
            Some(Home::Cell(_)) => 0,
            Some(Home::Array(offset)) => *offset,
            None => 0,
        }
    }
}
