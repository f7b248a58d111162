//! Debug information on functions and objects: the sections `.debug_abbrev` and `.debug_info` of DWARF, version 2.

use crate::debug_bytes::{low_word, put_number, put_text, put_word};
use crate::debug_lines::file_number;
use crate::debug_types::Types;
use crate::debug_variables::{put_function_variables, put_static};
use crate::functions::{Function, SymbolTable};
use std::alloc::{AllocError, Global};

/// The kinds of entries, by their numbers in `ABBREVIATIONS`.
const UNIT: u8 = 1;

const FUNCTION: u8 = 2;

const FUNCTION_WITHOUT_RESULT: u8 = 3;

pub(crate) const PARAMETER: u8 = 4;

pub(crate) const VARIABLE: u8 = 5;

pub(crate) const BLOCK: u8 = 6;

pub(crate) const BASE_TYPE: u8 = 7;

pub(crate) const POINTER_TYPE: u8 = 8;

pub(crate) const ARRAY_TYPE: u8 = 9;

pub(crate) const SUBRANGE: u8 = 10;

pub(crate) const CONST_TYPE: u8 = 11;

/// The shapes of the entries (DWARF 2, 7.5.3): for each its number, its tag, whether it has children, and its attributes with their
/// forms. A unit has a name, the place of its line table, the addresses of its first byte and of the one after its last, and a language; a
/// function has a name, the number of a file, a line, the same two addresses, that it is external, that it has a prototype, and the
/// type of its result; parameters and variables have a name, a type and a location.
pub(crate) const ABBREVIATIONS: &[u8] = &[
    1, 0x11, 1, 0x03, 0x08, 0x10, 0x06, 0x11, 0x01, 0x12, 0x01, 0x13, 0x0B, 0, 0, //
    2, 0x2E, 1, 0x03, 0x08, 0x3A, 0x0F, 0x3B, 0x0F, 0x11, 0x01, 0x12, 0x01, 0x3F, 0x0C, 0x27, 0x0C,
    0x49, 0x13, 0, 0, //
    3, 0x2E, 1, 0x03, 0x08, 0x3A, 0x0F, 0x3B, 0x0F, 0x11, 0x01, 0x12, 0x01, 0x3F, 0x0C, 0x27, 0x0C,
    0, 0, //
    4, 0x05, 0, 0x03, 0x08, 0x49, 0x13, 0x02, 0x0A, 0, 0, //
    5, 0x34, 0, 0x03, 0x08, 0x49, 0x13, 0x02, 0x0A, 0, 0, //
    6, 0x0B, 1, 0x11, 0x01, 0x12, 0x01, 0, 0, //
    7, 0x24, 0, 0x03, 0x08, 0x3E, 0x0B, 0x0B, 0x0B, 0, 0, //
    8, 0x0F, 0, 0x0B, 0x0B, 0x49, 0x13, 0, 0, //
    9, 0x01, 1, 0x49, 0x13, 0, 0, //
    10, 0x21, 0, 0x2F, 0x0F, 0, 0, //
    11, 0x26, 0, 0x49, 0x13, 0, 0, //
    0,
];

/// The language of a unit: C of 1989, the one that version 2 knows (7.12).
const LANGUAGE: u8 = 1;

/// The bytes of a unit before its name, and of all before its first type but the name.
const UNIT_BYTES: usize = 26;

/// The section `.debug_info`: one unit, named by the first file, with the functions and the objects.
pub(crate) fn info_section(alloc: Global, map: &SymbolTable) -> Result<Vec<u8>, AllocError> {
    let mut info = Vec::new(alloc);
    let (Some(first), Some(last)) = (map.functions.first(), map.functions.last()) else {
        return Ok(info);
    };
    let name = map.files.first().map_or("", |name| name.as_str());
    let mut types = Types::new(alloc, name.len().saturating_add(UNIT_BYTES))?;
    let mut entries = Vec::new(alloc);
    for function in &map.functions {
        put_function(alloc, &mut entries, &mut types, function)?;
    }
    for object in &map.objects {
        put_static(alloc, &mut entries, &mut types, object)?;
    }
    let parts = types.entries.len().saturating_add(entries.len());
    put_word(
        &mut info,
        low_word(name.len().saturating_add(parts).saturating_add(23)),
    )?;
    info.extend_from_slice(&[2, 0])?;
    put_word(&mut info, 0)?;
    info.extend_from_slice(&[4, UNIT])?;
    put_text(&mut info, name)?;
    put_word(&mut info, 0)?;
    put_word(&mut info, first.start)?;
    put_word(&mut info, last.start.wrapping_add(last.size))?;
    info.push(LANGUAGE)?;
    info.extend_from_slice(types.entries.as_slice())?;
    info.extend_from_slice(entries.as_slice())?;
    info.push(0)?;
    Ok(info)
}

/// A function's entry, at the line of its name, with its parameters and its variables.
fn put_function(
    alloc: Global,
    entries: &mut Vec<u8>,
    types: &mut Types,
    function: &Function,
) -> Result<(), AllocError> {
    let Some(place) = function.lines.first().copied() else {
        return Ok(());
    };
    let result = function.variables.result;
    entries.push(if result.is_some() {
        FUNCTION
    } else {
        FUNCTION_WITHOUT_RESULT
    })?;
    put_text(entries, function.name.as_str())?;
    put_number(entries, file_number(place))?;
    put_number(entries, place.line)?;
    put_word(entries, function.start)?;
    put_word(entries, function.start.wrapping_add(function.size))?;
    entries.extend_from_slice(&[1, 1])?;
    if let Some(result) = result {
        put_word(entries, types.base(result))?;
    }
    put_function_variables(alloc, entries, types, &function.variables)?;
    entries.push(0)?;
    Ok(())
}
