//! Variables for debuggers: their names, their types and where they live.

use crate::debug_bytes::{put_signed, put_text, put_word};
use crate::debug_entries::{BLOCK, PARAMETER, VARIABLE};
use crate::debug_types::Types;
use crate::functions::Object;
use crate::variables::{Block, FunctionVariables, Variable};
use cc::ObjectHome;
use std::alloc::{AllocError, Global};

/// A value that lives in register 0; those of the others follow (DWARF 2, 7.7.1).
const IN_REGISTER: u8 = 0x50;

/// A value that lives a number of bytes above the address in the stack pointer, register 2.
const ABOVE_STACK_POINTER: u8 = 0x72;

/// A value that lives at an address.
const AT_ADDRESS: u8 = 3;

/// Where a variable of a function lives, as an expression of DWARF.
fn location(alloc: Global, home: ObjectHome) -> Result<Vec<u8>, AllocError> {
    let mut bytes = Vec::new(alloc);
    match home {
        ObjectHome::Register(number) => {
            bytes.push(IN_REGISTER.wrapping_add((number % 32) as u8))?;
        }
        ObjectHome::Frame(offset) => {
            bytes.push(ABOVE_STACK_POINTER)?;
            put_signed(&mut bytes, offset)?;
        }
    }
    Ok(bytes)
}

/// An entry of this kind: a name, a type and a location.
fn put_entry(
    entries: &mut Vec<u8>,
    kind: u8,
    name: &str,
    place: u32,
    location: &[u8],
) -> Result<(), AllocError> {
    entries.push(kind)?;
    put_text(entries, name)?;
    put_word(entries, place)?;
    entries.push((location.len() % 0x100) as u8)?;
    entries.extend_from_slice(location)
}

fn put_variables(
    alloc: Global,
    entries: &mut Vec<u8>,
    types: &mut Types,
    kind: u8,
    variables: &[Variable],
) -> Result<(), AllocError> {
    for variable in variables {
        let place = types.place_of(&variable.variable_type)?;
        let location = location(alloc, variable.home)?;
        put_entry(
            entries,
            kind,
            variable.name.as_str(),
            place,
            location.as_slice(),
        )?;
    }
    Ok(())
}

/// Ends the open blocks that are over at an address.
fn close(entries: &mut Vec<u8>, open: &mut Vec<u32>, address: u32) -> Result<(), AllocError> {
    for _ in 0..open.len() {
        match open.last().copied() {
            Some(end) if end <= address => {
                let _closed = open.pop();
                entries.push(0)?;
            }
            _ => break,
        }
    }
    Ok(())
}

/// The blocks of a function, each with those within it.
fn put_blocks(
    alloc: Global,
    entries: &mut Vec<u8>,
    types: &mut Types,
    blocks: &[Block],
) -> Result<(), AllocError> {
    let mut open = Vec::new(alloc);
    for block in blocks {
        close(entries, &mut open, block.start)?;
        entries.push(BLOCK)?;
        put_word(entries, block.start)?;
        put_word(entries, block.end)?;
        put_variables(alloc, entries, types, VARIABLE, block.variables.as_slice())?;
        open.push(block.end)?;
    }
    close(entries, &mut open, 0xFFFF_FFFF)
}

/// The parameters, the variables and the blocks of a function.
pub(crate) fn put_function_variables(
    alloc: Global,
    entries: &mut Vec<u8>,
    types: &mut Types,
    variables: &FunctionVariables,
) -> Result<(), AllocError> {
    put_variables(
        alloc,
        entries,
        types,
        PARAMETER,
        variables.parameters.as_slice(),
    )?;
    put_variables(
        alloc,
        entries,
        types,
        VARIABLE,
        variables.variables.as_slice(),
    )?;
    put_blocks(alloc, entries, types, variables.blocks.as_slice())
}

/// An object with static storage that has a name.
pub(crate) fn put_static(
    alloc: Global,
    entries: &mut Vec<u8>,
    types: &mut Types,
    object: &Object,
) -> Result<(), AllocError> {
    let (Some(name), Some(object_type)) = (&object.name, &object.object_type) else {
        return Ok(());
    };
    let place = types.place_of(object_type)?;
    let mut location = Vec::new(alloc);
    location.push(AT_ADDRESS)?;
    put_word(&mut location, object.address)?;
    put_entry(entries, VARIABLE, name.as_str(), place, location.as_slice())
}
