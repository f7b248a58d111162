//! Lines for debuggers: the section of DWARF, version 2, that gives the line of each statement.

use crate::debug_bytes::{low_word, put_number, put_signed, put_text, put_word};
use crate::functions::{Function, Line, SymbolTable};
use std::alloc::{AllocError, Global};

/// The header of a line table after its own length (6.2.4): the least step of addresses is one byte, rows begin
/// statements, a special opcode changes the line by 0, and there are nine standard opcodes with these numbers of operands.
const LINE_HEADER: &[u8] = &[1, 1, 0, 1, 10, 0, 1, 1, 1, 1, 0, 0, 0, 1];

/// The standard opcodes that are used (6.2.5.2).
const COPY: u8 = 1;

const ADVANCE_ADDRESS: u8 = 2;

const ADVANCE_LINE: u8 = 3;

const SET_FILE: u8 = 4;

/// The section `.debug_line`: the line table of the functions.
pub(crate) fn line_section(alloc: Global, map: &SymbolTable) -> Result<Vec<u8>, AllocError> {
    let mut section = Vec::new(alloc);
    if map.functions.is_empty() {
        return Ok(section);
    }
    let mut rows = Vec::new(alloc);
    for function in &map.functions {
        put_rows(&mut rows, function)?;
    }
    put_lines(alloc, &mut section, map.files.as_slice(), rows.as_slice())?;
    Ok(section)
}

/// The number of a file in the line table, counted from 1.
pub(crate) fn file_number(line: Line) -> u32 {
    low_word(line.file).wrapping_add(1)
}

/// The rows of a function, from its first instruction on, and the end of the sequence after its last.
fn put_rows(rows: &mut Vec<u8>, function: &Function) -> Result<(), AllocError> {
    rows.extend_from_slice(&[0, 5, 2])?;
    put_word(rows, function.start)?;
    let mut before = Line {
        file: 0,
        line: 1,
        address: function.start,
    };
    for (number, line) in function.lines.iter().enumerate() {
        if is_last_at(function.lines.as_slice(), number, *line) {
            put_row(rows, before, *line)?;
            before = *line;
        }
    }
    rows.push(ADVANCE_ADDRESS)?;
    let end = function.start.wrapping_add(function.size);
    put_number(rows, end.wrapping_sub(before.address))?;
    rows.extend_from_slice(&[0, 1, 1])
}

/// Whether no line follows at the same address. Of several statements there, those before the last have no code.
fn is_last_at(lines: &[Line], number: usize, line: Line) -> bool {
    match lines.get(number.saturating_add(1)) {
        Some(next) => next.address != line.address,
        None => true,
    }
}

/// One row after another.
fn put_row(rows: &mut Vec<u8>, before: Line, line: Line) -> Result<(), AllocError> {
    rows.push(SET_FILE)?;
    put_number(rows, file_number(line))?;
    rows.push(ADVANCE_ADDRESS)?;
    put_number(rows, line.address.wrapping_sub(before.address))?;
    rows.push(ADVANCE_LINE)?;
    put_signed(rows, line.line.wrapping_sub(before.line))?;
    rows.push(COPY)?;
    Ok(())
}

/// `.debug_line`: its header with the names of the files, and the rows.
fn put_lines(
    alloc: Global,
    lines: &mut Vec<u8>,
    files: &[String],
    rows: &[u8],
) -> Result<(), AllocError> {
    let mut header = Vec::from_slice(alloc, LINE_HEADER)?;
    // (there are no folders)
    header.push(0)?;
    for file in files {
        put_text(&mut header, file.as_str())?;
        header.extend_from_slice(&[0, 0, 0])?;
    }
    header.push(0)?;
    let length = header.len().saturating_add(rows.len()).saturating_add(6);
    put_word(lines, low_word(length))?;
    lines.extend_from_slice(&[2, 0])?;
    put_word(lines, low_word(header.len()))?;
    lines.extend_from_slice(header.as_slice())?;
    lines.extend_from_slice(rows)
}
