//! An ELF file of symbols next to an executable file, for debuggers and disassemblers.

use crate::debug_entries::{ABBREVIATIONS, info_section};
use crate::debug_lines::line_section;
use crate::functions::{Object, SymbolTable};
use std::alloc::{AllocError, Global};

/// The sizes of the ELF header, of a section header and of a symbol (System V gABI, chapter 4).
const HEADER_SIZE: u32 = 52;

const SECTION_SIZE: u32 = 40;

const SYMBOL_SIZE: u32 = 16;

/// The names of the sections, each after a zero byte.
const SECTION_NAMES: &[u8] =
    b"\0.text\0.symtab\0.strtab\0.debug_abbrev\0.debug_info\0.debug_line\0.shstrtab\0.data\0";

/// The numbers of the section of the code and of that of the data.
const TEXT_SECTION: u16 = 1;

const DATA_SECTION: u16 = 8;

/// The address of the text.
const TEXT_START: u32 = 0x1_1000;

/// The contents of a section header.
#[derive(Clone, Copy)]
struct Section {
    name: u32,
    kind: u32,
    flags: u32,
    address: u32,
    offset: u32,
    size: u32,
    link: u32,
    info: u32,
    alignment: u32,
    entry_size: u32,
}

/// The contents of a symbol.
#[derive(Clone, Copy)]
struct Symbol {
    name: u32,
    value: u32,
    size: u32,
    kind: u8,
    section: u16,
}

/// An ELF32 file with the code of a program, and a symbol for each of its functions and of its objects with static storage, and for
/// `_start`, where it begins: for `objdump -d`, and for a debugger next to the executable file, whose addresses it has. Its line table
/// has the line of each statement, and its entries the types and the places of variables. Its section of data has no bytes.
pub fn symbol_file(alloc: Global, map: &SymbolTable) -> Result<Vec<u8>, AllocError> {
    let mut names = Vec::new(alloc);
    let mut symbols = Vec::new(alloc);
    put_symbols(map, &mut names, &mut symbols)?;
    let info = info_section(alloc, map)?;
    let lines = line_section(alloc, map)?;
    let contents = [
        map.text.as_slice(),
        symbols.as_slice(),
        names.as_slice(),
        ABBREVIATIONS,
        info.as_slice(),
        lines.as_slice(),
        SECTION_NAMES,
    ];
    let mut file = Vec::new(alloc);
    put_header(&mut file, table_place(&contents))?;
    for content in &contents {
        file.extend_from_slice(content)?;
    }
    put_sections(&mut file, &contents)?;
    put_section(&mut file, &data_section(map.objects.as_slice()))?;
    Ok(file)
}

/// The offset of the section headers: after the file's header and all contents.
fn table_place(contents: &[&[u8]]) -> u32 {
    let mut place = HEADER_SIZE;
    for content in contents {
        place = place.wrapping_add(size(content.len()));
    }
    place
}

/// A size that has 32 bits.
fn size(count: usize) -> u32 {
    (count % 0x1_0000_0000) as u32
}

/// Appends the symbols and their names: the empty one, `_start`, the functions, and the objects that have names.
fn put_symbols(
    map: &SymbolTable,
    names: &mut Vec<u8>,
    symbols: &mut Vec<u8>,
) -> Result<(), AllocError> {
    let first = match map.functions.first() {
        Some(function) => function.start,
        None => TEXT_START,
    };
    names.push(0)?;
    put_symbol(
        symbols,
        &Symbol {
            name: 0,
            value: 0,
            size: 0,
            kind: 0,
            section: 0,
        },
    )?;
    let start = first.wrapping_sub(TEXT_START);
    put_named(
        names,
        symbols,
        "_start",
        &function_symbol(TEXT_START, start),
    )?;
    for function in &map.functions {
        let symbol = function_symbol(function.start, function.size);
        put_named(names, symbols, function.name.as_str(), &symbol)?;
    }
    for object in &map.objects {
        if let Some(name) = &object.name {
            put_named(names, symbols, name.as_str(), &object_symbol(object))?;
        }
    }
    Ok(())
}

/// A symbol of the type `STT_FUNC` with the binding `STB_GLOBAL`.
fn function_symbol(value: u32, size: u32) -> Symbol {
    Symbol {
        name: 0,
        value,
        size,
        kind: 0x12,
        section: TEXT_SECTION,
    }
}

/// A symbol of the type `STT_OBJECT` with the binding `STB_GLOBAL`.
fn object_symbol(object: &Object) -> Symbol {
    Symbol {
        name: 0,
        value: object.address,
        size: object.size,
        kind: 0x11,
        section: DATA_SECTION,
    }
}

/// Appends a symbol and its name.
fn put_named(
    names: &mut Vec<u8>,
    symbols: &mut Vec<u8>,
    name: &str,
    symbol: &Symbol,
) -> Result<(), AllocError> {
    put_symbol(
        symbols,
        &Symbol {
            name: size(names.len()),
            ..*symbol
        },
    )?;
    names.extend_from_slice(name.as_bytes())?;
    names.push(0)?;
    Ok(())
}

fn put_symbol(symbols: &mut Vec<u8>, symbol: &Symbol) -> Result<(), AllocError> {
    put_word(symbols, symbol.name)?;
    put_word(symbols, symbol.value)?;
    put_word(symbols, symbol.size)?;
    symbols.push(symbol.kind)?;
    symbols.push(0)?;
    put_half(symbols, symbol.section)
}

/// Appends the ELF header of an executable file for RISC-V without program headers, with nine sections.
fn put_header(file: &mut Vec<u8>, table_at: u32) -> Result<(), AllocError> {
    file.extend_from_slice(&[0x7F, 0x45, 0x4C, 0x46, 1, 1, 1, 0, 0, 0, 0, 0, 0, 0, 0, 0])?;
    put_half(file, 2)?;
    put_half(file, 243)?;
    for word in [1, TEXT_START, 0, table_at, 0] {
        put_word(file, word)?;
    }
    for half in [HEADER_SIZE as u16, 0, 0, SECTION_SIZE as u16, 9, 7] {
        put_half(file, half)?;
    }
    Ok(())
}

/// Appends the headers of the sections: the empty one, and one for each of the contents.
fn put_sections(file: &mut Vec<u8>, contents: &[&[u8]]) -> Result<(), AllocError> {
    put_section(file, &plain_section(0, 0, 0, 0))?;
    let mut offset = HEADER_SIZE;
    for (number, content) in contents.iter().enumerate() {
        let bytes = size(content.len());
        put_section(file, &content_section(number, offset, bytes))?;
        offset = offset.wrapping_add(bytes);
    }
    Ok(())
}

/// The header of the section with this number, counted from 0: the text (`SHT_PROGBITS`, `SHF_ALLOC` and `SHF_EXECINSTR`), the symbols
/// (`SHT_SYMTAB`), whose first global is number 1, their names (`SHT_STRTAB`), the three sections for debuggers (`SHT_PROGBITS`), the
/// sections' names.
fn content_section(number: usize, offset: u32, bytes: u32) -> Section {
    match number {
        0 => Section {
            flags: 6,
            address: TEXT_START,
            alignment: 4,
            ..plain_section(1, 1, offset, bytes)
        },
        1 => Section {
            link: 3,
            info: 1,
            entry_size: SYMBOL_SIZE,
            alignment: 4,
            ..plain_section(7, 2, offset, bytes)
        },
        2 => plain_section(15, 3, offset, bytes),
        3 => plain_section(23, 1, offset, bytes),
        4 => plain_section(37, 1, offset, bytes),
        5 => plain_section(49, 1, offset, bytes),
        _ => plain_section(61, 3, offset, bytes),
    }
}

/// The header of the section of the data (`SHT_NOBITS`, `SHF_WRITE` and `SHF_ALLOC`), from the first object to the end of the last.
fn data_section(objects: &[Object]) -> Section {
    let first = match objects.first() {
        Some(object) => object.address,
        None => 0,
    };
    let end = match objects.last() {
        Some(object) => object.address.wrapping_add(object.size),
        None => 0,
    };
    Section {
        flags: 3,
        address: first,
        alignment: 4,
        ..plain_section(71, 8, 0, end.wrapping_sub(first))
    }
}

fn plain_section(name: u32, kind: u32, offset: u32, size: u32) -> Section {
    Section {
        name,
        kind,
        flags: 0,
        address: 0,
        offset,
        size,
        link: 0,
        info: 0,
        alignment: 1,
        entry_size: 0,
    }
}

fn put_section(file: &mut Vec<u8>, section: &Section) -> Result<(), AllocError> {
    for word in [
        section.name,
        section.kind,
        section.flags,
        section.address,
        section.offset,
        section.size,
        section.link,
        section.info,
        section.alignment,
        section.entry_size,
    ] {
        put_word(file, word)?;
    }
    Ok(())
}

fn put_word(bytes: &mut Vec<u8>, word: u32) -> Result<(), AllocError> {
    bytes.extend_from_slice(&word.to_le_bytes())
}

fn put_half(bytes: &mut Vec<u8>, half: u16) -> Result<(), AllocError> {
    bytes.extend_from_slice(&half.to_le_bytes())
}
