//! A listing with labels, with the names that registers have in calls, and with lines of the sources.

use crate::listing::ListForm;
use crate::source_lines::SourceLines;
use srcset::FileSet;
use std::alloc::{AllocError, Global};
use symbol_table::{DataLoad, SymbolTable};

/// How many letters precede an instruction: its address, its word, and the spaces after them.
const HEAD: usize = 19;

/// The names of registers (RISC-V ELF psABI, integer register convention), from x0 on.
const NAMES: [&str; 32] = [
    "zero", "ra", "sp", "gp", "tp", "t0", "t1", "t2", "s0", "s1", "a0", "a1", "a2", "a3", "a4",
    "a5", "a6", "a7", "s2", "s3", "s4", "s5", "s6", "s7", "s8", "s9", "s10", "s11", "t3", "t4",
    "t5", "t6",
];

/// The instructions that lead to a place which they name by how far it is.
const BRANCHES: [&str; 7] = ["beq", "bne", "blt", "bge", "bltu", "bgeu", "jal"];

/// A line of a listing.
#[derive(Clone, Copy)]
struct Row<'l> {
    address: u32,
    word: u32,
    head: &'l str,
    code: &'l str,
}

/// The inputs and the output of a listing.
#[derive(Drop)]
struct Listing<'l> {
    table: &'l SymbolTable,
    form: ListForm,
    /// The addresses that branches lead to, by rising addresses.
    targets: Vec<u32>,
    lines: SourceLines<'l>,
    /// How many of the loads of addresses in the data precede the row.
    loads: usize,
    text: String,
}

/// The listing in a form.
pub fn listing_text(
    alloc: Global,
    listing: &[u8],
    table: &SymbolTable,
    set: &FileSet,
    form: ListForm,
) -> Result<Vec<u8>, AllocError> {
    let Ok(plain) = str::from_utf8(listing) else {
        return Ok(Vec::new(alloc));
    };
    let mut listing = Listing {
        table,
        form,
        targets: targets(alloc, plain)?,
        lines: SourceLines::new(alloc, table, set)?,
        loads: 0,
        text: String::new(alloc),
    };
    listing.put_lines(alloc, plain)?;
    Ok(listing.text.into_bytes())
}

impl Listing<'_> {
    fn put_lines(&mut self, alloc: Global, plain: &str) -> Result<(), AllocError> {
        let mut before = None;
        for line in plain.lines() {
            if let Some(row) = row_of(line) {
                self.put_heads(alloc, row.address)?;
                self.put_row(alloc, row, before)?;
                before = Some(row);
            }
        }
        Ok(())
    }

    /// Appends the lines before the instruction at an address: a label, and the lines of the sources.
    fn put_heads(&mut self, alloc: Global, address: u32) -> Result<(), AllocError> {
        if self.form.has_labels {
            put_label(
                alloc,
                address,
                self.table,
                self.targets.as_slice(),
                &mut self.text,
            )?;
        }
        if self.form.has_lines {
            self.lines.put_at(alloc, address, &mut self.text)?;
        }
        Ok(())
    }

    /// Appends a line, with the label of its target; after a call the function that it calls, and after the load of an address the object
    /// there.
    fn put_row(
        &mut self,
        alloc: Global,
        row: Row<'_>,
        before: Option<Row<'_>>,
    ) -> Result<(), AllocError> {
        self.text.push_str(row.head)?;
        self.put_instruction(alloc, row)?;
        if self.form.has_labels {
            if let Some(name) = called(row, before, self.table) {
                put_all(&["  # ", name], &mut self.text)?;
            }
            if let Some(load) = self.loaded(row.address) {
                put_object(alloc, self.table, load.address, &mut self.text)?;
            }
        }
        self.text.push_str("\n")
    }

    fn put_instruction(&mut self, alloc: Global, row: Row<'_>) -> Result<(), AllocError> {
        match branch(row) {
            Some((code, target)) if self.form.has_labels && !is_near_call(row) => {
                put_code(code, self.form, &mut self.text)?;
                self.text
                    .push_str(format!(in alloc; ".L{target:X}")?.as_str())
            }
            _ => put_code(row.code, self.form, &mut self.text),
        }
    }

    /// The access to the data, or the load of an address there, that the instruction at this address ends. Calls are in the order of rising addresses.
    fn loaded(&mut self, address: u32) -> Option<DataLoad> {
        let load = self.table.loads.get(self.loads).copied()?;
        if load.at != address {
            return None;
        }
        self.loads = self.loads.saturating_add(1);
        Some(load)
    }
}

/// Appends the name of the object in which an address of the data lies, and its offset from the object's start.
fn put_object(
    alloc: Global,
    table: &SymbolTable,
    address: u32,
    text: &mut String,
) -> Result<(), AllocError> {
    let Some(object) = table.object_at(address) else {
        return Ok(());
    };
    match &object.name {
        Some(name) => put_all(&["  # ", name.as_str()], text)?,
        None => text.push_str("  # string literal")?,
    }
    let offset = address.wrapping_sub(object.address);
    if offset == 0 {
        return Ok(());
    }
    text.push_str(format!(in alloc; "+{offset}")?.as_str())
}

fn row_of(line: &str) -> Option<Row<'_>> {
    let head = line.get(..HEAD)?;
    let code = line.get(HEAD..)?;
    Some(Row {
        address: u32::from_str_radix(line.get(..8)?, 16).ok()?,
        word: u32::from_str_radix(line.get(9..17)?, 16).ok()?,
        head,
        code,
    })
}

/// The addresses that branches lead to, by rising addresses.
fn targets(alloc: Global, plain: &str) -> Result<Vec<u32>, AllocError> {
    let mut found = Vec::new(alloc);
    for line in plain.lines() {
        if let Some(row) = row_of(line) {
            if is_near_call(row) {
                continue;
            }
            if let Some((_, target)) = branch(row) {
                found.push(target)?;
            }
        }
    }
    found.sort()?;
    Ok(found)
}

/// JAL with ra, which calls a function.
fn is_near_call(row: Row<'_>) -> bool {
    row.word % 0x1000 == 0x0EF
}

/// The text before the target of a branch, and the address of the target.
fn branch<'l>(row: Row<'l>) -> Option<(&'l str, u32)> {
    let (name, _) = row.code.split_once(' ')?;
    if !BRANCHES.contains(&name) {
        return None;
    }
    let comma = row.code.rfind(',')?;
    let end = comma.checked_add(1)?;
    let distance = row.code.get(end..)?.parse::<i32>().ok()?;
    Some((
        row.code.get(..end)?,
        row.address.wrapping_add_signed(distance),
    ))
}

/// Appends the name of the function that begins at an address, or a label where a branch leads there.
fn put_label(
    alloc: Global,
    address: u32,
    map: &SymbolTable,
    targets: &[u32],
    text: &mut String,
) -> Result<(), AllocError> {
    if let Some(name) = function_at(map, address) {
        put_all(&["\n", name, ":\n"], text)
    } else if targets.binary_search(&address).is_ok() {
        text.push_str(format!(in alloc; ".L{address:X}:\n")?.as_str())
    } else {
        Ok(())
    }
}

fn put_all(parts: &[&str], text: &mut String) -> Result<(), AllocError> {
    for part in parts {
        text.push_str(part)?;
    }
    Ok(())
}

/// The name of the function that begins at an address.
fn function_at(map: &SymbolTable, address: u32) -> Option<&str> {
    match map.at(address) {
        Some(function) if function.start == address => Some(function.name.as_str()),
        _ => None,
    }
}

/// The function that a pair of AUIPC and JALR with x1 calls.
fn called<'m>(row: Row<'_>, before: Option<Row<'_>>, map: &'m SymbolTable) -> Option<&'m str> {
    if is_near_call(row) {
        let (_, target) = branch(row)?;
        return function_at(map, target);
    }
    let before = before?;
    if before.word % 0x1000 != 0x097 || row.word % 0x10_0000 != 0x0_80E7 {
        return None;
    }
    let upper = before.word - before.word % 0x1000;
    let low = row.word / 0x10_0000;
    let lower = if low >= 0x800 {
        low.wrapping_sub(0x1000)
    } else {
        low
    };
    function_at(map, before.address.wrapping_add(upper).wrapping_add(lower))
}

/// Appends an instruction, with the names that registers have in calls where the form has them. The name of an operation, as `xor`, has none.
fn put_code(code: &str, form: ListForm, text: &mut String) -> Result<(), AllocError> {
    if !form.has_abi_names {
        return text.push_str(code);
    }
    let Some((operation, operands)) = code.split_once(' ') else {
        return text.push_str(code);
    };
    put_all(&[operation, " "], text)?;
    let mut rest = operands;
    for _ in 0..code.len() {
        let Some((plain, name, behind)) = register(rest) else {
            break;
        };
        text.push_str(plain)?;
        text.push_str(name)?;
        rest = behind;
    }
    text.push_str(rest)
}

/// The first register of operands: the text before it, its name, and the text after it.
fn register(text: &str) -> Option<(&str, &'static str, &str)> {
    let at = text.find(|c: char| c == 'x')?;
    let digits = text.get(at.checked_add(1)?..)?;
    let length = match digits.find(|c: char| !c.is_ascii_digit()) {
        Some(length) => length,
        None => digits.len(),
    };
    let number = digits.get(..length)?.parse::<usize>().ok()?;
    let is_own = !text.get(..at)?.ends_with("0");
    let name = *NAMES.get(number)?;
    if is_own {
        Some((text.get(..at)?, name, digits.get(length..)?))
    } else {
        None
    }
}
