//! The sizes of each function, as a table.

use crate::depth::{Chain, Cost, deepest};
use crate::functions::{Function, SymbolTable};
use std::alloc::{AllocError, Global};

/// The fewest letters of the column of names.
const NAME_WIDTH: usize = 8;

/// A line for each function: its name, the bytes of its frame, its weight, the bytes of its code, and the functions it calls; after them
/// the greatest sums along the calls from `main` on, or a cycle of calls, for which there is none.
pub fn frames_table(alloc: Global, map: &SymbolTable) -> Result<String, AllocError> {
    table(alloc, map, false)
}

/// The same, with the address of each function after its name.
pub fn sizes_table(alloc: Global, map: &SymbolTable) -> Result<String, AllocError> {
    table(alloc, map, true)
}

fn table(alloc: Global, map: &SymbolTable, has_addresses: bool) -> Result<String, AllocError> {
    let width = name_width(map.functions.as_slice());
    let mut out = String::new(alloc);
    put_padded("function", width, &mut out)?;
    out.push_str(if has_addresses { "   address" } else { "" })?;
    out.push_str("     frame    weight      code  calls\n")?;
    for function in &map.functions {
        put_padded(function.name.as_str(), width, &mut out)?;
        if has_addresses {
            let start = function.start;
            out.push_str(format!(in alloc; "  {start:08X}")?.as_str())?;
        }
        put_function(alloc, map, function, &mut out)?;
    }
    if let Some(main) = map.number("main") {
        let functions = map.functions.as_slice();
        put_chain(
            alloc,
            map,
            "frames",
            &deepest(alloc, functions, main, Cost::Frame)?,
            &mut out,
        )?;
        put_chain(
            alloc,
            map,
            "weights",
            &deepest(alloc, functions, main, Cost::Weight)?,
            &mut out,
        )?;
    }
    Ok(out)
}

/// The letters of the longest name.
fn name_width(functions: &[Function]) -> usize {
    let mut width = NAME_WIDTH;
    for function in functions {
        width = width.max(function.name.len());
    }
    width
}

/// Appends a text, and spaces up to this width.
fn put_padded(text: &str, width: usize, out: &mut String) -> Result<(), AllocError> {
    out.push_str(text)?;
    for _ in text.len()..width {
        out.push(' ')?;
    }
    Ok(())
}

/// Prints the sizes of a function, and the functions it calls.
fn put_function(
    alloc: Global,
    map: &SymbolTable,
    function: &Function,
    out: &mut String,
) -> Result<(), AllocError> {
    let (frame, weight, size) = (function.frame, function.weight, function.size);
    let numbers = format!(in alloc; "{frame:10}{weight:10}{size:10}")?;
    out.push_str(numbers.as_str())?;
    for (place, callee) in function.calls.iter().enumerate() {
        out.push_str(if place == 0 { "  " } else { " " })?;
        out.push_str(name_of(map, *callee))?;
    }
    out.push_str("\n")
}

/// The name of the function of this number.
fn name_of(map: &SymbolTable, number: usize) -> &str {
    match map.functions.get(number) {
        Some(function) => function.name.as_str(),
        None => "",
    }
}

fn put_chain(
    alloc: Global,
    map: &SymbolTable,
    what: &str,
    chain: &Chain,
    out: &mut String,
) -> Result<(), AllocError> {
    match chain {
        Chain::Deepest(sum, numbers) => {
            out.push_str(format!(in alloc; "deepest by {what}: {sum} bytes:")?.as_str())?;
            put_names(map, numbers.as_slice(), out)
        }
        Chain::Circle(numbers) => {
            out.push_str(format!(in alloc; "deepest by {what}: no bound, a circle:")?.as_str())?;
            put_names(map, numbers.as_slice(), out)
        }
    }
}

/// Appends names with ` > ` between them.
fn put_names(map: &SymbolTable, numbers: &[usize], out: &mut String) -> Result<(), AllocError> {
    for (place, number) in numbers.iter().enumerate() {
        out.push_str(if place == 0 { " " } else { " > " })?;
        out.push_str(name_of(map, *number))?;
    }
    out.push_str("\n")
}
