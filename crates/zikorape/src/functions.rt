//! The functions and the objects of a program, as JSON. Nothing here has a clause but that it is safe.

use crate::giving::{Sizes, hand_fault};
use crate::telling::hand_text;
use cc::{StackSize, compile_with};
use srcset::{Fault, FileSet};
use std::alloc::{AllocError, Global};
use symbol_table::{Function, Line, Object, SymbolTable, symbol_table};
use traced_interp::put_string;

/// The functions and the objects of the program in the file `main` of the set, as JSON.
pub fn tell_functions(
    alloc: Global,
    set: &FileSet,
    main: &str,
    stack: StackSize,
    out: &mut [u8],
    message: &mut [u8],
    sizes: &mut Sizes,
) -> u32 {
    match functions_of(alloc, set, main, stack) {
        Ok(table) => hand_text(json_of(alloc, &table), out, message, sizes),
        Err(fault) => {
            hand_fault(alloc, &fault, out, message, sizes);
            1
        }
    }
}

fn functions_of(
    alloc: Global,
    set: &FileSet,
    main: &str,
    stack: StackSize,
) -> Result<SymbolTable, Fault> {
    match compile_with(alloc, set, main, stack) {
        Ok(built) => symbol_table(alloc, set, main, stack, &built),
        Err(fault) => Err(fault),
    }
}

fn json_of(alloc: Global, table: &SymbolTable) -> Result<String, AllocError> {
    let mut text = String::new(alloc);
    text.push_str("{\"functions\":[")?;
    for (k, function) in table.functions.iter().enumerate() {
        text.push_str(if k == 0 { "" } else { "," })?;
        put_function(alloc, table, function, &mut text)?;
    }
    text.push_str("],\"objects\":[")?;
    for (k, object) in table.objects.iter().enumerate() {
        text.push_str(if k == 0 { "" } else { "," })?;
        put_object(alloc, object, &mut text)?;
    }
    text.push_str("]}\n")?;
    Ok(text)
}

fn put_function(
    alloc: Global,
    table: &SymbolTable,
    function: &Function,
    text: &mut String,
) -> Result<(), AllocError> {
    let (start, size, frame, weight) = (
        function.start,
        function.size,
        function.frame,
        function.weight,
    );
    text.push_str("{\"name\":\"")?;
    text.push_str(function.name.as_str())?;
    let numbers = format!(in alloc;
        "\",\"address\":{start},\"size\":{size},\"frame\":{frame},\"weight\":{weight},\"calls\":["
    )?;
    text.push_str(numbers.as_str())?;
    put_calls(table, function, text)?;
    text.push_str("]")?;
    if let Some(place) = function.lines.first() {
        text.push_str(",")?;
        put_place(alloc, table, *place, text)?;
    }
    text.push_str(",\"lines\":[")?;
    put_lines(alloc, table, function.lines.as_slice(), text)?;
    text.push_str("]}")
}

/// The names of the functions that a function calls.
fn put_calls(
    table: &SymbolTable,
    function: &Function,
    text: &mut String,
) -> Result<(), AllocError> {
    for (k, number) in function.calls.iter().enumerate() {
        text.push_str(if k == 0 { "\"" } else { ",\"" })?;
        if let Some(called) = table.functions.get(*number) {
            text.push_str(called.name.as_str())?;
        }
        text.push_str("\"")?;
    }
    Ok(())
}

/// The lines of a function, each with the address at which its code begins.
fn put_lines(
    alloc: Global,
    table: &SymbolTable,
    lines: &[Line],
    text: &mut String,
) -> Result<(), AllocError> {
    for (k, line) in lines.iter().enumerate() {
        text.push_str(if k == 0 { "{" } else { ",{" })?;
        put_place(alloc, table, *line, text)?;
        let address = line.address;
        text.push_str(format!(in alloc; ",\"address\":{address}}}")?.as_str())?;
    }
    Ok(())
}

/// The members of a line that name its file and its number.
fn put_place(
    alloc: Global,
    table: &SymbolTable,
    line: Line,
    text: &mut String,
) -> Result<(), AllocError> {
    let file = match table.files.get(line.file) {
        Some(file) => file.as_str(),
        None => "",
    };
    text.push_str("\"file\":")?;
    put_string(alloc, file, text)?;
    let number = line.line;
    text.push_str(format!(in alloc; ",\"line\":{number}")?.as_str())
}

fn put_object(alloc: Global, object: &Object, text: &mut String) -> Result<(), AllocError> {
    match &object.name {
        Some(name) => {
            text.push_str("{\"name\":\"")?;
            text.push_str(name.as_str())?;
            text.push_str("\",")?;
        }
        None => text.push_str("{")?,
    }
    let (address, size) = (object.address, object.size);
    let numbers = format!(in alloc; "\"address\":{address},\"size\":{size}}}")?;
    text.push_str(numbers.as_str())
}
