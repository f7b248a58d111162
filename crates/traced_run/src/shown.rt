//! The state of a hart as text.

use rv32::state::State;
use std::alloc::{AllocError, Global};
use symbol_table::SymbolTable;

/// The pc, with its function where the map has it, and the registers, four a line.
pub fn machine_text(
    alloc: Global,
    state: &State,
    map: Option<&SymbolTable>,
) -> Result<String, AllocError> {
    let pc = state.pc;
    let mut out = format!(in alloc; "pc {pc:08X}")?;
    if let Some(map) = map {
        out.push_str(" ")?;
        out.push_str(place_text(alloc, map, pc)?.as_str())?;
    }
    out.push_str("\n")?;
    for (number, value) in state.registers.iter().enumerate() {
        let shown = if number == 0 { 0 } else { *value };
        out.push_str(format!(in alloc; "x{number:<2} {shown:08X}")?.as_str())?;
        out.push_str(if number % 4 == 3 { "\n" } else { "  " })?;
    }
    Ok(out)
}

/// The function that contains an address, and the offset in bytes from its start: `fact+24`; `?` where none contains it.
pub fn place_text(alloc: Global, map: &SymbolTable, address: u32) -> Result<String, AllocError> {
    match map.at(address) {
        Some(function) => {
            let name = function.name.as_str();
            let offset = address.wrapping_sub(function.start);
            format!(in alloc; "{name}+{offset}")
        }
        None => String::from_str(alloc, "?"),
    }
}
