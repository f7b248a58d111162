//! An instruction as text.

use asm::{Item, Items, list};
use rv32::{Instr, decode};
use srcset::Code;
use std::alloc::{AllocError, Global};

/// An instruction with its address and its word, as the listing has it: `00011000 00100093  addi x1,x0,1`.
pub fn instruction_line(alloc: Global, pc: u32, word: u32) -> Result<Vec<u8>, AllocError> {
    if let Some(instr) = decode(word) {
        if let Some(line) = listed(alloc, pc, instr)? {
            return Ok(line);
        }
    }
    let plain = format!(in alloc; "{pc:08X} {word:08X}  ?")?;
    Ok(plain.into_bytes())
}

/// Whether a listing was refused because memory ran out: the line that it is written to refuses for nothing else.
fn is_for_memory(code: u16) -> bool {
    code == Code::OutOfMemory.number() || code == Code::CannotWrite.number()
}

/// The line of an instruction by the assembler; `None` where it lists none at this address.
fn listed(alloc: Global, pc: u32, instr: Instr) -> Result<Option<Vec<u8>>, AllocError> {
    let mut code = Vec::new(alloc);
    code.extend_from_slice(&[Item::Plain(instr)])?;
    let Some(items) = Items::new(alloc, code, 0)? else {
        return Ok(None);
    };
    if pc % 4 != 0 || !items.is_low(pc) {
        return Ok(None);
    }
    let mut line = Vec::new(alloc);
    match list(alloc, &items, pc, &mut line) {
        Ok(()) => {
            let _newline = line.pop();
            Ok(Some(line))
        }
        Err(fault) if is_for_memory(fault.code) => Err(AllocError),
        Err(_) => Ok(None),
    }
}
