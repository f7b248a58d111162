//! A trace as text: a line for each step.

use crate::instruction::instruction_line;
use crate::shown::place_text;
use crate::tracing::Tracer;
use rv32::state::State;
use rv32::{Instr, decode};
use srcset::write_text;
use std::alloc::{AllocError, Global};
use std::io::Write;
use symbol_table::SymbolTable;

/// The column in which the effects of an instruction begin.
const WIDTH: usize = 44;

/// Writes a line for each step: the instruction, each register whose value changed, and the address that it loaded from or stored to; with a
/// map a line `NAME+OFFSET:` wherever another function goes on.
#[derive(Drop)]
pub struct TextTrace<'a, W: Write + Drop> {
    alloc: Global,
    map: Option<&'a SymbolTable>,
    out: W,
    /// Where the function of the last line starts.
    start: u32,
    /// The line of the step that is taken, as far as it is known before it.
    line: Vec<u8>,
    /// How many bytes of the line precede its instruction.
    before: usize,
    touched: Option<u32>,
    registers: [u32; 32],
}

impl<'a, W: Write + Drop> TextTrace<'a, W> {
    /// A trace to a writer, with the names of functions where there is a map.
    pub fn new(alloc: Global, map: Option<&'a SymbolTable>, out: W) -> Self {
        TextTrace {
            alloc,
            map,
            out,
            start: 0,
            line: Vec::new(alloc),
            before: 0,
            touched: None,
            registers: [0; 32],
        }
    }

    /// Flushes the writer. Returns whether it could.
    pub fn finish(self) -> bool {
        let mut out = self.out;
        out.flush().is_ok()
    }
}

impl<'a, W: Write + Drop> Tracer for TextTrace<'a, W> {
    fn begins(&mut self, state: &State) -> Result<(), AllocError> {
        self.line.clear();
        if let Some(map) = self.map {
            self.start = put_function(self.alloc, map, state.pc, self.start, &mut self.line)?;
        }
        self.before = self.line.len();
        let text = instruction_text(self.alloc, state)?;
        self.line.extend_from_slice(text.as_slice())?;
        self.touched = touched(state);
        self.registers = state.registers;
        Ok(())
    }

    fn ends(&mut self, state: &State) -> Result<bool, AllocError> {
        let effects = effects(self.alloc, self.touched, &self.registers, &state.registers)?;
        put_effects(self.before, effects.as_slice(), &mut self.line)?;
        self.line.push(b'\n')?;
        Ok(write_text(&mut self.out, self.line.as_slice()))
    }
}

/// Appends the place of the run, where its function is another than that which starts at `start`; returns where its function starts.
fn put_function(
    alloc: Global,
    map: &SymbolTable,
    pc: u32,
    start: u32,
    line: &mut Vec<u8>,
) -> Result<u32, AllocError> {
    let now = match map.at(pc) {
        Some(function) => function.start,
        None => 0,
    };
    if now != start && now != 0 {
        line.extend_from_slice(place_text(alloc, map, pc)?.as_bytes())?;
        line.extend_from_slice(b":\n")?;
    }
    Ok(now)
}

/// The word at the pc, where one can be fetched there.
fn word_at(state: &State) -> Option<u32> {
    if state.pc < 0xffff_fffc {
        state.memory.fetch(state.pc)
    } else {
        None
    }
}

/// The instruction at the pc.
fn instruction_text(alloc: Global, state: &State) -> Result<Vec<u8>, AllocError> {
    let pc = state.pc;
    match word_at(state) {
        Some(word) => instruction_line(alloc, pc, word),
        None => Ok(format!(in alloc; "{pc:08X} ?")?.into_bytes()),
    }
}

/// The address from which the instruction at the pc loads or to which it stores.
fn touched(state: &State) -> Option<u32> {
    match decode(word_at(state)?)? {
        Instr::Load { base, offset, .. } => Some(state.read(base).wrapping_add(offset.get())),
        Instr::Store { base, offset, .. } => Some(state.read(base).wrapping_add(offset.get())),
        _ => None,
    }
}

/// The address that was touched, and the registers whose value changed.
fn effects(
    alloc: Global,
    touched: Option<u32>,
    before: &[u32; 32],
    now: &[u32; 32],
) -> Result<Vec<u8>, AllocError> {
    let mut line = Vec::new(alloc);
    if let Some(address) = touched {
        line.extend_from_slice(format!(in alloc; " [{address:08X}]")?.as_bytes())?;
    }
    for (number, (old, value)) in before.iter().zip(now.iter()).enumerate() {
        if old != value && number != 0 {
            line.extend_from_slice(format!(in alloc; " x{number}={value:08X}")?.as_bytes())?;
        }
    }
    Ok(line)
}

/// Appends the effects, where there are some, in their column of a line whose instruction begins after `before` bytes.
fn put_effects(before: usize, effects: &[u8], line: &mut Vec<u8>) -> Result<(), AllocError> {
    if effects.is_empty() {
        return Ok(());
    }
    for _ in line.len().saturating_sub(before)..WIDTH {
        line.push(b' ')?;
    }
    line.extend_from_slice(effects)
}
