//! The loops around each instruction.

use frames_code::Instruction;
use std::alloc::{AllocError, Global};

/// Where an instruction jumps to, if it may.
pub fn jump_of(instruction: Instruction) -> Option<usize> {
    match instruction {
        Instruction::Nothing => None,
        Instruction::Move { .. } => None,
        Instruction::Compute { .. } => None,
        Instruction::Convert { .. } => None,
        Instruction::Load { .. } => None,
        Instruction::Store { .. } => None,
        Instruction::Address { .. } => None,
        Instruction::Element { .. } => None,
        Instruction::Jump(to) => Some(to),
        Instruction::Branch { to, .. } => Some(to),
        Instruction::Call(_) => None,
        Instruction::PutByte => None,
        Instruction::GetByte => None,
        Instruction::Exit => None,
        Instruction::Return => None,
    }
}

/// For each instruction the last one that jumps back to it, and itself where none does.
fn ends_of(alloc: Global, code: &[Instruction]) -> Result<Vec<usize>, AllocError> {
    let mut ends = Vec::with_capacity(alloc, code.len())?;
    for number in 0..code.len() {
        ends.push(number)?;
    }
    for number in 0..code.len() {
        if let Some(to) = jump_of(code[number]) {
            if to < number && to < ends.len() {
                ends[to] = number;
            }
        }
    }
    Ok(ends)
}

/// How many loops are around each instruction. A loop extends from an instruction to the last jump back to it.
pub fn depths_of(alloc: Global, code: &[Instruction]) -> Result<Vec<u32>, AllocError> {
    let ends = ends_of(alloc, code)?;
    let mut closing: Vec<u32> = Vec::new(alloc);
    closing.resize(code.len(), 0)?;
    let mut depths = Vec::with_capacity(alloc, code.len())?;
    let mut depth: u32 = 0;
    for number in 0..ends.len() {
        let end = ends[number];
        if end > number && end < closing.len() {
            depth = depth.saturating_add(1);
            closing[end] = closing[end].saturating_add(1);
        }
        depths.push(depth)?;
        if number < closing.len() {
            depth = depth.saturating_sub(closing[number]);
        }
    }
    Ok(depths)
}
