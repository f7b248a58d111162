//! Which instructions a run may come to.

ghost use Rattle.std.specs.Prelude.{◌≡◌, ◌<◌, ◌^◌};
ghost use Rattle.frames_reach.specs.layer.Functions as reach;

use frames_code::Instruction;
use std::alloc::{AllocError, Global};

/// Whether a run may come to the instruction with this number.
pub fn is_marked(marks: &[bool], number: usize) -> bool
    ensures { result ≡ reach.is_marked marks.now number }
{
    if number < marks.len() {
        marks[number]
    } else {
        true
    }
}

fn mark(marks: &mut [bool], number: usize) {
    if number < marks.len() {
        marks[number] = true;
    }
}

/// Whether the next instruction follows this one.
fn goes_on(instruction: Instruction) -> bool {
    match instruction {
        Instruction::Jump(_) => false,
        Instruction::Exit => false,
        Instruction::Return => false,
        _ => true,
    }
}

fn mark_targets(marks: &mut [bool], code: &[Instruction]) {
    for instruction in code {
        match *instruction {
            Instruction::Jump(to) => mark(marks, to),
            Instruction::Branch { to, .. } => mark(marks, to),
            _ => {}
        }
    }
}

fn mark_followers(marks: &mut [bool], code: &[Instruction]) {
    mark(marks, 0);
    for number in 0..code.len() {
        if is_marked(marks, number) && goes_on(code[number]) {
            mark(marks, number + 1);
        }
    }
}

/// Marks for the first instruction, those that jumps lead to, and those that follow on a marked one.
pub fn marks_of(alloc: Global, code: &[Instruction]) -> Result<Vec<bool>, AllocError> {
    let mut marks = Vec::new(alloc);
    marks.resize(code.len(), false)?;
    mark_targets(&mut marks, code);
    mark_followers(&mut marks, code);
    Ok(marks)
}

fn leads(marks: &[bool], number: usize, instruction: Instruction) -> bool
    requires { number < 2 ^ 62 }
    ensures { result ≡ reach.leads marks.now number instruction }
{
    match instruction {
        Instruction::Nothing => is_marked(marks, number + 1),
        Instruction::Move { .. } => is_marked(marks, number + 1),
        Instruction::Compute { .. } => is_marked(marks, number + 1),
        Instruction::Convert { .. } => is_marked(marks, number + 1),
        Instruction::Load { .. } => is_marked(marks, number + 1),
        Instruction::Store { .. } => is_marked(marks, number + 1),
        Instruction::Address { .. } => is_marked(marks, number + 1),
        Instruction::Element { .. } => is_marked(marks, number + 1),
        Instruction::Jump(to) => is_marked(marks, to),
        Instruction::Branch { to, .. } => is_marked(marks, number + 1) && is_marked(marks, to),
        Instruction::Call(_) => is_marked(marks, number + 1),
        Instruction::PutByte => is_marked(marks, number + 1),
        Instruction::GetByte => is_marked(marks, number + 1),
        Instruction::Exit => true,
        Instruction::Return => true,
    }
}

fn is_right(marks: &[bool], number: usize, instruction: Instruction) -> bool
    requires { number < 2 ^ 62 }
    ensures { result ≡ reach.is_right marks.now number instruction }
{
    !is_marked(marks, number) || leads(marks, number, instruction)
}

/// Whether marked instructions lead to marked ones alone.
pub fn are_right(marks: &[bool], code: &[Instruction]) -> bool
    ensures { result ≡ reach.are_right marks.now 0 code.now }
{
    for number in 0..code.len() {
        if !is_right(marks, number, code[number]) {
            return false;
        }
    }
    true
}
