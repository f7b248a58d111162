//! Instructions that only go on to the next one that has items, which have none themselves.

ghost use Rattle.std.specs.Prelude.{◌≡◌, ◌<◌, ◌-◌, ◌^◌};
ghost use Rattle.select.specs.Selected as selected;

use frames_code::{Instruction, Operand, Target};

/// A register into itself.
fn is_same(target: Target, source: Operand) -> bool
    ensures { result ≡ selected.is_same target source }
{
    match target {
        Target::Temporary(number) => match source {
            Operand::Temporary(other) => { if number < 8 { other == number } else { false } }
            Operand::Cell(_) => false,
            Operand::Constant(_) => false,
            Operand::Argument(_) => false,
        },
        Target::Cell(_) => false,
    }
}

fn shortened_move(target: Target, source: Operand) -> Instruction
    ensures { result ≡ selected.shortened_move target source }
{
    if is_same(target, source) {
        Instruction::Nothing
    } else {
        Instruction::Move { target, source }
    }
}

/// Whether an instruction has no items, wherever it stands.
fn is_nothing(instruction: Instruction) -> bool
    ensures { result ≡ selected.is_nothing instruction }
{
    match instruction {
        Instruction::Nothing => true,
        Instruction::Move { target, source } => is_same(target, source),
        Instruction::Compute { .. } => false,
        Instruction::Convert { .. } => false,
        Instruction::Load { .. } => false,
        Instruction::Store { .. } => false,
        Instruction::Address { .. } => false,
        Instruction::Element { .. } => false,
        Instruction::Jump(_) => false,
        Instruction::Branch { .. } => false,
        Instruction::Call(_) => false,
        Instruction::PutByte => false,
        Instruction::GetByte => false,
        Instruction::Exit => false,
        Instruction::Return => false,
    }
}

/// Whether the instructions from one number up to another have no items.
fn are_nothing(code: &[Instruction], from: usize, to: usize) -> bool
    ensures { result ≡ selected.are_nothing code.now from (to - from) }
{
    for number in from..to {
        let Some(instruction) = code.get(number) else {
            return false;
        };
        if !is_nothing(*instruction) {
            return false;
        }
    }
    true
}

fn shortened_jump(code: &[Instruction], number: usize, to: usize) -> Instruction
    requires { number < 2 ^ 32 }
    ensures { result ≡ selected.shortened_jump code.now number to }
{
    if number < to && are_nothing(code, number + 1, to) {
        Instruction::Nothing
    } else {
        Instruction::Jump(to)
    }
}

/// An instruction of that number in a function's code, or `Nothing` where it only goes on to the next one that has items.
pub fn shortened(code: &[Instruction], number: usize, instruction: Instruction) -> Instruction
    requires { number < 2 ^ 32 }
    ensures { result ≡ selected.shortened code.now number instruction }
{
    match instruction {
        Instruction::Nothing => instruction,
        Instruction::Move { target, source } => shortened_move(target, source),
        Instruction::Compute { .. } => instruction,
        Instruction::Convert { .. } => instruction,
        Instruction::Load { .. } => instruction,
        Instruction::Store { .. } => instruction,
        Instruction::Address { .. } => instruction,
        Instruction::Element { .. } => instruction,
        Instruction::Jump(to) => shortened_jump(code, number, to),
        Instruction::Branch { .. } => instruction,
        Instruction::Call(_) => instruction,
        Instruction::PutByte => instruction,
        Instruction::GetByte => instruction,
        Instruction::Exit => instruction,
        Instruction::Return => instruction,
    }
}
