//! How much each word of a frame is used.

ghost use Rattle.std.specs.Prelude.{◌≡◌, ◌<◌, length, IfOk, OnOk};

use frames_code::{Function, Instruction, Location, Operand, Target};
use std::alloc::{AllocError, Global};

/// The weight of a use within `loops` loops.
fn weight_within(loops: u64) -> u64 {
    match loops {
        0 => 1,
        1 => 10,
        2 => 100,
        3 => 1_000,
        4 => 10_000,
        5 => 100_000,
        _ => 1_000_000,
    }
}

/// Adds to a number, if it is there.
fn add_to(list: &mut Vec<u64>, number: usize, more: u64)
    ensures { length list.new.items ≡ length list.old.items }
{
    if number < list.len() {
        list[number] = list[number].saturating_add(more);
    }
}

fn add_operand(weights: &mut Vec<u64>, operand: Operand, weight: u64)
    ensures { length weights.new.items ≡ length weights.old.items }
{
    match operand {
        Operand::Temporary(_) => {}
        Operand::Cell(number) => add_to(weights, number, weight),
        Operand::Constant(_) => {}
        Operand::Argument(_) => {}
    }
}

fn add_target(weights: &mut Vec<u64>, target: Target, weight: u64)
    ensures { length weights.new.items ≡ length weights.old.items }
{
    match target {
        Target::Temporary(_) => {}
        Target::Cell(number) => add_to(weights, number, weight),
    }
}

fn add_location(weights: &mut Vec<u64>, location: Location, weight: u64)
    ensures { length weights.new.items ≡ length weights.old.items }
{
    match location {
        Location::Statics(_) => {}
        Location::Frame(_) => {}
        Location::At(operand) => add_operand(weights, operand, weight),
        Location::Indexed { index, .. } => add_operand(weights, index, weight),
    }
}

fn add_uses(weights: &mut Vec<u64>, instruction: Instruction, weight: u64)
    ensures { length weights.new.items ≡ length weights.old.items }
{
    match instruction {
        Instruction::Nothing => {}
        Instruction::Move { target, source } => {
            add_target(weights, target, weight);
            add_operand(weights, source, weight);
        }
        Instruction::Compute {
            target,
            left,
            right,
            ..
        } => {
            add_target(weights, target, weight);
            add_operand(weights, left, weight);
            add_operand(weights, right, weight);
        }
        Instruction::Convert { target, source, .. } => {
            add_target(weights, target, weight);
            add_operand(weights, source, weight);
        }
        Instruction::Load { target, from, .. } => {
            add_target(weights, target, weight);
            add_location(weights, from, weight);
        }
        Instruction::Store { source, to, .. } => {
            add_operand(weights, source, weight);
            add_location(weights, to, weight);
        }
        Instruction::Address { target, of } => {
            add_target(weights, target, weight);
            add_location(weights, of, weight);
        }
        Instruction::Element {
            target,
            array,
            index,
            ..
        } => {
            add_target(weights, target, weight);
            add_operand(weights, array, weight);
            add_operand(weights, index, weight);
        }
        Instruction::Jump(_) => {}
        Instruction::Branch { left, right, .. } => {
            add_operand(weights, left, weight);
            add_operand(weights, right, weight);
        }
        Instruction::Call(_) => {}
        Instruction::PutByte => {}
        Instruction::GetByte => {}
        Instruction::Exit => {}
        Instruction::Return => {}
    }
}

/// Where an instruction may jump to; past all instructions where it does not jump.
fn jump_target(instruction: Instruction) -> usize {
    match instruction {
        Instruction::Jump(to) => to,
        Instruction::Branch { to, .. } => to,
        _ => usize::MAX,
    }
}

/// The weight of each word of a function's frame: its uses, of which one counts ten times as much in each further loop, up to six. A loop goes
/// from an instruction to the last jump back to it, so that one pass from the end gives how many there are around each instruction.
pub fn word_weights(alloc: Global, function: &Function) -> Result<Vec<u64>, AllocError>
    ensures { IfOk result (λ weights. length weights.items ≡ function.now.cells) }
{
    let mut weights = Vec::new(alloc);
    weights.resize(function.cells, 0)?;
    let mut heads = Vec::new(alloc);
    heads.resize(function.code.len(), false)?;
    let mut loops: u64 = 0;
    let mut number = function.code.len();
    for instruction in function.code.iter().rev() {
        number = number.saturating_sub(1);
        let to = jump_target(*instruction);
        if to <= number && to < heads.len() && !heads[to] {
            heads[to] = true;
            loops = loops.saturating_add(1);
        }
        add_uses(&mut weights, *instruction, weight_within(loops));
        if number < heads.len() && heads[number] {
            loops = loops.saturating_sub(1);
        }
    }
    Ok(weights)
}
