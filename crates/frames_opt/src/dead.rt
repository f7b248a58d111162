//! Whether dead temporaries stay unread, by masks of the first eight.

ghost use Rattle.std.specs.Prelude.{◌≡◌, ◌<◌, ◌^◌};
ghost use Rattle.frames_opt.specs.inside.Sweep as sweep;

use crate::liveness::{bit_of, is_dead, temporary_of};
use crate::rows::{Row, mask_at};
use frames_code::{Instruction, Location, Operand};

fn bit_written(written: Option<usize>) -> u8
    ensures { result ≡ sweep.bit_of written }
{
    match written {
        Some(number) => bit_of(number),
        None => 0,
    }
}

/// Whether each temporary of a mask but the one that is written is of the second mask.
pub fn is_within(mask: u8, next: u8, written: Option<usize>) -> bool
    ensures { result ≡ sweep.is_within mask next written }
{
    mask & (next | bit_written(written)) == mask
}

fn names_dead(mask: u8, operand: Operand) -> bool
    ensures { result ≡ sweep.names_dead mask operand }
{
    match operand {
        Operand::Temporary(number) => is_dead(mask, number),
        Operand::Cell(_) => false,
        Operand::Constant(_) => false,
        Operand::Argument(_) => false,
    }
}

fn through_dead(mask: u8, location: Location) -> bool
    ensures { result ≡ sweep.through_dead mask location }
{
    match location {
        Location::Statics(_) => false,
        Location::Frame(_) => false,
        Location::At(operand) => names_dead(mask, operand),
        Location::Indexed { index, .. } => names_dead(mask, index),
    }
}

/// Whether an instruction reads a temporary of a mask that has some, in a function that has a result or not.
pub fn reads_dead(gives: bool, mask: u8, instruction: Instruction) -> bool
    ensures { result ≡ sweep.reads_dead gives mask instruction }
{
    match instruction {
        Instruction::Nothing => false,
        Instruction::Move { source, .. } => names_dead(mask, source),
        Instruction::Compute { left, right, .. } => {
            names_dead(mask, left) || names_dead(mask, right)
        }
        Instruction::Convert { source, .. } => names_dead(mask, source),
        Instruction::Load { from, .. } => through_dead(mask, from),
        Instruction::Store { source, to, .. } => {
            names_dead(mask, source) || through_dead(mask, to)
        }
        Instruction::Address { of, .. } => through_dead(mask, of),
        Instruction::Element { array, index, .. } => {
            names_dead(mask, array) || names_dead(mask, index)
        }
        Instruction::Jump(_) => false,
        Instruction::Branch { left, right, .. } => {
            names_dead(mask, left) || names_dead(mask, right)
        }
        Instruction::Call(_) => true,
        Instruction::PutByte => true,
        Instruction::GetByte => true,
        Instruction::Exit => true,
        Instruction::Return => gives && is_dead(mask, 0),
    }
}

/// Whether the temporaries of a mask are dead wherever instruction `at` leads, but for the one that it writes.
pub fn dead_leads(states: &[Row], at: usize, instruction: Instruction, mask: u8) -> bool
    requires { at < 2 ^ 62 }
    ensures { result ≡ sweep.dead_leads states.now at instruction mask }
{
    let next = mask_at(states, at + 1);
    match instruction {
        Instruction::Nothing => is_within(mask, next, None),
        Instruction::Move { target, .. } => is_within(mask, next, temporary_of(target)),
        Instruction::Compute { target, .. } => is_within(mask, next, temporary_of(target)),
        Instruction::Convert { target, .. } => is_within(mask, next, temporary_of(target)),
        Instruction::Load { target, .. } => is_within(mask, next, temporary_of(target)),
        Instruction::Store { .. } => is_within(mask, next, None),
        Instruction::Address { target, .. } => is_within(mask, next, temporary_of(target)),
        Instruction::Element { target, .. } => is_within(mask, next, temporary_of(target)),
        Instruction::Jump(to) => is_within(mask, mask_at(states, to), None),
        Instruction::Branch { to, .. } => {
            is_within(mask, next, None) && is_within(mask, mask_at(states, to), None)
        }
        Instruction::Call(_) => is_within(mask, next, None),
        Instruction::PutByte => is_within(mask, next, None),
        Instruction::GetByte => is_within(mask, next, None),
        Instruction::Exit => true,
        Instruction::Return => true,
    }
}
