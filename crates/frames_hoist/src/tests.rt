//! What is asked of the code of a function.

ghost use Rattle.std.specs.Prelude.{◌≡◌, zero};
ghost use Rattle.std.specs.List.{list_all};
ghost use Rattle.frames_hoist.specs.layer.Hoisting as hoisting;

use crate::homes::{Home, spares_arrays, spares_temporary, spares_word, survives_calls};
use frames_code::{Base, Instruction, Location, Operand, Target};

fn reads_beside(home: Home, operand: Operand) -> bool
    ensures { result ≡ hoisting.reads_beside home operand }
{
    match operand {
        Operand::Temporary(number) => spares_temporary(home, number),
        Operand::Cell(number) => spares_word(home, number),
        Operand::Constant(_) => true,
        Operand::Argument(_) => true,
    }
}

fn writes_beside(home: Home, target: Target) -> bool
    ensures { result ≡ hoisting.writes_beside home target }
{
    match target {
        Target::Temporary(number) => spares_temporary(home, number),
        Target::Cell(number) => spares_word(home, number),
    }
}

fn begins_beside(home: Home, base: Base) -> bool
    ensures { result ≡ hoisting.begins_beside home base }
{
    match base {
        Base::Statics(_) => true,
        Base::Frame(_) => spares_arrays(home),
    }
}

fn lies_beside(home: Home, location: Location) -> bool
    ensures { result ≡ hoisting.lies_beside home location }
{
    match location {
        Location::Statics(_) => true,
        Location::Frame(_) => spares_arrays(home),
        Location::At(operand) => reads_beside(home, operand),
        Location::Indexed { base, index, .. } => {
            begins_beside(home, base) && reads_beside(home, index)
        }
    }
}

/// Whether an instruction names and loses no place of a constant, moves no array, and jumps to no instruction before `start`.
fn is_fine(home: Home, start: usize, instruction: Instruction) -> bool
    ensures { result ≡ hoisting.is_fine home start instruction }
{
    match instruction {
        Instruction::Nothing => true,
        Instruction::Move { target, source } => {
            writes_beside(home, target) && reads_beside(home, source)
        }
        Instruction::Compute {
            target,
            left,
            right,
            ..
        } => {
            writes_beside(home, target) && (reads_beside(home, left) && reads_beside(home, right))
        }
        Instruction::Convert { target, source, .. } => {
            writes_beside(home, target) && reads_beside(home, source)
        }
        Instruction::Load { target, from, .. } => {
            writes_beside(home, target) && lies_beside(home, from)
        }
        Instruction::Store { source, to, .. } => {
            reads_beside(home, source) && lies_beside(home, to)
        }
        Instruction::Address { target, of } => {
            writes_beside(home, target) && lies_beside(home, of)
        }
        Instruction::Element {
            target,
            array,
            index,
            ..
        } => {
            writes_beside(home, target) && (reads_beside(home, array) && reads_beside(home, index))
        }
        Instruction::Jump(to) => start <= to,
        Instruction::Branch {
            left,
            right,
            to,
            ..
        } => reads_beside(home, left) && (reads_beside(home, right) && start <= to),
        Instruction::Call(_) => survives_calls(home),
        Instruction::PutByte => survives_calls(home),
        Instruction::GetByte => survives_calls(home),
        Instruction::Exit => spares_temporary(home, 0),
        Instruction::Return => spares_temporary(home, 0),
    }
}

/// Whether all instructions are fine.
pub fn all_fine(home: Home, start: usize, code: &[Instruction]) -> bool
    ensures { result ≡ list_all (hoisting.is_fine home start) code.now }
{
    for instruction in code {
        if !is_fine(home, start, *instruction) {
            return false;
        }
    }
    true
}

/// Whether only the next instruction comes after this one.
pub fn is_straight(instruction: Instruction) -> bool
    ensures { result ≡ hoisting.is_straight instruction }
{
    match instruction {
        Instruction::Nothing => true,
        Instruction::Move { .. } => true,
        Instruction::Compute { .. } => true,
        Instruction::Convert { .. } => true,
        Instruction::Load { .. } => true,
        Instruction::Store { .. } => true,
        Instruction::Address { .. } => true,
        Instruction::Element { .. } => true,
        Instruction::Jump(_) => false,
        Instruction::Branch { .. } => false,
        Instruction::Call(_) => false,
        Instruction::PutByte => false,
        Instruction::GetByte => false,
        Instruction::Exit => false,
        Instruction::Return => false,
    }
}

fn is_straight_at(start: usize, number: usize, instruction: Instruction) -> bool
    ensures { result ≡ hoisting.is_straight_at start number instruction }
{
    if number < start {
        is_straight(instruction)
    } else {
        true
    }
}

/// Whether the instructions before `start` are straight.
pub fn are_straight(start: usize, code: &[Instruction]) -> bool
    ensures { result ≡ hoisting.are_straight start zero code.now }
{
    for number in 0..code.len() {
        if !is_straight_at(start, number, code[number]) {
            return false;
        }
    }
    true
}

/// Whether an instruction does nothing.
pub fn is_nothing(instruction: Instruction) -> bool
    ensures { result ≡ hoisting.is_nothing instruction }
{
    match instruction {
        Instruction::Nothing => true,
        Instruction::Move { .. } => false,
        Instruction::Compute { .. } => false,
        Instruction::Convert { .. } => false,
        Instruction::Load { .. } => false,
        Instruction::Store { .. } => false,
        Instruction::Address { .. } => false,
        Instruction::Element { .. } => false,
        Instruction::Jump(_) => false,
        Instruction::Branch { .. } => false,
        Instruction::Call(_) => false,
        Instruction::PutByte => false,
        Instruction::GetByte => false,
        Instruction::Exit => false,
        Instruction::Return => false,
    }
}
