//! Instructions with words of the frame in temporaries.

ghost use Rattle.std.specs.Prelude.{◌≡◌, ◌≤◌, ◌+◌, length, map, true, IfOk};
ghost use Rattle.std.specs.List.{list_all};
ghost use Rattle.frames_leaf.specs.layer.Moving as moving;

use frames_code::{Instruction, Location, Operand, Target};
use std::alloc::{AllocError, Global};

fn names_below(first: usize, operand: Operand) -> bool
    ensures { result ≡ moving.names_below first operand }
{
    match operand {
        Operand::Temporary(number) => number < first,
        Operand::Cell(_) => true,
        Operand::Constant(_) => true,
        Operand::Argument(_) => true,
    }
}

fn writes_below(first: usize, target: Target) -> bool
    ensures { result ≡ moving.writes_below first target }
{
    match target {
        Target::Temporary(number) => number < first,
        Target::Cell(_) => true,
    }
}

fn lies_below(first: usize, location: Location) -> bool
    ensures { result ≡ moving.lies_below first location }
{
    match location {
        Location::Statics(_) => true,
        Location::Frame(_) => true,
        Location::At(operand) => names_below(first, operand),
        Location::Indexed { index, .. } => names_below(first, index),
    }
}

/// Whether an instruction calls nothing, puts and gets nothing, and names only temporaries below this one.
fn is_leaf(first: usize, instruction: Instruction) -> bool
    ensures { result ≡ moving.is_leaf first instruction }
{
    match instruction {
        Instruction::Nothing => true,
        Instruction::Move { target, source } => {
            writes_below(first, target) && names_below(first, source)
        }
        Instruction::Compute {
            target,
            left,
            right,
            ..
        } => {
            writes_below(first, target) && (names_below(first, left) && names_below(first, right))
        }
        Instruction::Convert { target, source, .. } => {
            writes_below(first, target) && names_below(first, source)
        }
        Instruction::Load { target, from, .. } => {
            writes_below(first, target) && lies_below(first, from)
        }
        Instruction::Store { source, to, .. } => {
            names_below(first, source) && lies_below(first, to)
        }
        Instruction::Address { target, of } => {
            writes_below(first, target) && lies_below(first, of)
        }
        Instruction::Element {
            target,
            array,
            index,
            ..
        } => {
            writes_below(first, target) && (names_below(first, array) && names_below(first, index))
        }
        Instruction::Jump(_) => true,
        Instruction::Branch { left, right, .. } => {
            names_below(first, left) && names_below(first, right)
        }
        Instruction::Call(_) => false,
        Instruction::PutByte => false,
        Instruction::GetByte => false,
        Instruction::Exit => true,
        Instruction::Return => true,
    }
}

/// Whether all of these instructions are so.
pub fn are_leaf(first: usize, code: &[Instruction]) -> bool
    ensures { result ≡ list_all (moving.is_leaf first) code.now }
{
    for instruction in code {
        if !is_leaf(first, *instruction) {
            return false;
        }
    }
    true
}

/// The temporary that a word lives in, if it lives in one.
pub fn home_of(first: usize, words: &[usize], word: usize) -> Option<usize>
    requires { first + length words.now ≤ 8 }
    ensures { result ≡ moving.home_of first words.now word }
{
    for number in 0..words.len() {
        if words[number] == word {
            return Some(first + number);
        }
    }
    None
}

fn moved_operand(first: usize, words: &[usize], operand: Operand) -> Operand
    requires { first + length words.now ≤ 8 }
    ensures { result ≡ moving.moved_operand first words.now operand }
{
    match operand {
        Operand::Temporary(number) => Operand::Temporary(number),
        Operand::Cell(word) => match home_of(first, words, word) {
            Some(number) => Operand::Temporary(number),
            None => Operand::Cell(word),
        },
        Operand::Constant(value) => Operand::Constant(value),
        Operand::Argument(number) => Operand::Argument(number),
    }
}

fn moved_target(first: usize, words: &[usize], target: Target) -> Target
    requires { first + length words.now ≤ 8 }
    ensures { result ≡ moving.moved_target first words.now target }
{
    match target {
        Target::Temporary(number) => Target::Temporary(number),
        Target::Cell(word) => match home_of(first, words, word) {
            Some(number) => Target::Temporary(number),
            None => Target::Cell(word),
        },
    }
}

fn moved_location(first: usize, words: &[usize], location: Location) -> Location
    requires { first + length words.now ≤ 8 }
    ensures { result ≡ moving.moved_location first words.now location }
{
    match location {
        Location::Statics(offset) => Location::Statics(offset),
        Location::Frame(offset) => Location::Frame(offset),
        Location::At(operand) => Location::At(moved_operand(first, words, operand)),
        Location::Indexed { base, index, size } => Location::Indexed {
            base,
            index: moved_operand(first, words, index),
            size,
        },
    }
}

/// An instruction with the words of the list in temporaries.
fn moved(first: usize, words: &[usize], instruction: Instruction) -> Instruction
    requires { first + length words.now ≤ 8 }
    ensures { result ≡ moving.moved first words.now instruction }
{
    match instruction {
        Instruction::Nothing => Instruction::Nothing,
        Instruction::Move { target, source } => Instruction::Move {
            target: moved_target(first, words, target),
            source: moved_operand(first, words, source),
        },
        Instruction::Compute {
            operation,
            target,
            left,
            right,
        } => Instruction::Compute {
            operation,
            target: moved_target(first, words, target),
            left: moved_operand(first, words, left),
            right: moved_operand(first, words, right),
        },
        Instruction::Convert {
            conversion,
            target,
            source,
        } => Instruction::Convert {
            conversion,
            target: moved_target(first, words, target),
            source: moved_operand(first, words, source),
        },
        Instruction::Load {
            width,
            target,
            from,
        } => Instruction::Load {
            width,
            target: moved_target(first, words, target),
            from: moved_location(first, words, from),
        },
        Instruction::Store { width, source, to } => Instruction::Store {
            width,
            source: moved_operand(first, words, source),
            to: moved_location(first, words, to),
        },
        Instruction::Address { target, of } => Instruction::Address {
            target: moved_target(first, words, target),
            of: moved_location(first, words, of),
        },
        Instruction::Element {
            target,
            array,
            index,
            size,
        } => Instruction::Element {
            target: moved_target(first, words, target),
            array: moved_operand(first, words, array),
            index: moved_operand(first, words, index),
            size,
        },
        Instruction::Jump(to) => Instruction::Jump(to),
        Instruction::Branch {
            test,
            left,
            right,
            to,
        } => Instruction::Branch {
            test,
            left: moved_operand(first, words, left),
            right: moved_operand(first, words, right),
            to,
        },
        Instruction::Call(function) => Instruction::Call(function),
        Instruction::PutByte => Instruction::PutByte,
        Instruction::GetByte => Instruction::GetByte,
        Instruction::Exit => Instruction::Exit,
        Instruction::Return => Instruction::Return,
    }
}

/// Code with the words of the list in temporaries, the first one in this.
pub fn all_moved(
    alloc: Global,
    first: usize,
    words: &[usize],
    code: &[Instruction],
) -> Result<Vec<Instruction>, AllocError>
    requires { first + length words.now ≤ 8 }
    ensures { IfOk result (λ made. made.items ≡ map (moving.moved first words.now) code.now) }
{
    let mut made = Vec::with_capacity(alloc, code.len())?;
    for instruction in code {
        made.push(moved(first, words, *instruction))?;
    }
    Ok(made)
}
