//! Code that reads constants from their places.

ghost use Rattle.std.specs.Prelude.{◌≡◌, ◌≤◌, ◌+◌, length, zero, IfOk};
ghost use Rattle.frames_hoist.specs.layer.Hoisting as hoisting;

use crate::homes::{Home, held_in, put_in};
use crate::tests::is_nothing;
use frames_code::{Instruction, Operand};
use std::alloc::{AllocError, Global};

/// The place that holds a constant, if one does.
fn word_for(home: Home, pool: &[u32], value: u32) -> Operand
    requires { hoisting.first_of home + length pool.now ≤ 16 }
    ensures { result ≡ hoisting.word_for home zero pool.now value }
{
    for number in 0..pool.len() {
        if pool[number] == value {
            return held_in(home, number);
        }
    }
    Operand::Constant(value)
}

fn from_pool(home: Home, pool: &[u32], operand: Operand) -> Operand
    requires { hoisting.first_of home + length pool.now ≤ 16 }
    ensures { result ≡ hoisting.from_pool home pool.now operand }
{
    match operand {
        Operand::Temporary(number) => Operand::Temporary(number),
        Operand::Cell(number) => Operand::Cell(number),
        Operand::Constant(value) => word_for(home, pool, value),
        Operand::Argument(number) => Operand::Argument(number),
    }
}

/// An instruction with the constants of the pool read from their places.
fn with_pool(home: Home, pool: &[u32], instruction: Instruction) -> Instruction
    requires { hoisting.first_of home + length pool.now ≤ 16 }
    ensures { result ≡ hoisting.with_pool home pool.now instruction }
{
    match instruction {
        Instruction::Nothing => Instruction::Nothing,
        Instruction::Move { target, source } => Instruction::Move {
            target,
            source: from_pool(home, pool, source),
        },
        Instruction::Compute {
            operation,
            target,
            left,
            right,
        } => Instruction::Compute {
            operation,
            target,
            left: from_pool(home, pool, left),
            right: from_pool(home, pool, right),
        },
        Instruction::Convert {
            conversion,
            target,
            source,
        } => Instruction::Convert {
            conversion,
            target,
            source,
        },
        Instruction::Load {
            width,
            target,
            from,
        } => Instruction::Load {
            width,
            target,
            from,
        },
        Instruction::Store { width, source, to } => Instruction::Store {
            width,
            source: from_pool(home, pool, source),
            to,
        },
        Instruction::Address { target, of } => Instruction::Address { target, of },
        Instruction::Element {
            target,
            array,
            index,
            size,
        } => Instruction::Element {
            target,
            array,
            index,
            size,
        },
        Instruction::Jump(to) => Instruction::Jump(to),
        Instruction::Branch {
            test,
            left,
            right,
            to,
        } => Instruction::Branch {
            test,
            left: from_pool(home, pool, left),
            right: from_pool(home, pool, right),
            to,
        },
        Instruction::Call(function) => Instruction::Call(function),
        Instruction::PutByte => Instruction::PutByte,
        Instruction::GetByte => Instruction::GetByte,
        Instruction::Exit => Instruction::Exit,
        Instruction::Return => Instruction::Return,
    }
}

/// An instruction at the beginning: where it does nothing, the next constant is put into its place.
fn filled(home: Home, pool: &[u32], count: usize, instruction: Instruction) -> Instruction
    requires { hoisting.first_of home + length pool.now ≤ 16 }
    ensures { result ≡ hoisting.filled home pool.now count instruction }
{
    if is_nothing(instruction) {
        if count < pool.len() {
            Instruction::Move {
                target: put_in(home, count),
                source: Operand::Constant(pool[count]),
            }
        } else {
            Instruction::Nothing
        }
    } else {
        instruction
    }
}

/// Instruction `number` of the code, with `count` constants in their places before it.
fn hoisted_one(
    home: Home,
    pool: &[u32],
    start: usize,
    number: usize,
    count: usize,
    instruction: Instruction,
) -> Instruction
    requires { hoisting.first_of home + length pool.now ≤ 16 }
    ensures { result ≡ hoisting.hoisted_one home pool.now start number count instruction }
{
    if number < start {
        filled(home, pool, count, instruction)
    } else {
        with_pool(home, pool, instruction)
    }
}

/// How many of `most` constants are in their places after instruction `number`.
pub fn next_filled(
    most: usize,
    start: usize,
    number: usize,
    count: usize,
    instruction: Instruction,
) -> usize
    requires { count ≤ most }
    ensures value { result ≡ hoisting.next_filled most start number count instruction }
    ensures within { result ≤ most }
{
    if number < start {
        if is_nothing(instruction) && count < most {
            count + 1
        } else {
            count
        }
    } else {
        count
    }
}

/// The code whose first instructions, up to `start`, put the constants into their places.
pub fn hoisted(
    alloc: Global,
    home: Home,
    pool: &[u32],
    start: usize,
    code: &[Instruction],
) -> Result<Vec<Instruction>, AllocError>
    requires { hoisting.first_of home + length pool.now ≤ 16 }
    ensures { IfOk result (λ made. made.items ≡ hoisting.hoisted home pool.now start zero zero code.now) }
{
    let mut made = Vec::with_capacity(alloc, code.len())?;
    let mut count = 0;
    for number in 0..code.len() {
        let instruction = code[number];
        made.push(hoisted_one(home, pool, start, number, count, instruction))?;
        count = next_filled(pool.len(), start, number, count, instruction);
    }
    Ok(made)
}

/// How many of `most` constants the first instructions, up to `start`, have a place for.
pub fn filled_by(most: usize, start: usize, code: &[Instruction]) -> usize
    requires { start ≤ length code.now }
    ensures { result ≡ hoisting.filled_at most start zero zero code.now start }
{
    let mut count = 0;
    for number in 0..start {
        count = next_filled(most, start, number, count, code[number]);
    }
    count
}
