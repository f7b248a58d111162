//! Which temporaries an instruction reads and writes, and liveness of temporaries, a dataflow analysis.

ghost use Rattle.std.specs.Prelude.{◌≡◌, ◌<◌, ◌^◌, Some};
ghost use Rattle.frames_opt.specs.inside.Liveness as liveness;
ghost use Rattle.frames_opt.specs.inside.Sweep as sweep;

use crate::statuses::Status;
use frames_code::{Instruction, Location, Operand, Target};
use std::alloc::{AllocError, Global};

/// How often the analysis goes over the code before it gives up.
const ROUNDS: usize = 8;

fn names(number: usize, operand: Operand) -> bool
    ensures { result ≡ liveness.names number operand }
{
    match operand {
        Operand::Temporary(other) => other == number,
        Operand::Cell(_) => false,
        Operand::Constant(_) => false,
        Operand::Argument(_) => false,
    }
}

fn is_through(number: usize, location: Location) -> bool
    ensures { result ≡ liveness.is_through number location }
{
    match location {
        Location::Statics(_) => false,
        Location::Frame(_) => false,
        Location::At(operand) => names(number, operand),
        Location::Indexed { index, .. } => names(number, index),
    }
}

fn is_by(number: usize, location: Location) -> bool
    ensures { result ≡ liveness.is_by number location }
{
    match location {
        Location::Statics(_) => false,
        Location::Frame(_) => false,
        Location::At(_) => false,
        Location::Indexed { index, .. } => names(number, index),
    }
}

/// Whether an access wants what the old code has in a temporary: not the reference, where the index is there in its place.
fn wants(status: Status, number: usize, location: Location) -> bool
    ensures { result ≡ liveness.wants status number location }
{
    match status {
        Status::Same => is_through(number, location),
        Status::Dead => is_through(number, location),
        Status::Index { .. } => is_by(number, location),
    }
}

/// Whether an instruction reads what the old code has in a temporary, where the new code's is of this status; a call, a byte put or got, and an exit count
/// as reading all, and a return reads the result, if the function has one.
pub fn reads(gives: bool, status: Status, number: usize, instruction: Instruction) -> bool
    ensures { result ≡ liveness.reads gives status number instruction }
{
    match instruction {
        Instruction::Nothing => false,
        Instruction::Move { source, .. } => names(number, source),
        Instruction::Compute { left, right, .. } => names(number, left) || names(number, right),
        Instruction::Convert { source, .. } => names(number, source),
        Instruction::Load { from, .. } => wants(status, number, from),
        Instruction::Store { source, to, .. } => {
            names(number, source) || wants(status, number, to)
        }
        Instruction::Address { of, .. } => is_through(number, of),
        Instruction::Element { array, index, .. } => names(number, array) || names(number, index),
        Instruction::Jump(_) => false,
        Instruction::Branch { left, right, .. } => names(number, left) || names(number, right),
        Instruction::Call(_) => true,
        Instruction::PutByte => true,
        Instruction::GetByte => true,
        Instruction::Exit => true,
        Instruction::Return => gives && number == 0,
    }
}

/// The temporary that a target is.
pub fn temporary_of(target: Target) -> Option<usize>
    ensures { result ≡ liveness.temporary_of target }
{
    match target {
        Target::Temporary(number) => Some(number),
        Target::Cell(_) => None,
    }
}

/// The temporary that an instruction writes.
pub fn written(instruction: Instruction) -> Option<usize>
    ensures { result ≡ liveness.written instruction }
{
    match instruction {
        Instruction::Nothing => None,
        Instruction::Move { target, .. } => temporary_of(target),
        Instruction::Compute { target, .. } => temporary_of(target),
        Instruction::Convert { target, .. } => temporary_of(target),
        Instruction::Load { target, .. } => temporary_of(target),
        Instruction::Store { .. } => None,
        Instruction::Address { target, .. } => temporary_of(target),
        Instruction::Element { target, .. } => temporary_of(target),
        Instruction::Jump(_) => None,
        Instruction::Branch { .. } => None,
        Instruction::Call(_) => None,
        Instruction::PutByte => None,
        Instruction::GetByte => None,
        Instruction::Exit => None,
        Instruction::Return => None,
    }
}

/// Whether an instruction writes a temporary.
pub fn is_written(number: usize, instruction: Instruction) -> bool
    ensures { result ≡ liveness.is_written number instruction }
{
    match written(instruction) {
        Some(other) => other == number,
        None => false,
    }
}

/// Whether a temporary is dead by a mask of the first eight.
pub fn is_dead(mask: u8, number: usize) -> bool
    ensures { result ≡ sweep.is_dead mask number }
{
    number < 8 && (mask >> number as u32) % 2 == 1
}

/// The mask of an instruction; past the last one none is dead.
pub fn mask_of(masks: &[u8], number: usize) -> u8 {
    if number < masks.len() {
        masks[number]
    } else {
        0
    }
}

/// Whether a temporary is dead before instruction `at`.
pub fn dead_at(masks: &[u8], at: usize, number: usize) -> bool {
    is_dead(mask_of(masks, at), number)
}

/// The mask of one temporary, which is empty past the first eight.
pub fn bit_of(number: usize) -> u8
    ensures { result ≡ sweep.bit_of (Some number) }
{
    if number < 8 { 1u8 << number as u32 } else { 0 }
}

fn bits_named(operand: Operand) -> u8 {
    match operand {
        Operand::Temporary(number) => bit_of(number),
        Operand::Cell(_) => 0,
        Operand::Constant(_) => 0,
        Operand::Argument(_) => 0,
    }
}

fn bits_through(location: Location) -> u8 {
    match location {
        Location::Statics(_) => 0,
        Location::Frame(_) => 0,
        Location::At(operand) => bits_named(operand),
        Location::Indexed { index, .. } => bits_named(index),
    }
}

/// The temporaries that an instruction reads, in a function with a result.
fn bits_read(instruction: Instruction) -> u8 {
    match instruction {
        Instruction::Nothing => 0,
        Instruction::Move { source, .. } => bits_named(source),
        Instruction::Compute { left, right, .. } => bits_named(left) | bits_named(right),
        Instruction::Convert { source, .. } => bits_named(source),
        Instruction::Load { from, .. } => bits_through(from),
        Instruction::Store { source, to, .. } => bits_named(source) | bits_through(to),
        Instruction::Address { of, .. } => bits_through(of),
        Instruction::Element { array, index, .. } => bits_named(array) | bits_named(index),
        Instruction::Jump(_) => 0,
        Instruction::Branch { left, right, .. } => bits_named(left) | bits_named(right),
        Instruction::Call(_) => 255,
        Instruction::PutByte => 255,
        Instruction::GetByte => 255,
        Instruction::Exit => 255,
        Instruction::Return => 1,
    }
}

/// The mask before a return: all are dead but the result, if there is one.
fn mask_at_return(gives: bool) -> u8 {
    if gives {
        !bits_read(Instruction::Return)
    } else {
        255
    }
}

/// The mask before an instruction, by those of the instructions that it leads to.
fn mask_before(gives: bool, masks: &[u8], at: usize, instruction: Instruction) -> u8
    requires { at < 2 ^ 62 }
{
    let next = mask_of(masks, at + 1);
    match instruction {
        Instruction::Nothing => next,
        Instruction::Jump(to) => mask_of(masks, to),
        Instruction::Branch { to, .. } => next & mask_of(masks, to) & !bits_read(instruction),
        Instruction::Return => mask_at_return(gives),
        _ => match written(instruction) {
            Some(number) => {
                if is_dead(next, number) {
                    next
                } else {
                    (next | bit_of(number)) & !bits_read(instruction)
                }
            }
            None => next & !bits_read(instruction),
        },
    }
}

/// Goes over the code once, from its end. Returns whether a mask changed.
fn go_back(gives: bool, masks: &mut [u8], code: &[Instruction]) -> bool {
    let mut changed = false;
    for behind in 0..code.len() {
        let number = code.len() - 1 - behind;
        let mask = mask_before(gives, masks, number, code[number]);
        if number < masks.len() && masks[number] != mask {
            masks[number] = mask;
            changed = true;
        }
    }
    changed
}

/// The dead temporaries before each instruction of a function that has a result or not, as far as the analysis has found them. No contract depends on it.
pub fn masks_of(alloc: Global, gives: bool, code: &[Instruction]) -> Result<Vec<u8>, AllocError> {
    let mut masks = Vec::new(alloc);
    masks.resize(code.len(), 255)?;
    for _ in 0..ROUNDS {
        if !go_back(gives, &mut masks, code) {
            return Ok(masks);
        }
    }
    Ok(masks)
}
