//! The replacement of an instruction, by the facts known before it.

ghost use Rattle.std.specs.Prelude.{◌≡◌};
ghost use Rattle.frames_opt.specs.inside.Rules as rules;

use crate::facts::{Facts, Known, is_target, known_of};
use crate::operations::compute;
use frames_code::{Instruction, Location, Operand, Target};

/// How many bytes there may be statics.
const MOST_STATICS: usize = 0x1000_0000;

fn constant_or(operand: Operand, known: Known) -> Operand
    ensures { result ≡ rules.constant_or operand known }
{
    match known {
        Known::Unknown => operand,
        Known::Word(word) => Operand::Constant(word),
        Known::Statics(_) => operand,
        Known::Frame(_) => operand,
        Known::Indexed { .. } => operand,
    }
}

fn simpler_operand(facts: &Facts, operand: Operand) -> Operand
    ensures { result ≡ rules.simpler_operand facts.now operand }
{
    constant_or(operand, known_of(facts, operand))
}

fn location_or(operand: Operand, known: Known) -> Location
    ensures { result ≡ rules.location_or operand known }
{
    match known {
        Known::Unknown => Location::At(operand),
        Known::Word(_) => Location::At(operand),
        Known::Statics(offset) => Location::Statics(offset),
        Known::Frame(offset) => Location::Frame(offset),
        Known::Indexed { base, index, size } => Location::Indexed { base, index, size },
    }
}

fn simpler_location(facts: &Facts, location: Location) -> Location
    ensures { result ≡ rules.simpler_location facts.now location }
{
    match location {
        Location::Statics(offset) => Location::Statics(offset),
        Location::Frame(offset) => Location::Frame(offset),
        Location::At(operand) => location_or(operand, known_of(facts, operand)),
        Location::Indexed { base, index, size } => Location::Indexed { base, index, size },
    }
}

/// The offset `index` elements further, where that is below `most`.
fn within(offset: usize, index: u32, size: usize, most: usize) -> Option<usize>
    ensures { result ≡ rules.within offset index size most }
{
    let Some(bytes) = (index as usize).checked_mul(size) else {
        return None;
    };
    let Some(sum) = offset.checked_add(bytes) else {
        return None;
    };
    if sum < most { Some(sum) } else { None }
}

/// A move, which does nothing where it is of a word onto itself.
fn carried(target: Target, source: Operand) -> Instruction
    ensures { result ≡ rules.carried target source }
{
    if is_target(target, source) {
        Instruction::Nothing
    } else {
        Instruction::Move { target, source }
    }
}

/// The element a number of elements further on: where that is none, a move.
fn stepped(target: Target, array: Operand, index: u32, size: usize) -> Instruction
    ensures { result ≡ rules.stepped target array index size }
{
    if index == 0 {
        carried(target, array)
    } else {
        Instruction::Element {
            target,
            array,
            index: Operand::Constant(index),
            size,
        }
    }
}

fn statics_or(
    place: Option<usize>,
    target: Target,
    array: Operand,
    index: u32,
    size: usize,
) -> Instruction
    ensures { result ≡ rules.statics_or place target array index size }
{
    match place {
        Some(offset) => Instruction::Address {
            target,
            of: Location::Statics(offset),
        },
        None => stepped(target, array, index, size),
    }
}

fn frame_or(
    place: Option<usize>,
    target: Target,
    array: Operand,
    index: u32,
    size: usize,
) -> Instruction
    ensures { result ≡ rules.frame_or place target array index size }
{
    match place {
        Some(offset) => Instruction::Address {
            target,
            of: Location::Frame(offset),
        },
        None => stepped(target, array, index, size),
    }
}

/// An element by a constant index.
fn numbered(
    area: usize,
    known: Known,
    target: Target,
    array: Operand,
    index: u32,
    size: usize,
) -> Instruction
    ensures { result ≡ rules.numbered area known target array index size }
{
    match known {
        Known::Unknown => frame_or(None, target, array, index, size),
        Known::Word(_) => frame_or(None, target, array, index, size),
        Known::Indexed { .. } => frame_or(None, target, array, index, size),
        Known::Statics(offset) => {
            statics_or(
                within(offset, index, size, MOST_STATICS),
                target,
                array,
                index,
                size,
            )
        }
        Known::Frame(offset) => {
            frame_or(
                within(offset, index, size, area),
                target,
                array,
                index,
                size,
            )
        }
    }
}

fn element(target: Target, array: Operand, index: Operand, size: usize) -> Instruction
    ensures { result ≡ rules.element target array index size }
{
    Instruction::Element {
        target,
        array,
        index,
        size,
    }
}

fn simpler_element(
    area: usize,
    known: Known,
    target: Target,
    array: Operand,
    index: Operand,
    size: usize,
) -> Instruction
    ensures { result ≡ rules.simpler_element area known target array index size }
{
    match index {
        Operand::Temporary(number) => element(target, array, Operand::Temporary(number), size),
        Operand::Cell(number) => element(target, array, Operand::Cell(number), size),
        Operand::Constant(word) => numbered(area, known, target, array, word, size),
        Operand::Argument(number) => element(target, array, Operand::Argument(number), size),
    }
}

/// The instruction by the facts known before it, in a function whose arrays have `area` bytes.
pub fn simpler(area: usize, facts: &Facts, instruction: Instruction) -> Instruction
    ensures { result ≡ rules.simpler area facts.now instruction }
{
    match instruction {
        Instruction::Nothing => Instruction::Nothing,
        Instruction::Move { target, source } => carried(target, simpler_operand(facts, source)),
        Instruction::Compute {
            operation,
            target,
            left,
            right,
        } => compute(
            operation,
            target,
            simpler_operand(facts, left),
            simpler_operand(facts, right),
        ),
        Instruction::Convert {
            conversion,
            target,
            source,
        } => Instruction::Convert {
            conversion,
            target,
            source,
        },
        Instruction::Load {
            width,
            target,
            from,
        } => Instruction::Load {
            width,
            target,
            from: simpler_location(facts, from),
        },
        Instruction::Store { width, source, to } => Instruction::Store {
            width,
            source: simpler_operand(facts, source),
            to: simpler_location(facts, to),
        },
        Instruction::Address { target, of } => Instruction::Address {
            target,
            of: simpler_location(facts, of),
        },
        Instruction::Element {
            target,
            array,
            index,
            size,
        } => simpler_element(
            area,
            known_of(facts, array),
            target,
            array,
            simpler_operand(facts, index),
            size,
        ),
        Instruction::Jump(to) => Instruction::Jump(to),
        Instruction::Branch {
            test,
            left,
            right,
            to,
        } => Instruction::Branch {
            test,
            left: simpler_operand(facts, left),
            right: simpler_operand(facts, right),
            to,
        },
        Instruction::Call(number) => Instruction::Call(number),
        Instruction::PutByte => Instruction::PutByte,
        Instruction::GetByte => Instruction::GetByte,
        Instruction::Exit => Instruction::Exit,
        Instruction::Return => Instruction::Return,
    }
}
