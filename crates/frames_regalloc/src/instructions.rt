//! Instructions with their words under new numbers.

ghost use Rattle.std.specs.Prelude.{◌≡◌};
ghost use Rattle.frames_regalloc.specs.Renumbered as words;
ghost use Rattle.frames_regalloc.specs.inside.Pairs as swaps_in;

use crate::swaps::{Swap, through};
use frames_code::{Instruction, Location, Operand, Target};

fn renumbered_operand(swaps: &[Swap], operand: Operand) -> Operand
    ensures { result ≡ words.renumbered_operand (swaps_in.through swaps.now) operand }
{
    match operand {
        Operand::Temporary(number) => Operand::Temporary(number),
        Operand::Cell(number) => Operand::Cell(through(swaps, number)),
        Operand::Constant(word) => Operand::Constant(word),
        Operand::Argument(number) => Operand::Argument(number),
    }
}

fn renumbered_target(swaps: &[Swap], target: Target) -> Target
    ensures { result ≡ words.renumbered_target (swaps_in.through swaps.now) target }
{
    match target {
        Target::Temporary(number) => Target::Temporary(number),
        Target::Cell(number) => Target::Cell(through(swaps, number)),
    }
}

fn renumbered_location(swaps: &[Swap], location: Location) -> Location
    ensures { result ≡ words.renumbered_location (swaps_in.through swaps.now) location }
{
    match location {
        Location::Statics(offset) => Location::Statics(offset),
        Location::Frame(offset) => Location::Frame(offset),
        Location::At(operand) => Location::At(renumbered_operand(swaps, operand)),
        Location::Indexed { base, index, size } => Location::Indexed {
            base,
            index: renumbered_operand(swaps, index),
            size,
        },
    }
}

/// An instruction with its words under the numbers that they have once these have changed places.
pub fn renumbered(swaps: &[Swap], instruction: Instruction) -> Instruction
    ensures { result ≡ words.renumbered (swaps_in.through swaps.now) instruction }
{
    match instruction {
        Instruction::Nothing => Instruction::Nothing,
        Instruction::Move { target, source } => Instruction::Move {
            target: renumbered_target(swaps, target),
            source: renumbered_operand(swaps, source),
        },
        Instruction::Compute {
            operation,
            target,
            left,
            right,
        } => Instruction::Compute {
            operation,
            target: renumbered_target(swaps, target),
            left: renumbered_operand(swaps, left),
            right: renumbered_operand(swaps, right),
        },
        Instruction::Convert {
            conversion,
            target,
            source,
        } => Instruction::Convert {
            conversion,
            target: renumbered_target(swaps, target),
            source: renumbered_operand(swaps, source),
        },
        Instruction::Load {
            width,
            target,
            from,
        } => Instruction::Load {
            width,
            target: renumbered_target(swaps, target),
            from: renumbered_location(swaps, from),
        },
        Instruction::Store { width, source, to } => Instruction::Store {
            width,
            source: renumbered_operand(swaps, source),
            to: renumbered_location(swaps, to),
        },
        Instruction::Address { target, of } => Instruction::Address {
            target: renumbered_target(swaps, target),
            of: renumbered_location(swaps, of),
        },
        Instruction::Element {
            target,
            array,
            index,
            size,
        } => Instruction::Element {
            target: renumbered_target(swaps, target),
            array: renumbered_operand(swaps, array),
            index: renumbered_operand(swaps, index),
            size,
        },
        Instruction::Jump(to) => Instruction::Jump(to),
        Instruction::Branch {
            test,
            left,
            right,
            to,
        } => Instruction::Branch {
            test,
            left: renumbered_operand(swaps, left),
            right: renumbered_operand(swaps, right),
            to,
        },
        Instruction::Call(number) => Instruction::Call(number),
        Instruction::PutByte => Instruction::PutByte,
        Instruction::GetByte => Instruction::GetByte,
        Instruction::Exit => Instruction::Exit,
        Instruction::Return => Instruction::Return,
    }
}
