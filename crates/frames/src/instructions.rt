//! The flat instruction of each three-address instruction.

ghost use Rattle.std.specs.Prelude.{◌≡◌};
ghost use Rattle.frames.specs.Translated as flat;
ghost use Rattle.frames.specs.layer.Alone.{starts_in};
ghost use Rattle.frames.specs.inside.Held.{layout_in, OperandIsNear, TargetIsNear, PlaceIsNear, InstructionIsNear};

use crate::layout::Layout;
use crate::operations::{operation_of, test_of, width_of};
use crate::starts::Starts;
use ctypes::{IntType, size_of};
use frames_code::{Conversion, Location};
use tac_code::{Operand, Place, Target};

fn operand_of(layout: &Layout, operand: Operand) -> frames_code::Operand
    requires { OperandIsNear operand }
    ensures { result ≡ flat.operand_of (layout_in layout.now) operand }
{
    match operand {
        Operand::Temporary(number) => frames_code::Operand::Temporary(number),
        Operand::Kept(number) => frames_code::Operand::Cell(layout.slots + number),
        Operand::Object(number) => frames_code::Operand::Cell(layout.cell(number)),
        Operand::Parameter(number) => frames_code::Operand::Cell(layout.references + number),
        Operand::Constant(word) => frames_code::Operand::Constant(word),
    }
}

fn target_of(layout: &Layout, target: Target) -> frames_code::Target
    requires { TargetIsNear target }
    ensures { result ≡ flat.target_of (layout_in layout.now) target }
{
    match target {
        Target::Temporary(number) => frames_code::Target::Temporary(number),
        Target::Kept(number) => frames_code::Target::Cell(layout.slots + number),
        Target::Object(number) => frames_code::Target::Cell(layout.cell(number)),
    }
}

fn location_of(starts: &Starts, layout: &Layout, place: Place) -> Location
    requires { PlaceIsNear (layout_in layout.now) place }
    ensures { result ≡ flat.location_of (starts_in starts.now) (layout_in layout.now) place }
{
    match place {
        Place::Literal(number) => Location::Statics(starts.literal(number)),
        Place::Static(number) => Location::Statics(starts.object(number)),
        Place::Array(number) => Location::Frame(layout.offset(number)),
        Place::Element {
            array,
            number,
            element,
        } => Location::Frame(layout.offset(array) + number * size_of(element) as usize),
        Place::At(reference) => Location::At(operand_of(layout, reference)),
    }
}

fn convert(
    conversion: Conversion,
    target: frames_code::Target,
    source: frames_code::Operand,
) -> frames_code::Instruction
    ensures { result ≡ flat.convert conversion target source }
{
    frames_code::Instruction::Convert {
        conversion,
        target,
        source,
    }
}

/// A conversion to a type (6.3.1.2, 6.3.1.3).
fn conversion_of(
    to: IntType,
    target: frames_code::Target,
    source: frames_code::Operand,
) -> frames_code::Instruction
    ensures { result ≡ flat.conversion_of to target source }
{
    match to {
        IntType::Bool => convert(Conversion::ToTruth, target, source),
        IntType::Char => convert(Conversion::ToByte, target, source),
        IntType::SChar => convert(Conversion::ToSignedByte, target, source),
        IntType::UChar => convert(Conversion::ToByte, target, source),
        IntType::Short => convert(Conversion::ToSignedHalf, target, source),
        IntType::UShort => convert(Conversion::ToHalf, target, source),
        IntType::Int => frames_code::Instruction::Move { target, source },
        IntType::UInt => frames_code::Instruction::Move { target, source },
        IntType::Long => frames_code::Instruction::Move { target, source },
        IntType::ULong => frames_code::Instruction::Move { target, source },
    }
}

/// The flat instruction of an instruction.
pub fn translate(
    starts: &Starts,
    layout: &Layout,
    instruction: tac_code::Instruction,
) -> frames_code::Instruction
    requires { InstructionIsNear (layout_in layout.now) instruction }
    ensures { result ≡ flat.translated (starts_in starts.now) (layout_in layout.now) instruction }
{
    match instruction {
        tac_code::Instruction::Nothing => frames_code::Instruction::Nothing,
        tac_code::Instruction::Move { target, source } => frames_code::Instruction::Move {
            target: target_of(layout, target),
            source: operand_of(layout, source),
        },
        tac_code::Instruction::Compute {
            operation,
            reading,
            target,
            left,
            right,
        } => frames_code::Instruction::Compute {
            operation: operation_of(operation, reading),
            target: target_of(layout, target),
            left: operand_of(layout, left),
            right: operand_of(layout, right),
        },
        tac_code::Instruction::Convert { to, target, source } => {
            conversion_of(to, target_of(layout, target), operand_of(layout, source))
        }
        tac_code::Instruction::Load {
            element,
            target,
            from,
        } => frames_code::Instruction::Load {
            width: width_of(element),
            target: target_of(layout, target),
            from: location_of(starts, layout, from),
        },
        tac_code::Instruction::Store {
            element,
            source,
            to,
        } => frames_code::Instruction::Store {
            width: width_of(element),
            source: operand_of(layout, source),
            to: location_of(starts, layout, to),
        },
        tac_code::Instruction::Address { target, of } => frames_code::Instruction::Address {
            target: target_of(layout, target),
            of: location_of(starts, layout, of),
        },
        tac_code::Instruction::Part {
            target,
            array,
            index,
            size,
        } => frames_code::Instruction::Element {
            target: target_of(layout, target),
            array: operand_of(layout, array),
            index: operand_of(layout, index),
            size,
        },
        tac_code::Instruction::Element {
            element,
            target,
            from,
            count,
        } => frames_code::Instruction::Element {
            target: target_of(layout, target),
            array: operand_of(layout, from),
            index: operand_of(layout, count),
            size: size_of(element) as usize,
        },
        tac_code::Instruction::Forget { .. } => frames_code::Instruction::Nothing,
        tac_code::Instruction::Jump(to) => frames_code::Instruction::Jump(layout.first + to),
        tac_code::Instruction::Branch {
            comparison,
            reading,
            left,
            right,
            to,
        } => frames_code::Instruction::Branch {
            test: test_of(comparison, reading),
            left: operand_of(layout, left),
            right: operand_of(layout, right),
            to: layout.first + to,
        },
        tac_code::Instruction::Call(number) => frames_code::Instruction::Call(number),
        tac_code::Instruction::PutByte => frames_code::Instruction::PutByte,
        tac_code::Instruction::GetByte => frames_code::Instruction::GetByte,
        tac_code::Instruction::Exit => frames_code::Instruction::Exit,
        tac_code::Instruction::Return => frames_code::Instruction::Return,
    }
}
