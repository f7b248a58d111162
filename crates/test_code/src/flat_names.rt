//! Operands of flat code, and the meanings of numbers.

use crate::types::{constant, letter_of, place_of};
use frames_code::{Base, Conversion, Location, Operand, Operation, Target, Width};
use rv32::{RegisterOp, Test};
use test_rows::Words;

/// `tN`, `cN` or `aN` for a temporary, a word of the frame or an argument; else a constant.
pub fn operand_of(word: &[u8]) -> Operand {
    match letter_of(word) {
        b't' => Operand::Temporary(place_of(word)),
        b'c' => Operand::Cell(place_of(word)),
        b'a' => Operand::Argument(place_of(word)),
        _ => Operand::Constant(constant(word)),
    }
}

/// `tN` or `cN`.
pub fn target_of(word: &[u8]) -> Target {
    match letter_of(word) {
        b't' => Target::Temporary(place_of(word)),
        _ => Target::Cell(place_of(word)),
    }
}

/// `sN` in the statics, `fN` in the arrays of the frame, or `@` with an operand; the first two may have `+`, an index, `*` and a size behind them.
pub fn location_of(word: &[u8]) -> Location {
    let mut parts = Words::new(word, b'+');
    let start = parts.word();
    if !parts.is_over() {
        return indexed(start, parts.word());
    }
    match letter_of(word) {
        b's' => Location::Statics(place_of(word)),
        b'f' => Location::Frame(place_of(word)),
        _ => Location::At(operand_of(word.get(1..).unwrap_or(b""))),
    }
}

fn indexed(start: &[u8], further: &[u8]) -> Location {
    let mut parts = Words::new(further, b'*');
    Location::Indexed {
        base: base_of(start),
        index: operand_of(parts.word()),
        size: place_of(parts.word()),
    }
}

fn base_of(word: &[u8]) -> Base {
    match letter_of(word) {
        b's' => Base::Statics(place_of(word)),
        _ => Base::Frame(place_of(word)),
    }
}

/// A width by its number.
pub fn width_of(number: usize) -> Width {
    match number {
        0 => Width::Byte,
        1 => Width::SignedByte,
        2 => Width::Half,
        3 => Width::SignedHalf,
        _ => Width::Word,
    }
}

/// A test by its number.
pub fn test_of(number: usize) -> Test {
    match number {
        0 => Test::Equal,
        1 => Test::NotEqual,
        2 => Test::Less,
        3 => Test::GreaterEqual,
        4 => Test::LessUnsigned,
        _ => Test::GreaterEqualUnsigned,
    }
}

/// A conversion by its number.
pub fn conversion_of(number: usize) -> Conversion {
    match number {
        0 => Conversion::ToByte,
        1 => Conversion::ToSignedByte,
        2 => Conversion::ToHalf,
        3 => Conversion::ToSignedHalf,
        _ => Conversion::ToTruth,
    }
}

/// An operation by its number: those of the machine from 2 on.
pub fn operation_of(number: usize) -> Operation {
    match number {
        0 => Operation::Equal,
        1 => Operation::NotEqual,
        _ => Operation::Machine(register_op(number)),
    }
}

fn register_op(number: usize) -> RegisterOp {
    match number {
        2 => RegisterOp::Add,
        3 => RegisterOp::Sub,
        4 => RegisterOp::ShiftLeft,
        5 => RegisterOp::Less,
        6 => RegisterOp::LessUnsigned,
        7 => RegisterOp::Xor,
        8 => RegisterOp::ShiftRight,
        9 => RegisterOp::ShiftRightArithmetic,
        10 => RegisterOp::Or,
        11 => RegisterOp::And,
        12 => RegisterOp::Mul,
        13 => RegisterOp::MulHigh,
        14 => RegisterOp::MulHighSignedUnsigned,
        15 => RegisterOp::MulHighUnsigned,
        16 => RegisterOp::Div,
        17 => RegisterOp::DivUnsigned,
        18 => RegisterOp::Rem,
        _ => RegisterOp::RemUnsigned,
    }
}
