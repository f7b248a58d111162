//! Operands of three-address code, and the meanings of letters and numbers.

use crate::types::{constant, int_type, letter_of, next_place, place_of};
use tac_code::{Comparison, Operand, Operation, Parameter, Place, Reading, Target};
use test_rows::Words;

/// `tN`, `kN`, `oN` or `pN` for a temporary, a slot, an object or the referent of an array parameter; else a constant.
pub fn operand_of(word: &[u8]) -> Operand {
    match letter_of(word) {
        b't' => Operand::Temporary(place_of(word)),
        b'k' => Operand::Kept(place_of(word)),
        b'o' => Operand::Object(place_of(word)),
        b'p' => Operand::Parameter(place_of(word)),
        _ => Operand::Constant(constant(word)),
    }
}

/// `tN`, `kN` or `oN`.
pub fn target_of(word: &[u8]) -> Target {
    match letter_of(word) {
        b't' => Target::Temporary(place_of(word)),
        b'k' => Target::Kept(place_of(word)),
        _ => Target::Object(place_of(word)),
    }
}

/// `lN`, `sN` or `aN` for a string literal, a static object or an array of the call, `eN.I` for its element I, which has the type of this
/// letter, or `@` with an operand.
pub fn location_of(word: &[u8], letter: u8) -> Place {
    match letter_of(word) {
        b'l' => Place::Literal(place_of(word)),
        b's' => Place::Static(place_of(word)),
        b'a' => Place::Array(place_of(word)),
        b'e' => {
            let mut parts = Words::new(word, b'.');
            Place::Element {
                array: next_place(&mut parts),
                number: next_place(&mut parts),
                element: int_type(letter),
            }
        }
        _ => Place::At(operand_of(word.get(1..).unwrap_or(b""))),
    }
}

/// `s` for signed, else unsigned.
pub fn reading_of(letter: u8) -> Reading {
    match letter {
        b's' => Reading::Signed,
        _ => Reading::Unsigned,
    }
}

/// `n` for a number, else an array.
pub fn parameter_of(letter: u8) -> Parameter {
    match letter {
        b'n' => Parameter::Number,
        _ => Parameter::Array,
    }
}

/// A comparison by its number.
pub fn comparison_of(number: usize) -> Comparison {
    match number {
        0 => Comparison::Equal,
        1 => Comparison::NotEqual,
        2 => Comparison::Less,
        _ => Comparison::GreaterEqual,
    }
}

/// An operation by its number.
pub fn operation_of(number: usize) -> Operation {
    match number {
        0 => Operation::Multiply,
        1 => Operation::Divide,
        2 => Operation::Remainder,
        3 => Operation::Add,
        4 => Operation::Subtract,
        5 => Operation::ShiftLeft,
        6 => Operation::ShiftRight,
        7 => Operation::And,
        8 => Operation::ExclusiveOr,
        9 => Operation::Or,
        10 => Operation::Less,
        11 => Operation::Equal,
        _ => Operation::NotEqual,
    }
}
