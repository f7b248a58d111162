//! Operations, comparisons and types as the machine has them.

ghost use Rattle.std.specs.Prelude.{◌≡◌};
ghost use Rattle.frames.specs.Translated as flat;

use ctypes::IntType;
use frames_code::Width;
use rv32::{RegisterOp, Test};
use tac_code::{Comparison, Operation, Reading};

/// The first for words with a sign, the second for words without.
fn by_sign(reading: Reading, signed: RegisterOp, unsigned: RegisterOp) -> RegisterOp
    ensures { result ≡ flat.by_sign reading signed unsigned }
{
    match reading {
        Reading::Signed => signed,
        Reading::Unsigned => unsigned,
    }
}

fn on_machine(operation: RegisterOp) -> frames_code::Operation
    ensures { result ≡ flat.on_machine operation }
{
    frames_code::Operation::Machine(operation)
}

/// An operation on words that are read in this way (6.5.5 to 6.5.12).
pub fn operation_of(operation: Operation, reading: Reading) -> frames_code::Operation
    ensures { result ≡ flat.operation_of operation reading }
{
    match operation {
        Operation::Multiply => on_machine(RegisterOp::Mul),
        Operation::Divide => on_machine(by_sign(reading, RegisterOp::Div, RegisterOp::DivUnsigned)),
        Operation::Remainder => {
            on_machine(by_sign(reading, RegisterOp::Rem, RegisterOp::RemUnsigned))
        }
        Operation::Add => on_machine(RegisterOp::Add),
        Operation::Subtract => on_machine(RegisterOp::Sub),
        Operation::ShiftLeft => on_machine(RegisterOp::ShiftLeft),
        Operation::ShiftRight => on_machine(by_sign(
            reading,
            RegisterOp::ShiftRightArithmetic,
            RegisterOp::ShiftRight,
        )),
        Operation::And => on_machine(RegisterOp::And),
        Operation::ExclusiveOr => on_machine(RegisterOp::Xor),
        Operation::Or => on_machine(RegisterOp::Or),
        Operation::Less => on_machine(by_sign(reading, RegisterOp::Less, RegisterOp::LessUnsigned)),
        Operation::Equal => frames_code::Operation::Equal,
        Operation::NotEqual => frames_code::Operation::NotEqual,
    }
}

fn test_by_sign(reading: Reading, signed: Test, unsigned: Test) -> Test
    ensures { result ≡ flat.test_by_sign reading signed unsigned }
{
    match reading {
        Reading::Signed => signed,
        Reading::Unsigned => unsigned,
    }
}

/// A comparison of words that are read in this way.
pub fn test_of(comparison: Comparison, reading: Reading) -> Test
    ensures { result ≡ flat.test_of comparison reading }
{
    match comparison {
        Comparison::Equal => Test::Equal,
        Comparison::NotEqual => Test::NotEqual,
        Comparison::Less => test_by_sign(reading, Test::Less, Test::LessUnsigned),
        Comparison::GreaterEqual => {
            test_by_sign(reading, Test::GreaterEqual, Test::GreaterEqualUnsigned)
        }
    }
}

/// How an element of a type lies in memory (6.2.6.1).
pub fn width_of(element: IntType) -> Width
    ensures { result ≡ flat.width_of element }
{
    match element {
        IntType::Bool => Width::Byte,
        IntType::Char => Width::Byte,
        IntType::SChar => Width::SignedByte,
        IntType::UChar => Width::Byte,
        IntType::Short => Width::SignedHalf,
        IntType::UShort => Width::Half,
        IntType::Int => Width::Word,
        IntType::UInt => Width::Word,
        IntType::Long => Width::Word,
        IntType::ULong => Width::Word,
    }
}
