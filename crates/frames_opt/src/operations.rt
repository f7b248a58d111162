//! Operations on words that are known.

ghost use Rattle.std.specs.Prelude.{◌≡◌};
ghost use Rattle.frames_opt.specs.inside.Facts as facts_in;
ghost use Rattle.frames_opt.specs.inside.Rules as rules;

use crate::facts::Known;
use frames_code::{Instruction, Operand, Operation, Target};
use rv32::RegisterOp;
use rv32::alu::operate;

fn result_of(op: RegisterOp, left: u32, right: u32) -> Known
    ensures { result ≡ facts_in.result_of op left right }
{
    match op {
        RegisterOp::Add => Known::Word(operate(op, left, right)),
        RegisterOp::Sub => Known::Word(operate(op, left, right)),
        RegisterOp::ShiftLeft => Known::Word(operate(op, left, right)),
        RegisterOp::Less => Known::Unknown,
        RegisterOp::LessUnsigned => Known::Unknown,
        RegisterOp::Xor => Known::Unknown,
        RegisterOp::ShiftRight => Known::Unknown,
        RegisterOp::ShiftRightArithmetic => Known::Unknown,
        RegisterOp::Or => Known::Unknown,
        RegisterOp::And => Known::Unknown,
        RegisterOp::Mul => Known::Word(operate(op, left, right)),
        RegisterOp::MulHigh => Known::Unknown,
        RegisterOp::MulHighSignedUnsigned => Known::Unknown,
        RegisterOp::MulHighUnsigned => Known::Unknown,
        RegisterOp::Div => Known::Unknown,
        RegisterOp::DivUnsigned => Known::Unknown,
        RegisterOp::Rem => Known::Unknown,
        RegisterOp::RemUnsigned => Known::Unknown,
    }
}

fn result_on(operation: Operation, left: u32, right: u32) -> Known
    ensures { result ≡ facts_in.result_on operation left right }
{
    match operation {
        Operation::Machine(op) => result_of(op, left, right),
        Operation::Equal => Known::Unknown,
        Operation::NotEqual => Known::Unknown,
    }
}

fn result_with(operation: Operation, left: u32, right: Operand) -> Known
    ensures { result ≡ facts_in.result_with operation left right }
{
    match right {
        Operand::Temporary(_) => Known::Unknown,
        Operand::Cell(_) => Known::Unknown,
        Operand::Constant(word) => result_on(operation, left, word),
        Operand::Argument(_) => Known::Unknown,
    }
}

/// The result of an operation, where it is known.
pub fn computed(operation: Operation, left: Operand, right: Operand) -> Known
    ensures { result ≡ facts_in.computed operation left right }
{
    match left {
        Operand::Temporary(_) => Known::Unknown,
        Operand::Cell(_) => Known::Unknown,
        Operand::Constant(word) => result_with(operation, word, right),
        Operand::Argument(_) => Known::Unknown,
    }
}

/// Whether the two words may change places.
fn commutes(operation: Operation) -> bool
    ensures { result ≡ rules.commutes operation }
{
    match operation {
        Operation::Machine(op) => match op {
            RegisterOp::Add => true,
            RegisterOp::Sub => false,
            RegisterOp::ShiftLeft => false,
            RegisterOp::Less => false,
            RegisterOp::LessUnsigned => false,
            RegisterOp::Xor => true,
            RegisterOp::ShiftRight => false,
            RegisterOp::ShiftRightArithmetic => false,
            RegisterOp::Or => true,
            RegisterOp::And => true,
            RegisterOp::Mul => true,
            RegisterOp::MulHigh => false,
            RegisterOp::MulHighSignedUnsigned => false,
            RegisterOp::MulHighUnsigned => false,
            RegisterOp::Div => false,
            RegisterOp::DivUnsigned => false,
            RegisterOp::Rem => false,
            RegisterOp::RemUnsigned => false,
        },
        Operation::Equal => false,
        Operation::NotEqual => false,
    }
}

fn is_constant(operand: Operand) -> bool
    ensures { result ≡ rules.is_constant operand }
{
    match operand {
        Operand::Temporary(_) => false,
        Operand::Cell(_) => false,
        Operand::Constant(_) => true,
        Operand::Argument(_) => false,
    }
}

fn with_constant(op: RegisterOp, target: Target, left: Operand, word: u32) -> Instruction
    ensures { result ≡ rules.with_constant op target left word }
{
    Instruction::Compute {
        operation: Operation::Machine(op),
        target,
        left,
        right: Operand::Constant(word),
    }
}

/// The remainder by a power of two.
fn low_bits(target: Target, left: Operand, power: u32, word: u32) -> Instruction
    ensures { result ≡ rules.low_bits target left power word }
{
    if power < 12 {
        with_constant(RegisterOp::And, target, left, word.saturating_sub(1))
    } else {
        with_constant(RegisterOp::RemUnsigned, target, left, word)
    }
}

/// An operation with a power of two: by a shift or a mask where there is one.
fn with_power(op: RegisterOp, target: Target, left: Operand, power: u32, word: u32) -> Instruction
    ensures { result ≡ rules.with_power op target left power word }
{
    match op {
        RegisterOp::Add => with_constant(op, target, left, word),
        RegisterOp::Sub => with_constant(op, target, left, word),
        RegisterOp::ShiftLeft => with_constant(op, target, left, word),
        RegisterOp::Less => with_constant(op, target, left, word),
        RegisterOp::LessUnsigned => with_constant(op, target, left, word),
        RegisterOp::Xor => with_constant(op, target, left, word),
        RegisterOp::ShiftRight => with_constant(op, target, left, word),
        RegisterOp::ShiftRightArithmetic => with_constant(op, target, left, word),
        RegisterOp::Or => with_constant(op, target, left, word),
        RegisterOp::And => with_constant(op, target, left, word),
        RegisterOp::Mul => with_constant(RegisterOp::ShiftLeft, target, left, power),
        RegisterOp::MulHigh => with_constant(op, target, left, word),
        RegisterOp::MulHighSignedUnsigned => with_constant(op, target, left, word),
        RegisterOp::MulHighUnsigned => with_constant(op, target, left, word),
        RegisterOp::Div => with_constant(op, target, left, word),
        RegisterOp::DivUnsigned => with_constant(RegisterOp::ShiftRight, target, left, power),
        RegisterOp::Rem => with_constant(op, target, left, word),
        RegisterOp::RemUnsigned => low_bits(target, left, power, word),
    }
}

fn with_word(op: RegisterOp, target: Target, left: Operand, word: u32) -> Instruction
    ensures { result ≡ rules.with_word op target left word }
{
    let power = word.trailing_zeros();
    if power < 32 && 1u32 << power == word {
        with_power(op, target, left, power, word)
    } else {
        with_constant(op, target, left, word)
    }
}

fn on_machine(op: RegisterOp, target: Target, left: Operand, right: Operand) -> Instruction
    ensures { result ≡ rules.on_machine op target left right }
{
    match right {
        Operand::Temporary(number) => Instruction::Compute {
            operation: Operation::Machine(op),
            target,
            left,
            right: Operand::Temporary(number),
        },
        Operand::Cell(number) => Instruction::Compute {
            operation: Operation::Machine(op),
            target,
            left,
            right: Operand::Cell(number),
        },
        Operand::Constant(word) => with_word(op, target, left, word),
        Operand::Argument(number) => Instruction::Compute {
            operation: Operation::Machine(op),
            target,
            left,
            right: Operand::Argument(number),
        },
    }
}

fn arranged(operation: Operation, target: Target, left: Operand, right: Operand) -> Instruction
    ensures { result ≡ rules.arranged operation target left right }
{
    match operation {
        Operation::Machine(op) => on_machine(op, target, left, right),
        Operation::Equal => Instruction::Compute {
            operation: Operation::Equal,
            target,
            left,
            right,
        },
        Operation::NotEqual => Instruction::Compute {
            operation: Operation::NotEqual,
            target,
            left,
            right,
        },
    }
}

/// An operation with a constant after the other operand, where they may change places, and with a shift or a mask in place of an operation with a power of two.
pub fn compute(operation: Operation, target: Target, left: Operand, right: Operand) -> Instruction
    ensures { result ≡ rules.compute operation target left right }
{
    if is_constant(left) && !is_constant(right) && commutes(operation) {
        arranged(operation, target, right, left)
    } else {
        arranged(operation, target, left, right)
    }
}
