//! Instructions for operations.

ghost use Rattle.std.specs.Prelude.{◌≡◌, true, false};
ghost use Rattle.ctypes.specs.Types as types;
ghost use Rattle.csem.specs.Machine.{choose};
ghost use Rattle.tac_code.specs.declared.code.Comparison.TheVariants as comparison;
ghost use Rattle.lower_correct.specs.Code as relation;
ghost use Rattle.lower_ops.specs.layer.Emitted as emitted;

use ctypes::{BinOp, IntType};
use tac_code::{Comparison, Instruction, Operand, Operation, Reading, Target};

/// The source is put into the target.
pub fn move_to(target: Target, source: Operand) -> Instruction
    ensures { result ≡ emitted.move_to target source }
{
    Instruction::Move { target, source }
}

/// The source, converted to a type (6.3.1), is put into the target.
pub fn convert_to(to: IntType, target: Target, source: Operand) -> Instruction
    ensures { result ≡ emitted.convert_to to target source }
{
    Instruction::Convert { to, target, source }
}

/// The result of an operation of two operands is put into the target.
pub fn compute(
    operation: Operation,
    reading: Reading,
    target: Target,
    left: Operand,
    right: Operand,
) -> Instruction
    ensures { result ≡ emitted.compute operation reading target left right }
{
    Instruction::Compute {
        operation,
        reading,
        target,
        left,
        right,
    }
}

/// A jump to instruction `to` where the comparison holds.
pub fn branch(
    comparison: Comparison,
    reading: Reading,
    left: Operand,
    right: Operand,
    to: usize,
) -> Instruction
    ensures { result ≡ emitted.branch comparison reading left right to }
{
    Instruction::Branch {
        comparison,
        reading,
        left,
        right,
        to,
    }
}

/// A jump where the truth of a word is `sense`.
pub fn test(sense: bool, operand: Operand, to: usize) -> Instruction
    ensures { result ≡ relation.test sense operand to }
{
    if sense {
        branch(
            Comparison::NotEqual,
            Reading::Signed,
            operand,
            Operand::Constant(0),
            to,
        )
    } else {
        branch(
            Comparison::Equal,
            Reading::Signed,
            operand,
            Operand::Constant(0),
            to,
        )
    }
}

/// Of a constant, whose truth is known.
pub fn truth_jump(truth: bool, sense: bool, to: usize) -> Instruction
    ensures { result ≡ relation.truth_jump truth sense to }
{
    if truth == sense {
        Instruction::Jump(to)
    } else {
        Instruction::Nothing
    }
}

/// Whether a value counts as true: it is not 0 (6.8.4.1p2).
pub fn is_true(value: i64) -> bool
    ensures { result ≡ types.truth value }
{
    value != 0
}

/// Whether an operation is two instructions.
pub fn is_twofold(op: BinOp) -> bool
    ensures { result ≡ emitted.is_twofold op }
{
    match op {
        BinOp::LessEqual => true,
        BinOp::GreaterEqual => true,
        BinOp::Mul => false,
        BinOp::Div => false,
        BinOp::Rem => false,
        BinOp::Add => false,
        BinOp::Sub => false,
        BinOp::Shl => false,
        BinOp::Shr => false,
        BinOp::Less => false,
        BinOp::Greater => false,
        BinOp::Equal => false,
        BinOp::NotEqual => false,
        BinOp::BitAnd => false,
        BinOp::BitXor => false,
        BinOp::BitOr => false,
    }
}

/// The first instruction of an operation.
pub fn first_of(
    op: BinOp,
    reading: Reading,
    target: Target,
    left: Operand,
    right: Operand,
) -> Instruction
    ensures { result ≡ emitted.first_of op reading target left right }
{
    match op {
        BinOp::Mul => compute(Operation::Multiply, reading, target, left, right),
        BinOp::Div => compute(Operation::Divide, reading, target, left, right),
        BinOp::Rem => compute(Operation::Remainder, reading, target, left, right),
        BinOp::Add => compute(Operation::Add, reading, target, left, right),
        BinOp::Sub => compute(Operation::Subtract, reading, target, left, right),
        BinOp::Shl => compute(Operation::ShiftLeft, reading, target, left, right),
        BinOp::Shr => compute(Operation::ShiftRight, reading, target, left, right),
        BinOp::Less => compute(Operation::Less, reading, target, left, right),
        BinOp::Greater => compute(Operation::Less, reading, target, right, left),
        BinOp::LessEqual => compute(Operation::Less, reading, target, right, left),
        BinOp::GreaterEqual => compute(Operation::Less, reading, target, left, right),
        BinOp::Equal => compute(Operation::Equal, reading, target, left, right),
        BinOp::NotEqual => compute(Operation::NotEqual, reading, target, left, right),
        BinOp::BitAnd => compute(Operation::And, reading, target, left, right),
        BinOp::BitXor => compute(Operation::ExclusiveOr, reading, target, left, right),
        BinOp::BitOr => compute(Operation::Or, reading, target, left, right),
    }
}

/// Whether an operation compares, so that it can decide a jump by itself.
pub fn is_comparison(op: BinOp) -> bool
    ensures { result ≡ emitted.is_comparison op }
{
    match op {
        BinOp::Less => true,
        BinOp::Greater => true,
        BinOp::LessEqual => true,
        BinOp::GreaterEqual => true,
        BinOp::Equal => true,
        BinOp::NotEqual => true,
        BinOp::Mul => false,
        BinOp::Div => false,
        BinOp::Rem => false,
        BinOp::Add => false,
        BinOp::Sub => false,
        BinOp::Shl => false,
        BinOp::Shr => false,
        BinOp::BitAnd => false,
        BinOp::BitXor => false,
        BinOp::BitOr => false,
    }
}

fn pick(sense: bool, one: Comparison, other: Comparison) -> Comparison
    ensures { result ≡ choose sense one other }
{
    if sense { one } else { other }
}

/// The jump of a comparison.
pub fn jump_of(
    op: BinOp,
    reading: Reading,
    sense: bool,
    to: usize,
    left: Operand,
    right: Operand,
) -> Instruction
    ensures { result ≡ emitted.jump_of op reading sense to left right }
{
    let below = pick(sense, Comparison::Less, Comparison::GreaterEqual);
    let above = pick(sense, Comparison::GreaterEqual, Comparison::Less);
    match op {
        BinOp::Less => branch(below, reading, left, right, to),
        BinOp::Greater => branch(below, reading, right, left, to),
        BinOp::LessEqual => branch(above, reading, right, left, to),
        BinOp::GreaterEqual => branch(above, reading, left, right, to),
        BinOp::Equal => equal_jump(reading, sense, to, left, right),
        BinOp::NotEqual => equal_jump(reading, !sense, to, left, right),
        BinOp::Mul => Instruction::Nothing,
        BinOp::Div => Instruction::Nothing,
        BinOp::Rem => Instruction::Nothing,
        BinOp::Add => Instruction::Nothing,
        BinOp::Sub => Instruction::Nothing,
        BinOp::Shl => Instruction::Nothing,
        BinOp::Shr => Instruction::Nothing,
        BinOp::BitAnd => Instruction::Nothing,
        BinOp::BitXor => Instruction::Nothing,
        BinOp::BitOr => Instruction::Nothing,
    }
}

fn equal_jump(
    reading: Reading,
    sense: bool,
    to: usize,
    left: Operand,
    right: Operand,
) -> Instruction
    ensures { result ≡ emitted.branch (choose sense comparison.Equal comparison.NotEqual) reading left right to }
{
    branch(
        pick(sense, Comparison::Equal, Comparison::NotEqual),
        reading,
        left,
        right,
        to,
    )
}
