//! What is saved where a constant comes from a register. No contract depends on it.

use frames_code::{Instruction, Operand, Operation};
use rv32::RegisterOp;

/// How many instructions put a constant into a register.
fn load_cost(value: u32) -> u64 {
    if value == 0 {
        0
    } else if value.wrapping_add(0x800) < 0x1000 || value % 0x1000 == 0 {
        1
    } else {
        2
    }
}

/// Whether an instruction of the machine may have the constant as its second operand in itself.
fn is_immediate(operation: Operation, value: u32) -> bool {
    let is_short = value.wrapping_add(0x800) < 0x1000;
    match operation {
        Operation::Machine(RegisterOp::Sub) => 0u32.wrapping_sub(value).wrapping_add(0x800)
            < 0x1000,
        Operation::Machine(RegisterOp::ShiftLeft) => true,
        Operation::Machine(RegisterOp::ShiftRight) => true,
        Operation::Machine(RegisterOp::ShiftRightArithmetic) => true,
        Operation::Machine(RegisterOp::Mul) => false,
        Operation::Machine(RegisterOp::MulHigh) => false,
        Operation::Machine(RegisterOp::MulHighSignedUnsigned) => false,
        Operation::Machine(RegisterOp::MulHighUnsigned) => false,
        Operation::Machine(RegisterOp::Div) => false,
        Operation::Machine(RegisterOp::DivUnsigned) => false,
        Operation::Machine(RegisterOp::Rem) => false,
        Operation::Machine(RegisterOp::RemUnsigned) => false,
        Operation::Machine(RegisterOp::Add) => is_short,
        Operation::Machine(RegisterOp::Less) => is_short,
        Operation::Machine(RegisterOp::LessUnsigned) => is_short,
        Operation::Machine(RegisterOp::Xor) => is_short,
        Operation::Machine(RegisterOp::Or) => is_short,
        Operation::Machine(RegisterOp::And) => is_short,
        Operation::Equal => is_short,
        Operation::NotEqual => is_short,
    }
}

/// A constant with the number of instructions that are saved where it is in a register.
#[derive(Clone, Copy)]
pub struct Gain {
    pub value: u32,
    pub saved: u64,
}

fn of_operand(operand: Operand) -> Gain {
    match operand {
        Operand::Constant(value) => Gain {
            value,
            saved: load_cost(value),
        },
        Operand::Temporary(_) => Gain { value: 0, saved: 0 },
        Operand::Cell(_) => Gain { value: 0, saved: 0 },
        Operand::Argument(_) => Gain { value: 0, saved: 0 },
    }
}

fn of_second(operation: Operation, operand: Operand) -> Gain {
    let gain = of_operand(operand);
    if is_immediate(operation, gain.value) {
        Gain { value: 0, saved: 0 }
    } else {
        gain
    }
}

/// A copy is an instruction too.
fn of_source(operand: Operand) -> Gain {
    let gain = of_operand(operand);
    Gain {
        value: gain.value,
        saved: gain.saved.saturating_sub(1),
    }
}

/// The two operands of an instruction that may be constants.
pub fn gains_of(instruction: Instruction) -> (Gain, Gain) {
    let none = Gain { value: 0, saved: 0 };
    match instruction {
        Instruction::Nothing => (none, none),
        Instruction::Move { source, .. } => (of_source(source), none),
        Instruction::Compute {
            operation,
            left,
            right,
            ..
        } => (of_operand(left), of_second(operation, right)),
        Instruction::Convert { .. } => (none, none),
        Instruction::Load { .. } => (none, none),
        Instruction::Store { source, .. } => (of_operand(source), none),
        Instruction::Address { .. } => (none, none),
        Instruction::Element { .. } => (none, none),
        Instruction::Jump(_) => (none, none),
        Instruction::Branch { left, right, .. } => (of_operand(left), of_operand(right)),
        Instruction::Call(_) => (none, none),
        Instruction::PutByte => (none, none),
        Instruction::GetByte => (none, none),
        Instruction::Exit => (none, none),
        Instruction::Return => (none, none),
    }
}
