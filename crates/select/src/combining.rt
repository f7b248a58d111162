//! Operations on a register and a second operand: a constant is in the instruction itself where there is such an instruction.

ghost use Rattle.std.specs.Prelude.{◌≡◌, ◌++◌, OnOk};
ghost use Rattle.select.specs.Selected as selected;
ghost use Rattle.select.specs.inside.Ranges.{SourceIsNear};

use crate::places::Source;
use crate::words::{load_word, operate_on, put_one, set_to, zero};
use asm::Item;
use frames_code::Operation;
use rv32::{Five, ImmediateOp, Instr, RegisterOp, ShiftOp, Short};
use std::alloc::AllocError;

/// The machine's operation.
fn machine_of(operation: Operation) -> RegisterOp
    ensures { result ≡ selected.machine_of operation }
{
    match operation {
        Operation::Machine(op) => op,
        Operation::Equal => RegisterOp::Xor,
        Operation::NotEqual => RegisterOp::Xor,
    }
}

/// The items that turn its result into whether words are equal.
fn put_ending(items: &mut Vec<Item>, operation: Operation, rd: Five) -> Result<(), AllocError>
    ensures { OnOk result (items.new.items ≡ items.old.items ++ selected.ending operation rd) }
{
    match operation {
        Operation::Machine(_) => Ok(()),
        Operation::Equal => put_one(
            items,
            Item::Plain(Instr::Immediate {
                op: ImmediateOp::LessUnsigned,
                rd,
                left: rd,
                right: Short::new(1),
            }),
        ),
        Operation::NotEqual => put_one(items, operate_on(RegisterOp::LessUnsigned, rd, zero(), rd)),
    }
}

fn put_operation(
    items: &mut Vec<Item>,
    operation: Operation,
    rd: Five,
    left: Five,
    right: Five,
) -> Result<(), AllocError>
    ensures { OnOk result (items.new.items ≡ items.old.items ++ selected.operate operation rd left right) }
{
    put_one(items, operate_on(machine_of(operation), rd, left, right))?;
    put_ending(items, operation, rd)
}

/// The instruction with a constant of 12 bits.
fn short_form(op: ImmediateOp, rd: Five, left: Five, value: u32) -> Option<Instr>
    ensures { result ≡ selected.short_form op rd left value }
{
    if value.wrapping_add(0x800) < 0x1000 {
        Some(Instr::Immediate {
            op,
            rd,
            left,
            right: Short::new(value),
        })
    } else {
        None
    }
}

fn shift_form(op: ShiftOp, rd: Five, left: Five, value: u32) -> Option<Instr>
    ensures { result ≡ selected.shift_form op rd left value }
{
    Some(Instr::Shift {
        op,
        rd,
        left,
        amount: Five::new((value % 32) as u8),
    })
}

/// The instruction that has a constant in itself, where there is one for the operation and the constant.
fn constant_form(op: RegisterOp, rd: Five, left: Five, value: u32) -> Option<Instr>
    ensures { result ≡ selected.constant_form op rd left value }
{
    match op {
        RegisterOp::Add => short_form(ImmediateOp::Add, rd, left, value),
        RegisterOp::Sub => short_form(ImmediateOp::Add, rd, left, 0u32.wrapping_sub(value)),
        RegisterOp::ShiftLeft => shift_form(ShiftOp::Left, rd, left, value),
        RegisterOp::Less => short_form(ImmediateOp::Less, rd, left, value),
        RegisterOp::LessUnsigned => short_form(ImmediateOp::LessUnsigned, rd, left, value),
        RegisterOp::Xor => short_form(ImmediateOp::Xor, rd, left, value),
        RegisterOp::ShiftRight => shift_form(ShiftOp::Right, rd, left, value),
        RegisterOp::ShiftRightArithmetic => shift_form(ShiftOp::RightArithmetic, rd, left, value),
        RegisterOp::Or => short_form(ImmediateOp::Or, rd, left, value),
        RegisterOp::And => short_form(ImmediateOp::And, rd, left, value),
        RegisterOp::Mul => None,
        RegisterOp::MulHigh => None,
        RegisterOp::MulHighSignedUnsigned => None,
        RegisterOp::MulHighUnsigned => None,
        RegisterOp::Div => None,
        RegisterOp::DivUnsigned => None,
        RegisterOp::Rem => None,
        RegisterOp::RemUnsigned => None,
    }
}

/// The constant in the instruction, or else in a register.
fn put_with_constant(
    items: &mut Vec<Item>,
    operation: Operation,
    rd: Five,
    left: Five,
    value: u32,
) -> Result<(), AllocError>
    ensures { OnOk result (items.new.items ≡ items.old.items ++ selected.with_constant operation rd left value) }
{
    let free = Five::new(6);
    match constant_form(machine_of(operation), rd, left, value) {
        Some(form) => {
            put_one(items, Item::Plain(form))?;
            put_ending(items, operation, rd)
        }
        None => {
            put_one(items, set_to(free, value))?;
            put_operation(items, operation, rd, left, free)
        }
    }
}

/// An operation on a register and a second operand.
pub fn put_combination(
    items: &mut Vec<Item>,
    operation: Operation,
    rd: Five,
    left: Five,
    right: &Source,
) -> Result<(), AllocError>
    requires { SourceIsNear right.now }
    ensures { OnOk result (items.new.items ≡ items.old.items ++ selected.combine operation rd left right.now) }
{
    let free = Five::new(6);
    match right {
        Source::Register(register) => put_operation(items, operation, rd, left, *register),
        Source::Frame(offset) => {
            load_word(items, free, *offset)?;
            put_operation(items, operation, rd, left, free)
        }
        Source::Constant(value) => put_with_constant(items, operation, rd, left, *value),
    }
}
