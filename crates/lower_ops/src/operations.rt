//! Operations, and the uses of their values by a mode.

ghost use Rattle.std.specs.Prelude.{◌≡◌, true, false, OnOk};
ghost use Rattle.lower_correct.specs.Code as relation;
ghost use Rattle.lower_ops.specs.layer.Parts.{meant, shape_of, Wrote};
ghost use Rattle.lower_ops.specs.layer.FormSizes as size;
ghost use Rattle.lower_ops.specs.layer.Emitted as emitted;

use crate::instructions::{
    compute, first_of, is_comparison, is_true, is_twofold, jump_of, move_to, test, truth_jump,
};
use crate::modes::{Mode, target_of};
use crate::words::word_of;
use crate::writing::{Code, put};
use ctypes::BinOp;
use std::alloc::AllocError;
use tac_code::{Instruction, Operand, Operation, Reading, Target};

/// The use, by a mode, of a value that is in an operand.
pub fn put_end(code: &mut Code, mode: Mode, operand: Operand) -> Result<(), AllocError>
    ensures { OnOk result (Wrote (λ w p q. relation.Ends w (meant mode) operand p q) (size.ends_size (shape_of (meant mode))) code.old.list.items code.new.list.items) }
{
    match mode {
        Mode::Nowhere => Ok(()),
        Mode::To(target) => {
            put(code, move_to(target, operand))?;
            Ok(())
        }
        Mode::If(sense, to) => {
            put(code, test(sense, operand, to))?;
            Ok(())
        }
    }
}

/// The same where it is in the mode's target.
pub fn put_follow(code: &mut Code, mode: Mode, temporary: usize) -> Result<(), AllocError>
    ensures { OnOk result (Wrote (λ w p q. relation.Follows w (meant mode) temporary p q) (size.follows_size (shape_of (meant mode))) code.old.list.items code.new.list.items) }
{
    match mode {
        Mode::Nowhere => Ok(()),
        Mode::To(_) => Ok(()),
        Mode::If(sense, to) => {
            put(code, test(sense, Operand::Temporary(temporary), to))?;
            Ok(())
        }
    }
}

/// A constant, where it is wanted.
pub fn put_constant(code: &mut Code, mode: Mode, value: i64) -> Result<(), AllocError>
    ensures { OnOk result (Wrote (λ w p q. relation.Constantly w (meant mode) value p q) 1 code.old.list.items code.new.list.items) }
{
    match mode {
        Mode::Nowhere => {
            put(code, Instruction::Nothing)?;
            Ok(())
        }
        Mode::To(target) => {
            put(code, move_to(target, Operand::Constant(word_of(value))))?;
            Ok(())
        }
        Mode::If(sense, to) => {
            put(code, truth_jump(is_true(value), sense, to))?;
            Ok(())
        }
    }
}

/// An operation that is one instruction.
fn put_onefold(
    code: &mut Code,
    op: BinOp,
    reading: Reading,
    target: Target,
    left: Operand,
    right: Operand,
    temporary: usize,
) -> Result<(), AllocError>
    ensures { OnOk result (emitted.is_twofold op ≡ false → Wrote (λ w p q. relation.Computes w op reading target left right temporary p q) (size.computes_size op) code.old.list.items code.new.list.items) }
{
    put(code, first_of(op, reading, target, left, right))?;
    Ok(())
}

/// An operation that is two, by way of a temporary.
fn put_twofold(
    code: &mut Code,
    op: BinOp,
    reading: Reading,
    target: Target,
    left: Operand,
    right: Operand,
    temporary: usize,
) -> Result<(), AllocError>
    ensures { OnOk result (emitted.is_twofold op ≡ true → Wrote (λ w p q. relation.Computes w op reading target left right temporary p q) (size.computes_size op) code.old.list.items code.new.list.items) }
{
    let way = Target::Temporary(temporary);
    put(code, first_of(op, reading, way, left, right))?;
    let found = Operand::Temporary(temporary);
    let one = Operand::Constant(1);
    put(
        code,
        compute(Operation::ExclusiveOr, Reading::Signed, target, found, one),
    )?;
    Ok(())
}

/// An operation into a target.
pub fn put_operation(
    code: &mut Code,
    op: BinOp,
    reading: Reading,
    target: Target,
    left: Operand,
    right: Operand,
    temporary: usize,
) -> Result<(), AllocError>
    ensures { OnOk result (Wrote (λ w p q. relation.Computes w op reading target left right temporary p q) (size.computes_size op) code.old.list.items code.new.list.items) }
{
    if is_twofold(op) {
        put_twofold(code, op, reading, target, left, right, temporary)?;
        Ok(())
    } else {
        put_onefold(code, op, reading, target, left, right, temporary)?;
        Ok(())
    }
}

/// An operation, and the use of its value by a mode.
pub fn put_then(
    code: &mut Code,
    op: BinOp,
    reading: Reading,
    mode: Mode,
    left: Operand,
    right: Operand,
    temporary: usize,
) -> Result<(), AllocError>
    ensures { OnOk result (Wrote (λ w p q. relation.Then w op reading (meant mode) left right temporary p q) (size.then_size op (shape_of (meant mode))) code.old.list.items code.new.list.items) }
{
    put_operation(
        code,
        op,
        reading,
        target_of(mode, temporary),
        left,
        right,
        temporary,
    )?;
    put_follow(code, mode, temporary)?;
    Ok(())
}

/// A comparison that jumps in one, or an operation and a test.
fn put_comparison(
    code: &mut Code,
    op: BinOp,
    reading: Reading,
    sense: bool,
    to: usize,
    left: Operand,
    right: Operand,
    temporary: usize,
) -> Result<(), AllocError>
    ensures { OnOk result (Wrote (λ w p q. relation.Compares w op reading sense to left right temporary p q) (size.compares_size op) code.old.list.items code.new.list.items) }
{
    if is_comparison(op) {
        put(code, jump_of(op, reading, sense, to, left, right))?;
        Ok(())
    } else {
        let mode = Mode::If(sense, to);
        put_then(code, op, reading, mode, left, right, temporary)?;
        Ok(())
    }
}

/// An operation of two operands, where it is wanted; `temporary` is free.
pub fn put_operated(
    code: &mut Code,
    op: BinOp,
    reading: Reading,
    mode: Mode,
    left: Operand,
    right: Operand,
    temporary: usize,
) -> Result<(), AllocError>
    ensures { OnOk result (Wrote (λ w p q. relation.Operates w op reading (meant mode) left right temporary p q) (size.operates_size op (shape_of (meant mode))) code.old.list.items code.new.list.items) }
{
    match mode {
        Mode::Nowhere => {
            put_then(code, op, reading, mode, left, right, temporary)?;
            Ok(())
        }
        Mode::To(_) => {
            put_then(code, op, reading, mode, left, right, temporary)?;
            Ok(())
        }
        Mode::If(sense, to) => {
            put_comparison(code, op, reading, sense, to, left, right, temporary)?;
            Ok(())
        }
    }
}
