//! Objects that change, and calls.

ghost use Rattle.std.specs.Prelude.{ℕ, ◌+◌, ◌<◌, true, OnOk};
ghost use Rattle.ctypes.specs.declared.types.IntType.{IntType};
ghost use Rattle.tac_code.specs.declared.code.Operand.TheVariants as operands;
ghost use Rattle.typed_ast.specs.View.{callee_of, moment_of};
ghost use Rattle.lower_correct.specs.Code as relation;
ghost use Rattle.lower_correct.specs.Values.{To};
ghost use Rattle.lower_ops.specs.layer.Parts.{IsNear, meant, shape_of, Wrote};
ghost use Rattle.lower_ops.specs.layer.Parts as parts;
ghost use Rattle.lower_ops.specs.layer.Emitted as emitted;
ghost use Rattle.lower_ops.specs.layer.FormSizes as size;

use crate::instructions::{convert_to, move_to};
use crate::modes::Mode;
use crate::operations::{put_end, put_operation};
use crate::words::reading_of;
use crate::writing::{Code, ahead, put};
use ctypes::{BinOp, IntType};
use std::alloc::AllocError;
use tac_code::{Instruction, Operand, Target};
use typed_ast::{Callee, Moment};

/// An operation on an object of a type, in another: whether that is as wide as a word.
#[derive(Clone, Copy)]
pub struct Change {
    pub wide: bool,
    pub op: BinOp,
    pub ty: IntType,
    pub of: IntType,
    pub object: usize,
}

/// A result of another width goes by way of a temporary.
pub fn put_change(
    code: &mut Code,
    change: Change,
    operand: Operand,
    temporary: usize,
) -> Result<(), AllocError>
    ensures { OnOk result (Wrote (λ w p q. relation.Changes w change.wide change.op change.ty change.of change.object operand temporary p q) (size.changes_size change.wide change.op) code.old.list.items code.new.list.items) }
{
    let reading = reading_of(change.of);
    let old = Operand::Object(change.object);
    if change.wide {
        let target = Target::Object(change.object);
        put_operation(code, change.op, reading, target, old, operand, temporary)?;
        Ok(())
    } else {
        let way = Target::Temporary(temporary);
        put_operation(code, change.op, reading, way, old, operand, temporary)?;
        let target = Target::Object(change.object);
        let found = Operand::Temporary(temporary);
        put(code, convert_to(change.ty, target, found))?;
        Ok(())
    }
}

fn put_step(code: &mut Code, change: Change, temporary: usize) -> Result<(), AllocError>
    ensures { OnOk result (Wrote (λ w p q. relation.Steps w change.wide change.op change.ty change.of change.object temporary p q) (size.changes_size change.wide change.op) code.old.list.items code.new.list.items) }
{
    put_change(code, change, Operand::Constant(1), temporary)?;
    Ok(())
}

/// The old value by way of a temporary.
fn put_step_aside(
    code: &mut Code,
    change: Change,
    mode: Mode,
    temporary: usize,
) -> Result<(), AllocError>
    requires { temporary < 4611686018427387904 }
    ensures { OnOk result (Wrote (λ w p q. relation.StepsAside w change.wide change.op change.ty change.of (meant mode) change.object temporary p q) (size.steps_aside_size change.wide change.op (shape_of (meant mode))) code.old.list.items code.new.list.items) }
{
    let way = Target::Temporary(temporary);
    put(code, move_to(way, Operand::Object(change.object)))?;
    put_step(code, change, temporary + 1)?;
    put_end(code, mode, Operand::Temporary(temporary))?;
    Ok(())
}

/// The old value into a target, then the step.
fn put_step_behind(
    code: &mut Code,
    change: Change,
    target: Target,
    temporary: usize,
) -> Result<(), AllocError>
    ensures { OnOk result (Wrote (λ w p q. (p1 : ℕ) × relation.One w (emitted.move_to target (operands.Object change.object)) p p1
        × relation.Steps w change.wide change.op change.ty change.of change.object temporary p1 q) (parts.plus 1 (size.changes_size change.wide change.op)) code.old.list.items code.new.list.items) }
{
    put(code, move_to(target, Operand::Object(change.object)))?;
    put_step(code, change, temporary)?;
    Ok(())
}

fn put_step_to(
    code: &mut Code,
    change: Change,
    target: Target,
    temporary: usize,
) -> Result<(), AllocError>
    requires room { temporary < 4611686018427387904 }
    requires aim { IsNear (To target) }
    ensures { OnOk result (Wrote (λ w p q. relation.StepsAfter w change.wide change.op change.ty change.of (To target) change.object temporary p q) (size.steps_after_size change.wide change.op (shape_of (To target))) code.old.list.items code.new.list.items) }
{
    match target {
        Target::Temporary(number) => {
            put_step_behind(code, change, target, number + 1)?;
            Ok(())
        }
        Target::Kept(_) => {
            put_step_behind(code, change, target, temporary)?;
            Ok(())
        }
        Target::Object(_) => {
            put_step_aside(code, change, Mode::To(target), temporary)?;
            Ok(())
        }
    }
}

fn put_step_after(
    code: &mut Code,
    change: Change,
    mode: Mode,
    temporary: usize,
) -> Result<(), AllocError>
    requires room { temporary < 4611686018427387904 }
    requires aim { IsNear (meant mode) }
    ensures { OnOk result (Wrote (λ w p q. relation.StepsAfter w change.wide change.op change.ty change.of (meant mode) change.object temporary p q) (size.steps_after_size change.wide change.op (shape_of (meant mode))) code.old.list.items code.new.list.items) }
{
    match mode {
        Mode::Nowhere => {
            put_step(code, change, temporary)?;
            Ok(())
        }
        Mode::To(target) => {
            put_step_to(code, change, target, temporary)?;
            Ok(())
        }
        Mode::If(_, _) => {
            put_step_aside(code, change, mode, temporary)?;
            Ok(())
        }
    }
}

/// One more or less.
pub fn put_stepped(
    code: &mut Code,
    moment: Moment,
    change: Change,
    mode: Mode,
    temporary: usize,
) -> Result<(), AllocError>
    requires room { temporary < 4611686018427387904 }
    requires aim { IsNear (meant mode) }
    ensures { OnOk result (Wrote (λ w p q. relation.StepsBy w (moment_of moment) change.wide change.op change.ty change.of (meant mode) change.object temporary p q) (size.steps_by_size (moment_of moment) change.wide change.op (shape_of (meant mode))) code.old.list.items code.new.list.items) }
{
    match moment {
        Moment::Before => {
            put_step(code, change, temporary)?;
            put_end(code, mode, Operand::Object(change.object))?;
            Ok(())
        }
        Moment::After => {
            put_step_after(code, change, mode, temporary)?;
            Ok(())
        }
    }
}

// ---- calls

fn put_moved(code: &mut Code, operand: Operand, temporary: usize) -> Result<(), AllocError>
    ensures { OnOk result ((u : IntType) → Wrote (λ w p q. relation.Loads w true u operand temporary p q) (size.loads_size true operand) code.old.list.items code.new.list.items) }
{
    let way = Target::Temporary(temporary);
    match operand {
        Operand::Temporary(_) => Ok(()),
        Operand::Kept(_) => {
            put(code, move_to(way, operand))?;
            Ok(())
        }
        Operand::Object(_) => {
            put(code, move_to(way, operand))?;
            Ok(())
        }
        Operand::Parameter(_) => {
            put(code, move_to(way, operand))?;
            Ok(())
        }
        Operand::Constant(_) => {
            put(code, move_to(way, operand))?;
            Ok(())
        }
    }
}

/// An argument into its temporary, converted if need be.
pub fn put_load(
    code: &mut Code,
    kept: bool,
    ty: IntType,
    operand: Operand,
    temporary: usize,
) -> Result<(), AllocError>
    ensures { OnOk result (Wrote (λ w p q. relation.Loads w kept ty operand temporary p q) (size.loads_size kept operand) code.old.list.items code.new.list.items) }
{
    if kept {
        put_moved(code, operand, temporary)?;
        Ok(())
    } else {
        put(code, convert_to(ty, Target::Temporary(temporary), operand))?;
        Ok(())
    }
}

fn put_called(
    code: &mut Code,
    instruction: Instruction,
    mode: Mode,
    operand: Operand,
) -> Result<(), AllocError>
    ensures { OnOk result (Wrote (λ w p q. (p1 : ℕ) × relation.One w instruction p p1 × relation.Ends w (meant mode) operand p1 q) (parts.plus 1 (size.ends_size (shape_of (meant mode)))) code.old.list.items code.new.list.items) }
{
    put(code, instruction)?;
    put_end(code, mode, operand)?;
    Ok(())
}

/// A call, its arguments being in the first temporaries.
pub fn put_call(code: &mut Code, callee: Callee, mode: Mode) -> Result<(), AllocError>
    ensures { OnOk result (Wrote (λ w p q. relation.Calls w (callee_of callee) (meant mode) p q) (size.calls_size (callee_of callee) (shape_of (meant mode))) code.old.list.items code.new.list.items) }
{
    let found = Operand::Temporary(0);
    match callee {
        Callee::Function(number) => {
            put_called(code, Instruction::Call(number), mode, found)?;
            Ok(())
        }
        Callee::GetByte => {
            put_called(code, Instruction::GetByte, mode, found)?;
            Ok(())
        }
        Callee::PutByte => {
            put_called(code, Instruction::PutByte, mode, Operand::Constant(0))?;
            Ok(())
        }
        Callee::Exit => {
            put(code, Instruction::Exit)?;
            Ok(())
        }
        Callee::Missing(_) => {
            put_end(code, mode, Operand::Constant(0))?;
            Ok(())
        }
    }
}

/// 1, or 0 from the third instruction on.
pub fn put_truths(code: &mut Code, target: Target) -> Result<(), AllocError>
    ensures { OnOk result (Wrote (λ w p q. relation.Truths w target p (p + 2) q) size.truths_size code.old.list.items code.new.list.items) }
{
    let end = ahead(code, 3);
    put(code, move_to(target, Operand::Constant(1)))?;
    put(code, Instruction::Jump(end))?;
    put(code, move_to(target, Operand::Constant(0)))?;
    Ok(())
}
