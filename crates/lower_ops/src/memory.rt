//! Code for memory: parts of arrays, loads and stores (6.5.2.1, 6.5.16).

ghost use Rattle.std.specs.Prelude.{◌≡◌, ◌<◌, true, OnOk};
ghost use Rattle.typing_spec.specs.Program as typed;
ghost use Rattle.typed_ast.specs.View.{moment_of};
ghost use Rattle.lower_correct.specs.Code as relation;
ghost use Rattle.lower_correct.specs.Values.{Nowhere};
ghost use Rattle.lower_ops.specs.layer.Parts.{meant, shape_of, Wrote};
ghost use Rattle.lower_ops.specs.layer.Parts as parts;
ghost use Rattle.lower_ops.specs.layer.FormSizes as form;
ghost use Rattle.lower_ops.specs.layer.Emitted as emitted;

use crate::bools::either;
use crate::instructions::{convert_to, move_to};
use crate::modes::{Mode, target_of};
use crate::operations::{put_end, put_follow, put_operation};
use crate::spots::cuts;
use crate::words::{is_wide, reading_of};
use crate::writing::{Code, put};
use ctypes::{BinOp, IntType};
use std::alloc::AllocError;
use tac_code::{Instruction, Operand, Place as Spot, Target};
use typed_ast::Moment;

fn load_from(element: IntType, target: Target, from: Spot) -> Instruction
    ensures { result ≡ emitted.load_from element target from }
{
    Instruction::Load {
        element,
        target,
        from,
    }
}

fn store_to(element: IntType, source: Operand, to: Spot) -> Instruction
    ensures { result ≡ emitted.store_to element source to }
{
    Instruction::Store {
        element,
        source,
        to,
    }
}

fn address_of(target: Target, of: Spot) -> Instruction
    ensures { result ≡ emitted.address_of target of }
{
    Instruction::Address { target, of }
}

fn part_of(target: Target, array: Operand, index: Operand, size: usize) -> Instruction
    ensures { result ≡ emitted.part_of target array index size }
{
    Instruction::Part {
        target,
        array,
        index,
        size,
    }
}

// ---- parts of arrays

/// A part of an array whose reference is no operand yet.
fn put_part_named(
    code: &mut Code,
    spot: Spot,
    target: Target,
    index: Operand,
    size: usize,
    temporary: usize,
) -> Result<(), AllocError>
    ensures { OnOk result (Wrote (λ w p q. relation.PartsNamed w spot target index size temporary p q) (parts.plus 1 1) code.old.list.items code.new.list.items) }
{
    put(code, address_of(Target::Temporary(temporary), spot))?;
    let array = Operand::Temporary(temporary);
    put(code, part_of(target, array, index, size))?;
    Ok(())
}

fn put_part_at(
    code: &mut Code,
    array: Operand,
    target: Target,
    index: Operand,
    size: usize,
) -> Result<(), AllocError>
    ensures { OnOk result (Wrote (λ w p q. relation.One w (emitted.part_of target array index size) p q) 1 code.old.list.items code.new.list.items) }
{
    put(code, part_of(target, array, index, size))?;
    Ok(())
}

/// A part of an array of `size` bytes, by way of a temporary.
pub fn put_part(
    code: &mut Code,
    spot: Spot,
    target: Target,
    index: Operand,
    size: usize,
    temporary: usize,
) -> Result<(), AllocError>
    ensures { OnOk result (Wrote (λ w p q. relation.Parts w spot target index size temporary p q) (form.parts_size spot) code.old.list.items code.new.list.items) }
{
    match spot {
        Spot::Literal(_) => {
            put_part_named(code, spot, target, index, size, temporary)?;
            Ok(())
        }
        Spot::Static(_) => {
            put_part_named(code, spot, target, index, size, temporary)?;
            Ok(())
        }
        Spot::Array(_) => {
            put_part_named(code, spot, target, index, size, temporary)?;
            Ok(())
        }
        Spot::Element {
            array: _,
            number: _,
            element: _,
        } => {
            put_part_named(code, spot, target, index, size, temporary)?;
            Ok(())
        }
        Spot::At(array) => {
            put_part_at(code, array, target, index, size)?;
            Ok(())
        }
    }
}

// ---- loads and stores

/// The value of an element, and its use by a mode.
pub fn put_get(
    code: &mut Code,
    ty: IntType,
    spot: Spot,
    mode: Mode,
    temporary: usize,
) -> Result<(), AllocError>
    ensures { OnOk result (Wrote (λ w p q. relation.Gets w ty spot (meant mode) temporary p q) (form.gets_size (shape_of (meant mode))) code.old.list.items code.new.list.items) }
{
    put(code, load_from(ty, target_of(mode, temporary), spot))?;
    put_follow(code, mode, temporary)?;
    Ok(())
}

/// The value of an element into a temporary.
pub fn put_loaded(
    code: &mut Code,
    ty: IntType,
    spot: Spot,
    temporary: usize,
) -> Result<(), AllocError>
    ensures { OnOk result (Wrote (λ w p q. relation.One w (emitted.load_from ty (emitted.temporary temporary) spot) p q) 1 code.old.list.items code.new.list.items) }
{
    put(code, load_from(ty, Target::Temporary(temporary), spot))?;
    Ok(())
}

/// A word is stored, as it is or converted, and is the value (6.5.16p3).
pub fn put_stored(
    code: &mut Code,
    kept: bool,
    ty: IntType,
    operand: Operand,
    spot: Spot,
    mode: Mode,
    temporary: usize,
) -> Result<(), AllocError>
    ensures { OnOk result (Wrote (λ w p q. relation.Puts w kept ty operand spot (meant mode) temporary p q) (form.puts_size kept (shape_of (meant mode))) code.old.list.items code.new.list.items) }
{
    if kept {
        put(code, store_to(ty, operand, spot))?;
        put_end(code, mode, operand)?;
        Ok(())
    } else {
        put(code, convert_to(ty, Target::Temporary(temporary), operand))?;
        let found = Operand::Temporary(temporary);
        put(code, store_to(ty, found, spot))?;
        put_end(code, mode, found)?;
        Ok(())
    }
}

/// An operation on an element of a type, in another, and where its reference is.
#[derive(Clone, Copy)]
pub struct Alteration {
    pub op: BinOp,
    pub ty: IntType,
    pub of: IntType,
    pub spot: Spot,
}

/// A temporary has the old value, and gets the result.
pub fn put_altered(
    code: &mut Code,
    change: Alteration,
    operand: Operand,
    mode: Mode,
    temporary: usize,
) -> Result<(), AllocError>
    ensures { OnOk result (Wrote (λ w p q. relation.Alters w change.op change.ty change.of operand change.spot (meant mode) temporary p q) (form.alters_size change.op change.ty (shape_of (meant mode))) code.old.list.items code.new.list.items) }
{
    let reading = reading_of(change.of);
    let old = Operand::Temporary(temporary);
    let way = Target::Temporary(temporary);
    put_operation(code, change.op, reading, way, old, operand, temporary)?;
    let kept = either(cuts(change.ty, mode), is_wide(change.ty));
    put_stored(code, kept, change.ty, old, change.spot, mode, temporary)?;
    Ok(())
}

/// One more or less, with the old value kept aside, which is the value.
fn put_altered_aside(
    code: &mut Code,
    change: Alteration,
    mode: Mode,
    temporary: usize,
) -> Result<(), AllocError>
    requires { temporary < 4611686018427387904 }
    ensures { OnOk result (Wrote (λ w p q. relation.AltersAside w change.op change.ty change.of change.spot (meant mode) temporary p q) (form.alters_aside_size change.op change.ty (shape_of (meant mode))) code.old.list.items code.new.list.items) }
{
    let reading = reading_of(change.of);
    let old = Operand::Temporary(temporary);
    let free = temporary + 1;
    let way = Target::Temporary(free);
    let one = Operand::Constant(1);
    put_operation(code, change.op, reading, way, old, one, free)?;
    let kept = either(cuts(change.ty, Mode::Nowhere), is_wide(change.ty));
    let changed = Operand::Temporary(free);
    put_stored(
        code,
        kept,
        change.ty,
        changed,
        change.spot,
        Mode::Nowhere,
        free,
    )?;
    put_end(code, mode, old)?;
    Ok(())
}

fn put_altered_after(
    code: &mut Code,
    change: Alteration,
    mode: Mode,
    temporary: usize,
) -> Result<(), AllocError>
    requires { temporary < 4611686018427387904 }
    ensures { OnOk result (Wrote (λ w p q. relation.AltersBy w typed.after change.op change.ty change.of change.spot (meant mode) temporary p q) (form.alters_after_size change.op change.ty (shape_of (meant mode))) code.old.list.items code.new.list.items) }
{
    match mode {
        Mode::Nowhere => {
            put_altered(code, change, Operand::Constant(1), mode, temporary)?;
            Ok(())
        }
        Mode::To(_) => {
            put_altered_aside(code, change, mode, temporary)?;
            Ok(())
        }
        Mode::If(_, _) => {
            put_altered_aside(code, change, mode, temporary)?;
            Ok(())
        }
    }
}

/// One more or less; a temporary has the old value.
pub fn put_altered_by(
    code: &mut Code,
    moment: Moment,
    change: Alteration,
    mode: Mode,
    temporary: usize,
) -> Result<(), AllocError>
    requires { temporary < 4611686018427387904 }
    ensures { OnOk result (Wrote (λ w p q. relation.AltersBy w (moment_of moment) change.op change.ty change.of change.spot (meant mode) temporary p q) (form.alters_by_size (moment_of moment) change.op change.ty (shape_of (meant mode))) code.old.list.items code.new.list.items) }
{
    match moment {
        Moment::Before => {
            put_altered(code, change, Operand::Constant(1), mode, temporary)?;
            Ok(())
        }
        Moment::After => {
            put_altered_after(code, change, mode, temporary)?;
            Ok(())
        }
    }
}

// ---- arguments

fn put_reference(code: &mut Code, operand: Operand, temporary: usize) -> Result<(), AllocError>
    ensures { OnOk result (Wrote (λ w p q. relation.HandsOver w (emitted.at operand) temporary p q) (form.loads_size true operand) code.old.list.items code.new.list.items) }
{
    let way = Target::Temporary(temporary);
    match operand {
        Operand::Temporary(_) => Ok(()),
        Operand::Kept(_) => {
            put(code, move_to(way, operand))?;
            Ok(())
        }
        Operand::Object(_) => {
            put(code, move_to(way, operand))?;
            Ok(())
        }
        Operand::Parameter(_) => {
            put(code, move_to(way, operand))?;
            Ok(())
        }
        Operand::Constant(_) => {
            put(code, move_to(way, operand))?;
            Ok(())
        }
    }
}

/// The reference of an array to a temporary.
pub fn put_handed(code: &mut Code, spot: Spot, temporary: usize) -> Result<(), AllocError>
    ensures { OnOk result (Wrote (λ w p q. relation.HandsOver w spot temporary p q) (form.hands_over_size spot) code.old.list.items code.new.list.items) }
{
    let way = Target::Temporary(temporary);
    match spot {
        Spot::Literal(_) => {
            put(code, address_of(way, spot))?;
            Ok(())
        }
        Spot::Static(_) => {
            put(code, address_of(way, spot))?;
            Ok(())
        }
        Spot::Array(_) => {
            put(code, address_of(way, spot))?;
            Ok(())
        }
        Spot::Element {
            array: _,
            number: _,
            element: _,
        } => {
            put(code, address_of(way, spot))?;
            Ok(())
        }
        Spot::At(operand) => {
            put_reference(code, operand, temporary)?;
            Ok(())
        }
    }
}
