//! The code of expressions that read and change places.

ghost use Rattle.std.specs.Prelude.{◌≡◌, ◌<◌, ◌≤◌, length, OnOk};
ghost use Rattle.srcset.specs.declared.refusal.Pos.{Pos};
ghost use Rattle.ctypes.specs.declared.types.IntType.{IntType};
ghost use Rattle.typing_spec.specs.Program as typed;
ghost use Rattle.typed_ast.specs.View.{value_of, place_of, moment_of};
ghost use Rattle.lower_correct.specs.Values as lowered;
ghost use Rattle.lower_correct.specs.Places as placed;
ghost use Rattle.lower_ops.specs.layer.Rows as rows;
ghost use Rattle.lower_ops.specs.layer.Parts.{IsNear, meant};
ghost use Rattle.lower_exprs.specs.layer.Written.{WroteFinds, WroteValue};
ghost use Rattle.lower_exprs.specs.layer.Written as written;

use crate::operands::keeps;
use crate::rests::has_calls;
use crate::values::{put_converted, put_rested};
use ctypes::{BinOp, IntType};
use lower_ops::bools::either;
use lower_ops::changes::{Change, put_change, put_stepped};
use lower_ops::form_sizes::step_operation;
use lower_ops::memory::{
    Alteration, put_altered, put_altered_by, put_get, put_loaded, put_part, put_stored,
};
use lower_ops::modes::Mode;
use lower_ops::objects::object_of;
use lower_ops::operations::put_end;
use lower_ops::row_sizes::element_size;
use lower_ops::scopes::Scope;
use lower_ops::spots::{cuts, found, free_slot_at, free_temporary_at, target_for};
use lower_ops::waiting::{free_slot, free_temporary};
use lower_ops::words::is_wide;
use lower_ops::writing::{Code, put};
use std::alloc::AllocError;
use tac_code::{Instruction, Operand, Place as Spot, Target};
use tree::StepOp;
use typed_ast::{Moment, Place, Value};

/// The first temporary and the first slot that are free. Neither number is above the length of the code written so far, since a number is
/// counted up only behind an instruction. So the next number fits a word.
#[derive(Clone, Copy)]
pub struct Free {
    pub temporary: usize,
    pub slot: usize,
}

/// The free temporaries and slots next to a value that waits.
pub(crate) fn beside(operand: Operand, free: Free) -> Free
    requires temporary { free.temporary < 4611686018427387904 }
    requires slot { free.slot < 4611686018427387904 }
    ensures temporary { result.temporary ≡ lowered.free_temporary operand free.temporary }
    ensures slot { result.slot ≡ lowered.free_kept operand free.slot }
{
    Free {
        temporary: free_temporary(operand, free.temporary),
        slot: free_slot(operand, free.slot),
    }
}

/// The free temporaries and slots next to a reference that waits.
fn beside_spot(spot: Spot, free: Free) -> Free
    requires temporary { free.temporary < 4611686018427387904 }
    requires slot { free.slot < 4611686018427387904 }
    ensures temporary { result.temporary ≡ placed.free_temporary_at spot free.temporary }
    ensures slot { result.slot ≡ placed.free_kept_at spot free.slot }
{
    Free {
        temporary: free_temporary_at(spot, free.temporary),
        slot: free_slot_at(spot, free.slot),
    }
}

// ---- places

#[cycle(value_code)]
fn put_element(
    scope: &Scope<'_>,
    code: &mut Code,
    array: &Place,
    index: &Value,
    waits: bool,
    free: Free,
) -> Result<(), AllocError>
    requires temporary { free.temporary ≤ length code.old.list.items }
    requires slot { free.slot ≤ length code.old.list.items }
    ensures { OnOk result ((at : Pos) → WroteFinds (rows.sizes_in scope.now) (typed.element at (place_of array.now) (value_of index.now)) waits free.temporary free.slot code.old.list.items code.new.list.items) }
{
    let size = element_size(scope, array);
    let calls = has_calls(index);
    let spot = found(array, calls, free.temporary, free.slot);
    put(code, Instruction::Nothing)?;
    put_found(scope, code, array, calls, free)?;
    let less = beside_spot(spot, free);
    let operand = put_rested(scope, code, index, less)?;
    let temporary = free_temporary(operand, less.temporary);
    let target = target_for(waits, free.temporary, free.slot);
    put_part(code, spot, target, operand, size, temporary)?;
    Ok(())
}

/// The code that finds a place, which waits for an expression that calls, or not.
#[cycle(value_code)]
pub(crate) fn put_found(
    scope: &Scope<'_>,
    code: &mut Code,
    place: &Place,
    waits: bool,
    free: Free,
) -> Result<(), AllocError>
    requires temporary { free.temporary ≤ length code.old.list.items }
    requires slot { free.slot ≤ length code.old.list.items }
    ensures { OnOk result (WroteFinds (rows.sizes_in scope.now) (place_of place.now) waits free.temporary free.slot code.old.list.items code.new.list.items) }
{
    match place {
        Place::Named(_, _) => {
            put(code, Instruction::Nothing)?;
            Ok(())
        }
        Place::Element(_, array, index) => {
            put_element(scope, code, array, index, waits, free)?;
            Ok(())
        }
    }
}

// ---- reads

fn put_read_object(code: &mut Code, object: usize, mode: Mode) -> Result<(), AllocError>
    ensures { OnOk result (written.WroteReadObject object (meant mode) code.old.list.items code.new.list.items) }
{
    put(code, Instruction::Nothing)?;
    put_end(code, mode, Operand::Object(object))?;
    Ok(())
}

#[cycle(value_code)]
fn put_read_memory(
    scope: &Scope<'_>,
    code: &mut Code,
    ty: IntType,
    place: &Place,
    mode: Mode,
    free: Free,
) -> Result<(), AllocError>
    requires temporary { free.temporary ≤ length code.old.list.items }
    requires slot { free.slot ≤ length code.old.list.items }
    ensures { OnOk result (written.WroteReadMemory (rows.sizes_in scope.now) ty (place_of place.now) (meant mode) free.temporary free.slot code.old.list.items code.new.list.items) }
{
    let spot = found(place, false, free.temporary, free.slot);
    put_found(scope, code, place, false, free)?;
    put_get(code, ty, spot, mode, free.temporary)?;
    Ok(())
}

#[cycle(value_code)]
pub(crate) fn put_read(
    scope: &Scope<'_>,
    code: &mut Code,
    ty: IntType,
    place: &Place,
    mode: Mode,
    free: Free,
) -> Result<(), AllocError>
    requires temporary { free.temporary ≤ length code.old.list.items }
    requires slot { free.slot ≤ length code.old.list.items }
    ensures { OnOk result (WroteValue (rows.sizes_in scope.now) (typed.read ty (place_of place.now)) (meant mode) free.temporary free.slot code.old.list.items code.new.list.items) }
{
    match object_of(place) {
        Some(object) => {
            put_read_object(code, object, mode)?;
            Ok(())
        }
        None => {
            put_read_memory(scope, code, ty, place, mode, free)?;
            Ok(())
        }
    }
}

// ---- assignments

#[cycle(value_code)]
fn put_assigned_object(
    scope: &Scope<'_>,
    code: &mut Code,
    ty: IntType,
    object: usize,
    e: &Value,
    mode: Mode,
    free: Free,
) -> Result<(), AllocError>
    requires temporary { free.temporary ≤ length code.old.list.items }
    requires slot { free.slot ≤ length code.old.list.items }
    ensures { OnOk result (written.WroteAssignedObject (rows.sizes_in scope.now) ty object (value_of e.now) (meant mode) free.temporary free.slot code.old.list.items code.new.list.items) }
{
    put(code, Instruction::Nothing)?;
    put(code, Instruction::Nothing)?;
    put_converted(scope, code, ty, e, Target::Object(object), free)?;
    put_end(code, mode, Operand::Object(object))?;
    Ok(())
}

#[cycle(value_code)]
fn put_assigned_memory(
    scope: &Scope<'_>,
    code: &mut Code,
    ty: IntType,
    place: &Place,
    e: &Value,
    mode: Mode,
    free: Free,
) -> Result<(), AllocError>
    requires temporary { free.temporary ≤ length code.old.list.items }
    requires slot { free.slot ≤ length code.old.list.items }
    ensures { OnOk result (written.WroteAssignedMemory (rows.sizes_in scope.now) ty (place_of place.now) (value_of e.now) (meant mode) free.temporary free.slot code.old.list.items code.new.list.items) }
{
    let calls = has_calls(e);
    let spot = found(place, calls, free.temporary, free.slot);
    put(code, Instruction::Nothing)?;
    put_found(scope, code, place, calls, free)?;
    let less = beside_spot(spot, free);
    let operand = put_rested(scope, code, e, less)?;
    let kept = either(cuts(ty, mode), keeps(ty, e));
    put_stored(code, kept, ty, operand, spot, mode, less.temporary)?;
    Ok(())
}

#[cycle(value_code)]
pub(crate) fn put_assigned(
    scope: &Scope<'_>,
    code: &mut Code,
    ty: IntType,
    place: &Place,
    e: &Value,
    mode: Mode,
    free: Free,
) -> Result<(), AllocError>
    requires temporary { free.temporary ≤ length code.old.list.items }
    requires slot { free.slot ≤ length code.old.list.items }
    ensures { OnOk result ((at : Pos) → WroteValue (rows.sizes_in scope.now) (typed.assigned at ty (place_of place.now) (value_of e.now)) (meant mode) free.temporary free.slot code.old.list.items code.new.list.items) }
{
    match object_of(place) {
        Some(object) => {
            put_assigned_object(scope, code, ty, object, e, mode, free)?;
            Ok(())
        }
        None => {
            put_assigned_memory(scope, code, ty, place, e, mode, free)?;
            Ok(())
        }
    }
}

// ---- compound assignments

#[cycle(value_code)]
fn put_compound_object(
    scope: &Scope<'_>,
    code: &mut Code,
    change: Change,
    e: &Value,
    mode: Mode,
    free: Free,
) -> Result<(), AllocError>
    requires temporary { free.temporary ≤ length code.old.list.items }
    requires slot { free.slot ≤ length code.old.list.items }
    ensures { OnOk result (written.WroteCompoundObject (rows.sizes_in scope.now) change.wide change.op change.ty change.of change.object (value_of e.now) (meant mode) free.temporary free.slot code.old.list.items code.new.list.items) }
{
    put(code, Instruction::Nothing)?;
    put(code, Instruction::Nothing)?;
    let operand = put_rested(scope, code, e, free)?;
    put_change(code, change, operand, free.temporary)?;
    put_end(code, mode, Operand::Object(change.object))?;
    Ok(())
}

#[cycle(value_code)]
fn put_compound_memory(
    scope: &Scope<'_>,
    code: &mut Code,
    op: BinOp,
    ty: IntType,
    of: IntType,
    place: &Place,
    e: &Value,
    mode: Mode,
    free: Free,
) -> Result<(), AllocError>
    requires temporary { free.temporary ≤ length code.old.list.items }
    requires slot { free.slot ≤ length code.old.list.items }
    ensures { OnOk result (written.WroteCompoundMemory (rows.sizes_in scope.now) op ty of (place_of place.now) (value_of e.now) (meant mode) free.temporary free.slot code.old.list.items code.new.list.items) }
{
    let calls = has_calls(e);
    let spot = found(place, calls, free.temporary, free.slot);
    put(code, Instruction::Nothing)?;
    put_found(scope, code, place, calls, free)?;
    let less = beside_spot(spot, free);
    let operand = put_rested(scope, code, e, less)?;
    let temporary = free_temporary(operand, less.temporary);
    put_loaded(code, ty, spot, temporary)?;
    let change = Alteration { op, ty, of, spot };
    put_altered(code, change, operand, mode, temporary)?;
    Ok(())
}

#[cycle(value_code)]
pub(crate) fn put_compound(
    scope: &Scope<'_>,
    code: &mut Code,
    op: BinOp,
    ty: IntType,
    of: IntType,
    place: &Place,
    e: &Value,
    mode: Mode,
    free: Free,
) -> Result<(), AllocError>
    requires temporary { free.temporary ≤ length code.old.list.items }
    requires slot { free.slot ≤ length code.old.list.items }
    ensures { OnOk result ((at : Pos) → WroteValue (rows.sizes_in scope.now) (typed.compound at op ty of (place_of place.now) (value_of e.now)) (meant mode) free.temporary free.slot code.old.list.items code.new.list.items) }
{
    match object_of(place) {
        Some(object) => {
            let wide = is_wide(ty);
            let change = Change {
                wide,
                op,
                ty,
                of,
                object,
            };
            put_compound_object(scope, code, change, e, mode, free)?;
            Ok(())
        }
        None => {
            put_compound_memory(scope, code, op, ty, of, place, e, mode, free)?;
            Ok(())
        }
    }
}

// ---- steps

fn put_step_object(
    code: &mut Code,
    moment: Moment,
    change: Change,
    mode: Mode,
    temporary: usize,
) -> Result<(), AllocError>
    requires room { temporary < 4611686018427387904 }
    requires aim { IsNear (meant mode) }
    ensures { OnOk result (written.WroteStepObject (moment_of moment) change.wide change.op change.ty change.of change.object (meant mode) temporary code.old.list.items code.new.list.items) }
{
    put(code, Instruction::Nothing)?;
    put(code, Instruction::Nothing)?;
    put_stepped(code, moment, change, mode, temporary)?;
    Ok(())
}

#[cycle(value_code)]
fn put_step_memory(
    scope: &Scope<'_>,
    code: &mut Code,
    moment: Moment,
    op: BinOp,
    ty: IntType,
    of: IntType,
    place: &Place,
    mode: Mode,
    free: Free,
) -> Result<(), AllocError>
    requires temporary { free.temporary ≤ length code.old.list.items }
    requires slot { free.slot ≤ length code.old.list.items }
    ensures { OnOk result (written.WroteStepMemory (rows.sizes_in scope.now) (moment_of moment) op ty of (place_of place.now) (meant mode) free.temporary free.slot code.old.list.items code.new.list.items) }
{
    let spot = found(place, false, free.temporary, free.slot);
    put(code, Instruction::Nothing)?;
    put_found(scope, code, place, false, free)?;
    let temporary = free_temporary_at(spot, free.temporary);
    put_loaded(code, ty, spot, temporary)?;
    let change = Alteration { op, ty, of, spot };
    put_altered_by(code, moment, change, mode, temporary)?;
    Ok(())
}

#[cycle(value_code)]
pub(crate) fn put_step(
    scope: &Scope<'_>,
    code: &mut Code,
    moment: Moment,
    op: StepOp,
    ty: IntType,
    of: IntType,
    place: &Place,
    mode: Mode,
    free: Free,
) -> Result<(), AllocError>
    requires temporary { free.temporary ≤ length code.old.list.items }
    requires slot { free.slot ≤ length code.old.list.items }
    requires aim { IsNear (meant mode) }
    ensures { OnOk result ((at : Pos) → WroteValue (rows.sizes_in scope.now) (typed.stepped at (moment_of moment) op ty of (place_of place.now)) (meant mode) free.temporary free.slot code.old.list.items code.new.list.items) }
{
    let operation = step_operation(op);
    match object_of(place) {
        Some(object) => {
            let wide = is_wide(ty);
            let change = Change {
                wide,
                op: operation,
                ty,
                of,
                object,
            };
            put_step_object(code, moment, change, mode, free.temporary)?;
            Ok(())
        }
        None => {
            put_step_memory(scope, code, moment, operation, ty, of, place, mode, free)?;
            Ok(())
        }
    }
}
