//! The code of expressions.

ghost use Rattle.std.specs.Prelude.{◌≡◌, ◌≤◌, ◌+◌, length, map, drop, ℕ, Bool, Option, OnOk, IfOk};
ghost use Rattle.srcset.specs.declared.refusal.Pos.{Pos};
ghost use Rattle.ctypes.specs.declared.types.IntType.{IntType};
ghost use Rattle.typing_spec.specs.Program as typed;
ghost use Rattle.typed_ast.specs.View.{value_of, place_of, argument_of, arguments_of, callee_of};
ghost use Rattle.lower_correct.specs.Code as relation;
ghost use Rattle.lower_correct.specs.Values as lowered;
ghost use Rattle.lower_correct.specs.Places as placed;
ghost use Rattle.lower_ops.specs.layer.Rows as rows;
ghost use Rattle.lower_ops.specs.layer.FormSizes as form;
ghost use Rattle.lower_ops.specs.layer.Parts.{IsNear, meant, shape_of, Wrote};
ghost use Rattle.lower_exprs.specs.layer.Sizes as size;
ghost use Rattle.lower_exprs.specs.layer.Written.{WroteFinds, WroteValue, WrotePasses};
ghost use Rattle.lower_exprs.specs.inside.Waiting.{Waits, Fetches, AllWait, AllFetched};
ghost use Rattle.lower_exprs.specs.inside.Ends.{AreEnds};

use crate::ends::Ends;
use crate::operands::{keeps, operand_of, waits_for_arguments};
use crate::operators::{put_binary, put_both, put_chosen, put_one, put_unary};
use crate::places::{Free, put_assigned, put_compound, put_found, put_read, put_step};
use ctypes::IntType;
use lower_ops::changes::{put_call, put_load};
use lower_ops::instructions::convert_to;
use lower_ops::memory::put_handed;
use lower_ops::modes::{Mode, mode_of, target_of};
use lower_ops::operations::{put_constant, put_end, put_follow};
use lower_ops::scopes::Scope;
use lower_ops::spots::{found, free_slot_at};
use lower_ops::waiting::free_slot;
use lower_ops::writing::{Code, put};
use std::alloc::AllocError;
use tac_code::{Instruction, Operand, Target};
use typed_ast::{Argument, Callee, Place, Value};

/// A value into the operand that it is in where nothing is evaluated after it.
#[cycle(value_code)]
pub fn put_rested(
    scope: &Scope<'_>,
    code: &mut Code,
    e: &Value,
    free: Free,
) -> Result<Operand, AllocError>
    requires temporary { free.temporary ≤ length code.old.list.items }
    requires slot { free.slot ≤ length code.old.list.items }
    ensures { IfOk result (λ o. (o ≡ lowered.operand_of (value_of e.now) free.temporary free.slot)
        × Wrote (λ w p q. relation.Into w (rows.sizes_in scope.now) (value_of e.now) (lowered.mode_of (lowered.operand_of (value_of e.now) free.temporary free.slot)) free.temporary free.slot p q) (size.value_size (value_of e.now) (size.rest_shape (value_of e.now))) code.old.list.items code.new.list.items) }
{
    let operand = operand_of(e, free.temporary, free.slot);
    put_value(scope, code, e, mode_of(operand), free)?;
    Ok(operand)
}

/// A value into a target, converted if need be.
#[cycle(value_code)]
pub fn put_converted(
    scope: &Scope<'_>,
    code: &mut Code,
    ty: IntType,
    e: &Value,
    target: Target,
    free: Free,
) -> Result<(), AllocError>
    requires temporary { free.temporary ≤ length code.old.list.items }
    requires slot { free.slot ≤ length code.old.list.items }
    requires aim { IsNear (lowered.To target) }
    ensures { OnOk result (Wrote (λ w p q. relation.Converts w (lowered.keeps ty (value_of e.now)) (λ n a b. relation.Into w (rows.sizes_in scope.now) (value_of e.now) n free.temporary free.slot a b) ty (lowered.operand_of (value_of e.now) free.temporary free.slot) target p q)
        (form.converts_size (lowered.keeps ty (value_of e.now)) (size.value_size (value_of e.now)) (size.rest_shape (value_of e.now)) (shape_of (lowered.To target))) code.old.list.items code.new.list.items) }
{
    if keeps(ty, e) {
        put_value(scope, code, e, Mode::To(target), free)?;
        Ok(())
    } else {
        let operand = put_rested(scope, code, e, free)?;
        put(code, convert_to(ty, target, operand))?;
        Ok(())
    }
}

#[cycle(value_code)]
fn put_cast(
    scope: &Scope<'_>,
    code: &mut Code,
    ty: IntType,
    e: &Value,
    mode: Mode,
    free: Free,
) -> Result<(), AllocError>
    requires temporary { free.temporary ≤ length code.old.list.items }
    requires slot { free.slot ≤ length code.old.list.items }
    requires aim { IsNear (meant mode) }
    ensures { OnOk result (Wrote (λ w p q. relation.Casts w (lowered.keeps ty (value_of e.now)) (λ n a b. relation.Into w (rows.sizes_in scope.now) (value_of e.now) n free.temporary free.slot a b) ty (lowered.operand_of (value_of e.now) free.temporary free.slot) (meant mode) free.temporary p q)
        (form.casts_size (lowered.keeps ty (value_of e.now)) (size.value_size (value_of e.now)) (size.rest_shape (value_of e.now)) (shape_of (meant mode))) code.old.list.items code.new.list.items) }
{
    if keeps(ty, e) {
        put_value(scope, code, e, mode, free)?;
        Ok(())
    } else {
        let operand = put_rested(scope, code, e, free)?;
        put(
            code,
            convert_to(ty, target_of(mode, free.temporary), operand),
        )?;
        put_follow(code, mode, free.temporary)?;
        Ok(())
    }
}

#[cycle(value_code)]
fn put_sequence(
    scope: &Scope<'_>,
    code: &mut Code,
    a: &Value,
    b: &Value,
    mode: Mode,
    free: Free,
) -> Result<(), AllocError>
    requires temporary { free.temporary ≤ length code.old.list.items }
    requires slot { free.slot ≤ length code.old.list.items }
    requires aim { IsNear (meant mode) }
    ensures { OnOk result (WroteValue (rows.sizes_in scope.now) (typed.sequence (value_of a.now) (value_of b.now)) (meant mode) free.temporary free.slot code.old.list.items code.new.list.items) }
{
    put(code, Instruction::Nothing)?;
    put_value(scope, code, a, Mode::Nowhere, free)?;
    put_value(scope, code, b, mode, free)?;
    Ok(())
}

#[cycle(value_code)]
fn put_discarded(
    scope: &Scope<'_>,
    code: &mut Code,
    e: &Value,
    mode: Mode,
    free: Free,
) -> Result<(), AllocError>
    requires temporary { free.temporary ≤ length code.old.list.items }
    requires slot { free.slot ≤ length code.old.list.items }
    ensures { OnOk result (WroteValue (rows.sizes_in scope.now) (typed.discarded (value_of e.now)) (meant mode) free.temporary free.slot code.old.list.items code.new.list.items) }
{
    put(code, Instruction::Nothing)?;
    put_value(scope, code, e, Mode::Nowhere, free)?;
    put_end(code, mode, Operand::Constant(0))?;
    Ok(())
}

#[cycle(value_code)]
fn put_cast_node(
    scope: &Scope<'_>,
    code: &mut Code,
    ty: IntType,
    e: &Value,
    mode: Mode,
    free: Free,
) -> Result<(), AllocError>
    requires temporary { free.temporary ≤ length code.old.list.items }
    requires slot { free.slot ≤ length code.old.list.items }
    requires aim { IsNear (meant mode) }
    ensures { OnOk result (WroteValue (rows.sizes_in scope.now) (typed.cast ty (value_of e.now)) (meant mode) free.temporary free.slot code.old.list.items code.new.list.items) }
{
    put(code, Instruction::Nothing)?;
    put_cast(scope, code, ty, e, mode, free)?;
    Ok(())
}

/// The value of an argument, where it waits for the arguments after it, and the temporaries and slots free next to it.
#[cycle(value_code)]
#[inline(never)]
fn put_waiting_number(
    scope: &Scope<'_>,
    code: &mut Code,
    e: &Value,
    more: &[Argument],
    ends: Ends,
    free: Free,
) -> Result<Free, AllocError>
    requires ends { AreEnds ends more.now }
    requires temporary { free.temporary ≤ length code.old.list.items }
    requires slot { free.slot ≤ length code.old.list.items }
    ensures { IfOk result (λ less. (less.temporary ≡ free.temporary + 1)
        × (less.slot ≡ lowered.free_kept (lowered.waits_in (value_of e.now) (lowered.arguments_write (arguments_of (map argument_of more.now))) (lowered.arguments_call (arguments_of (map argument_of more.now))) free.temporary free.slot) free.slot)
        × WroteValue (rows.sizes_in scope.now) (value_of e.now) (lowered.mode_of (lowered.waits_in (value_of e.now) (lowered.arguments_write (arguments_of (map argument_of more.now))) (lowered.arguments_call (arguments_of (map argument_of more.now))) free.temporary free.slot)) free.temporary free.slot code.old.list.items code.new.list.items) }
{
    let operand = waits_for_arguments(e, more, ends, free.temporary, free.slot);
    put_value(scope, code, e, mode_of(operand), free)?;
    let temporary = free.temporary + 1;
    let slot = free_slot(operand, free.slot);
    Ok(Free { temporary, slot })
}

/// Its move into its temporary.
#[inline(never)]
fn put_number_load(
    code: &mut Code,
    ty: IntType,
    e: &Value,
    more: &[Argument],
    ends: Ends,
    free: Free,
) -> Result<(), AllocError>
    requires { AreEnds ends more.now }
    ensures { OnOk result (Wrote (λ w p q. relation.Loads w (lowered.keeps ty (value_of e.now)) ty (lowered.waits_in (value_of e.now) (lowered.arguments_write (arguments_of (map argument_of more.now))) (lowered.arguments_call (arguments_of (map argument_of more.now))) free.temporary free.slot) free.temporary p q)
        (form.loads_size (lowered.keeps ty (value_of e.now)) (lowered.waits_in (value_of e.now) (lowered.arguments_write (arguments_of (map argument_of more.now))) (lowered.arguments_call (arguments_of (map argument_of more.now))) free.temporary free.slot)) code.old.list.items code.new.list.items) }
{
    let operand = waits_for_arguments(e, more, ends, free.temporary, free.slot);
    put_load(code, keeps(ty, e), ty, operand, free.temporary)?;
    Ok(())
}

/// The code that finds an array, where its reference waits for the arguments after it, and the temporaries and slots free next to it.
#[cycle(value_code)]
#[inline(never)]
fn put_waiting_array(
    scope: &Scope<'_>,
    code: &mut Code,
    array: &Place,
    more: &[Argument],
    ends: Ends,
    free: Free,
) -> Result<Free, AllocError>
    requires ends { AreEnds ends more.now }
    requires temporary { free.temporary ≤ length code.old.list.items }
    requires slot { free.slot ≤ length code.old.list.items }
    ensures { IfOk result (λ less. (less.temporary ≡ free.temporary + 1)
        × (less.slot ≡ placed.free_kept_at (placed.found (place_of array.now) (lowered.arguments_call (arguments_of (map argument_of more.now))) free.temporary free.slot) free.slot)
        × WroteFinds (rows.sizes_in scope.now) (place_of array.now) (lowered.arguments_call (arguments_of (map argument_of more.now))) free.temporary free.slot code.old.list.items code.new.list.items) }
{
    let calls = ends.call();
    let spot = found(array, calls, free.temporary, free.slot);
    put_found(scope, code, array, calls, free)?;
    let temporary = free.temporary + 1;
    let slot = free_slot_at(spot, free.slot);
    Ok(Free { temporary, slot })
}

/// Its reference into its temporary.
#[inline(never)]
fn put_array_reference(
    code: &mut Code,
    array: &Place,
    more: &[Argument],
    ends: Ends,
    free: Free,
) -> Result<(), AllocError>
    requires { AreEnds ends more.now }
    ensures { OnOk result (Wrote (λ w p q. relation.HandsOver w (placed.found (place_of array.now) (lowered.arguments_call (arguments_of (map argument_of more.now))) free.temporary free.slot) free.temporary p q)
        (form.hands_over_size (placed.found (place_of array.now) (lowered.arguments_call (arguments_of (map argument_of more.now))) free.temporary free.slot)) code.old.list.items code.new.list.items) }
{
    let spot = found(array, ends.call(), free.temporary, free.slot);
    put_handed(code, spot, free.temporary)?;
    Ok(())
}

/// An argument, where it waits for those after it, and the temporaries and slots free next to it.
#[cycle(value_code)]
fn put_waiting(
    scope: &Scope<'_>,
    code: &mut Code,
    argument: &Argument,
    more: &[Argument],
    ends: Ends,
    free: Free,
) -> Result<Free, AllocError>
    requires ends { AreEnds ends more.now }
    requires temporary { free.temporary ≤ length code.old.list.items }
    requires slot { free.slot ≤ length code.old.list.items }
    ensures { IfOk result (λ less. Waits (rows.sizes_in scope.now) (argument_of argument.now) (arguments_of (map argument_of more.now)) free less code.old.list.items code.new.list.items) }
{
    match argument {
        Argument::Number(_, e) => {
            let less = put_waiting_number(scope, code, e, more, ends, free)?;
            Ok(less)
        }
        Argument::Array(array) => {
            let less = put_waiting_array(scope, code, array, more, ends, free)?;
            Ok(less)
        }
    }
}

/// It goes from where it waits into its temporary.
fn put_fetched(
    code: &mut Code,
    argument: &Argument,
    more: &[Argument],
    ends: Ends,
    free: Free,
) -> Result<(), AllocError>
    requires { AreEnds ends more.now }
    ensures { OnOk result (Fetches (argument_of argument.now) (arguments_of (map argument_of more.now)) free code.old.list.items code.new.list.items) }
{
    match argument {
        Argument::Number(ty, e) => {
            put_number_load(code, *ty, e, more, ends, free)?;
            Ok(())
        }
        Argument::Array(array) => {
            put_array_reference(code, array, more, ends, free)?;
            Ok(())
        }
    }
}

/// The arguments, each where it waits, and the temporaries and slots that were free before each.
#[cycle(value_code)]
fn put_all_waiting(
    scope: &Scope<'_>,
    code: &mut Code,
    arguments: &[Argument],
    first: Free,
) -> Result<Vec<Free>, AllocError>
    requires temporary { first.temporary ≤ length code.old.list.items }
    requires slot { first.slot ≤ length code.old.list.items }
    ensures { IfOk result (λ frees. AllWait (rows.sizes_in scope.now) (map argument_of arguments.now) frees.items first code.old.list.items code.new.list.items) }
{
    let mut frees = Vec::new(*code.list.allocator());
    let mut free = first;
    let mut rest = arguments;
    let mut ends = Ends::of(arguments);
    while let Some((argument, more)) = rest.split_first() {
        frees.push(free)?;
        ends = ends.behind(1);
        free = put_waiting(scope, code, argument, more, ends, free)?;
        rest = more;
    }
    Ok(frees)
}

/// The arguments, the last one first, each into its temporary.
fn put_all_fetched(
    code: &mut Code,
    arguments: &[Argument],
    frees: Vec<Free>,
) -> Result<(), AllocError>
    ensures { OnOk result (AllFetched (map argument_of arguments.now) frees.items code.old.list.items code.new.list.items) }
{
    let all = Ends::of(arguments);
    let mut left = frees;
    while let Some(free) = left.pop() {
        if let Some((argument, more)) = behind(arguments, left.len()).split_first() {
            let ends = all.behind(left.len()).behind(1);
            put_fetched(code, argument, more, ends, free)?;
        }
    }
    Ok(())
}

/// The arguments after the first `count`.
fn behind<'a>(arguments: &'a [Argument], count: usize) -> &'a [Argument]
    ensures { result.now ≡ drop count arguments.now }
{
    match arguments.get(count..) {
        None => &[],
        Some(rest) => rest,
    }
}

/// The arguments of a call: each is evaluated, then each goes into its temporary, the last one first. There may be as many as the
/// source is long, so that they wait in memory and not on the host's stack.
#[cycle(value_code)]
fn put_passes(
    scope: &Scope<'_>,
    code: &mut Code,
    arguments: &[Argument],
    free: Free,
) -> Result<(), AllocError>
    requires temporary { free.temporary ≤ length code.old.list.items }
    requires slot { free.slot ≤ length code.old.list.items }
    ensures { OnOk result (WrotePasses (rows.sizes_in scope.now) (arguments_of (map argument_of arguments.now)) free.temporary free.slot code.old.list.items code.new.list.items) }
{
    let frees = put_all_waiting(scope, code, arguments, free)?;
    put_all_fetched(code, arguments, frees)?;
    Ok(())
}

#[cycle(value_code)]
fn put_call_node(
    scope: &Scope<'_>,
    code: &mut Code,
    callee: Callee,
    arguments: &[Argument],
    mode: Mode,
    free: Free,
) -> Result<(), AllocError>
    requires temporary { free.temporary ≤ length code.old.list.items }
    requires slot { free.slot ≤ length code.old.list.items }
    ensures { OnOk result ((at : Pos) → (u : Option IntType) → (used : Bool) → WroteValue (rows.sizes_in scope.now) (typed.call at (callee_of callee) u used (arguments_of (map argument_of arguments.now))) (meant mode) free.temporary free.slot code.old.list.items code.new.list.items) }
{
    let first = Free {
        temporary: 0,
        slot: free.slot,
    };
    put(code, Instruction::Nothing)?;
    put_passes(scope, code, arguments, first)?;
    put_call(code, callee, mode)?;
    Ok(())
}

/// The code of an expression. The recursion is as deep as the tree.
#[cycle(value_code)]
pub fn put_value(
    scope: &Scope<'_>,
    code: &mut Code,
    e: &Value,
    mode: Mode,
    free: Free,
) -> Result<(), AllocError>
    requires temporary { free.temporary ≤ length code.old.list.items }
    requires slot { free.slot ≤ length code.old.list.items }
    requires aim { IsNear (meant mode) }
    ensures { OnOk result (WroteValue (rows.sizes_in scope.now) (value_of e.now) (meant mode) free.temporary free.slot code.old.list.items code.new.list.items) }
{
    match e {
        Value::Constant(_, value) => {
            put_constant(code, mode, *value)?;
            Ok(())
        }
        Value::Read(ty, place) => {
            put_read(scope, code, *ty, place, mode, free)?;
            Ok(())
        }
        Value::Assigned(_, ty, place, e) => {
            put_assigned(scope, code, *ty, place, e, mode, free)?;
            Ok(())
        }
        Value::Compound(_, op, ty, of, place, e) => {
            put_compound(scope, code, *op, *ty, *of, place, e, mode, free)?;
            Ok(())
        }
        Value::Stepped(_, moment, op, ty, of, place) => {
            put_step(scope, code, *moment, *op, *ty, *of, place, mode, free)?;
            Ok(())
        }
        Value::Unary(_, op, ty, e) => {
            put_unary(scope, code, *op, *ty, e, mode, free)?;
            Ok(())
        }
        Value::Binary(_, op, ty, a, b) => {
            put_binary(scope, code, *op, *ty, a, b, mode, free)?;
            Ok(())
        }
        Value::BothTrue(a, b) => {
            put_both(scope, code, a, b, mode, free)?;
            Ok(())
        }
        Value::OneTrue(a, b) => {
            put_one(scope, code, a, b, mode, free)?;
            Ok(())
        }
        Value::Chosen(_, c, a, b) => {
            put_chosen(scope, code, c, a, b, mode, free)?;
            Ok(())
        }
        Value::Sequence(a, b) => {
            put_sequence(scope, code, a, b, mode, free)?;
            Ok(())
        }
        Value::Cast(ty, e) => {
            put_cast_node(scope, code, *ty, e, mode, free)?;
            Ok(())
        }
        Value::Discarded(e) => {
            put_discarded(scope, code, e, mode, free)?;
            Ok(())
        }
        Value::Call(_, callee, _, _, arguments) => {
            put_call_node(scope, code, *callee, arguments, mode, free)?;
            Ok(())
        }
    }
}
