//! The code of operators whose operands are expressions.

ghost use Rattle.std.specs.Prelude.{◌≡◌, ◌≤◌, length, ℕ, Option, OnOk};
ghost use Rattle.srcset.specs.declared.refusal.Pos.{Pos};
ghost use Rattle.ctypes.specs.declared.types.IntType.{IntType};
ghost use Rattle.ctypes.specs.declared.operators.BinOp.TheVariants as op;
ghost use Rattle.tree.specs.declared.expression.PrefixOp.TheVariants as prefix;
ghost use Rattle.typing_spec.specs.Program as typed;
ghost use Rattle.typed_ast.specs.View.{value_of};
ghost use Rattle.csem.specs.Machine.{choose};
ghost use Rattle.tac_code.specs.declared.code.Instruction.TheVariants as instruction;
ghost use Rattle.lower_correct.specs.Code as relation;
ghost use Rattle.lower_correct.specs.Values as lowered;
ghost use Rattle.lower_ops.specs.layer.Rows as rows;
ghost use Rattle.lower_ops.specs.layer.FormSizes as form;
ghost use Rattle.lower_ops.specs.layer.Parts.{IsNear, meant, shape_of, Wrote};
ghost use Rattle.lower_ops.specs.layer.Parts as parts;
ghost use Rattle.lower_exprs.specs.layer.Sizes as size;
ghost use Rattle.lower_exprs.specs.layer.Written as written;
ghost use Rattle.lower_exprs.specs.layer.Written.{WroteValue};

use crate::operands::waits_for;
use crate::places::{Free, beside};
use crate::sizes::value_size;
use crate::values::{put_rested, put_value};
use ctypes::{BinOp, IntType};
use lower_ops::changes::put_truths;
use lower_ops::form_sizes::plus;
use lower_ops::modes::{Mode, Shape, mode_of, shape_in};
use lower_ops::operations::{put_operated, put_then};
use lower_ops::scopes::Scope;
use lower_ops::words::reading_of;
use lower_ops::writing::{Code, ahead, put};
use std::alloc::AllocError;
use tac_code::{Instruction, Operand, Reading, Target};
use tree::PrefixOp;
use typed_ast::Value;

/// Of a sign: the operation on the value, with 0 or all bits.
#[cycle(value_code)]
fn put_minus(
    scope: &Scope<'_>,
    code: &mut Code,
    ty: IntType,
    e: &Value,
    mode: Mode,
    free: Free,
) -> Result<(), AllocError>
    requires temporary { free.temporary ≤ length code.old.list.items }
    requires slot { free.slot ≤ length code.old.list.items }
    ensures { OnOk result ((at : Pos) → WroteValue (rows.sizes_in scope.now) (typed.unary at prefix.Minus ty (value_of e.now)) (meant mode) free.temporary free.slot code.old.list.items code.new.list.items) }
{
    put(code, Instruction::Nothing)?;
    let operand = put_rested(scope, code, e, free)?;
    let reading = reading_of(ty);
    let zero = Operand::Constant(0);
    put_then(
        code,
        BinOp::Sub,
        reading,
        mode,
        zero,
        operand,
        free.temporary,
    )?;
    Ok(())
}

#[cycle(value_code)]
fn put_complement(
    scope: &Scope<'_>,
    code: &mut Code,
    ty: IntType,
    e: &Value,
    mode: Mode,
    free: Free,
) -> Result<(), AllocError>
    requires temporary { free.temporary ≤ length code.old.list.items }
    requires slot { free.slot ≤ length code.old.list.items }
    ensures { OnOk result ((at : Pos) → WroteValue (rows.sizes_in scope.now) (typed.unary at prefix.Complement ty (value_of e.now)) (meant mode) free.temporary free.slot code.old.list.items code.new.list.items) }
{
    put(code, Instruction::Nothing)?;
    let operand = put_rested(scope, code, e, free)?;
    let reading = reading_of(ty);
    let all = Operand::Constant(0xffff_ffff);
    put_then(
        code,
        BinOp::BitXor,
        reading,
        mode,
        operand,
        all,
        free.temporary,
    )?;
    Ok(())
}

#[cycle(value_code)]
fn put_is_zero(
    scope: &Scope<'_>,
    code: &mut Code,
    e: &Value,
    mode: Mode,
    free: Free,
) -> Result<(), AllocError>
    requires temporary { free.temporary ≤ length code.old.list.items }
    requires slot { free.slot ≤ length code.old.list.items }
    ensures { OnOk result (Wrote (λ w p q. (p1 p2 : ℕ) × relation.One w instruction.Nothing p p1 × relation.Into w (rows.sizes_in scope.now) (value_of e.now) (lowered.mode_of (lowered.operand_of (value_of e.now) free.temporary free.slot)) free.temporary free.slot p1 p2
        × relation.IsZero w (meant mode) (lowered.operand_of (value_of e.now) free.temporary free.slot) free.temporary p2 q)
        (parts.plus 1 (parts.plus (size.value_size (value_of e.now) (size.rest_shape (value_of e.now))) (form.then_size op.Equal (shape_of (meant mode))))) code.old.list.items code.new.list.items) }
{
    put(code, Instruction::Nothing)?;
    let operand = put_rested(scope, code, e, free)?;
    let zero = Operand::Constant(0);
    put_then(
        code,
        BinOp::Equal,
        Reading::Signed,
        mode,
        operand,
        zero,
        free.temporary,
    )?;
    Ok(())
}

#[cycle(value_code)]
fn put_not(
    scope: &Scope<'_>,
    code: &mut Code,
    e: &Value,
    mode: Mode,
    free: Free,
) -> Result<(), AllocError>
    requires temporary { free.temporary ≤ length code.old.list.items }
    requires slot { free.slot ≤ length code.old.list.items }
    ensures { OnOk result ((at : Pos) → (u : IntType) → WroteValue (rows.sizes_in scope.now) (typed.unary at prefix.Not u (value_of e.now)) (meant mode) free.temporary free.slot code.old.list.items code.new.list.items) }
{
    match mode {
        Mode::Nowhere => {
            put_is_zero(scope, code, e, mode, free)?;
            Ok(())
        }
        Mode::To(_) => {
            put_is_zero(scope, code, e, mode, free)?;
            Ok(())
        }
        Mode::If(sense, to) => {
            put(code, Instruction::Nothing)?;
            put_value(scope, code, e, Mode::If(!sense, to), free)?;
            Ok(())
        }
    }
}

#[cycle(value_code)]
fn put_plus(
    scope: &Scope<'_>,
    code: &mut Code,
    e: &Value,
    mode: Mode,
    free: Free,
) -> Result<(), AllocError>
    requires temporary { free.temporary ≤ length code.old.list.items }
    requires slot { free.slot ≤ length code.old.list.items }
    requires aim { IsNear (meant mode) }
    ensures { OnOk result ((at : Pos) → (u : IntType) → WroteValue (rows.sizes_in scope.now) (typed.unary at prefix.Plus u (value_of e.now)) (meant mode) free.temporary free.slot code.old.list.items code.new.list.items) }
{
    put(code, Instruction::Nothing)?;
    put_value(scope, code, e, mode, free)?;
    Ok(())
}

#[cycle(value_code)]
pub(crate) fn put_unary(
    scope: &Scope<'_>,
    code: &mut Code,
    op: PrefixOp,
    ty: IntType,
    e: &Value,
    mode: Mode,
    free: Free,
) -> Result<(), AllocError>
    requires temporary { free.temporary ≤ length code.old.list.items }
    requires slot { free.slot ≤ length code.old.list.items }
    requires aim { IsNear (meant mode) }
    ensures { OnOk result ((at : Pos) → WroteValue (rows.sizes_in scope.now) (typed.unary at op ty (value_of e.now)) (meant mode) free.temporary free.slot code.old.list.items code.new.list.items) }
{
    match op {
        PrefixOp::Plus => {
            put_plus(scope, code, e, mode, free)?;
            Ok(())
        }
        PrefixOp::Minus => {
            put_minus(scope, code, ty, e, mode, free)?;
            Ok(())
        }
        PrefixOp::Complement => {
            put_complement(scope, code, ty, e, mode, free)?;
            Ok(())
        }
        PrefixOp::Not => {
            put_not(scope, code, e, mode, free)?;
            Ok(())
        }
    }
}

#[cycle(value_code)]
pub(crate) fn put_binary(
    scope: &Scope<'_>,
    code: &mut Code,
    op: BinOp,
    ty: IntType,
    a: &Value,
    b: &Value,
    mode: Mode,
    free: Free,
) -> Result<(), AllocError>
    requires temporary { free.temporary ≤ length code.old.list.items }
    requires slot { free.slot ≤ length code.old.list.items }
    ensures { OnOk result ((at : Pos) → WroteValue (rows.sizes_in scope.now) (typed.binary at op ty (value_of a.now) (value_of b.now)) (meant mode) free.temporary free.slot code.old.list.items code.new.list.items) }
{
    let left = waits_for(a, b, free.temporary, free.slot);
    put(code, Instruction::Nothing)?;
    put_value(scope, code, a, mode_of(left), free)?;
    let less = beside(left, free);
    let right = put_rested(scope, code, b, less)?;
    let reading = reading_of(ty);
    put_operated(code, op, reading, mode, left, right, free.temporary)?;
    Ok(())
}

fn pick(sense: bool, one: usize, other: usize) -> usize
    ensures { result ≡ choose sense one other }
{
    if sense { one } else { other }
}

/// `&&` that decides a jump.
#[cycle(value_code)]
fn put_both_jump(
    scope: &Scope<'_>,
    code: &mut Code,
    a: &Value,
    b: &Value,
    sense: bool,
    to: usize,
    free: Free,
) -> Result<(), AllocError>
    requires temporary { free.temporary ≤ length code.old.list.items }
    requires slot { free.slot ≤ length code.old.list.items }
    ensures { OnOk result (WroteValue (rows.sizes_in scope.now) (typed.both_true (value_of a.now) (value_of b.now)) (lowered.If sense to) free.temporary free.slot code.old.list.items code.new.list.items) }
{
    let left = value_size(a, Shape::Jump);
    let right = value_size(b, Shape::Jump);
    let end = ahead(code, plus(1, plus(left, right)));
    put(code, Instruction::Nothing)?;
    put_value(scope, code, a, Mode::If(false, pick(sense, end, to)), free)?;
    put_value(scope, code, b, Mode::If(sense, to), free)?;
    Ok(())
}

#[cycle(value_code)]
fn put_one_jump(
    scope: &Scope<'_>,
    code: &mut Code,
    a: &Value,
    b: &Value,
    sense: bool,
    to: usize,
    free: Free,
) -> Result<(), AllocError>
    requires temporary { free.temporary ≤ length code.old.list.items }
    requires slot { free.slot ≤ length code.old.list.items }
    ensures { OnOk result (WroteValue (rows.sizes_in scope.now) (typed.one_true (value_of a.now) (value_of b.now)) (lowered.If sense to) free.temporary free.slot code.old.list.items code.new.list.items) }
{
    let left = value_size(a, Shape::Jump);
    let right = value_size(b, Shape::Jump);
    let end = ahead(code, plus(1, plus(left, right)));
    put(code, Instruction::Nothing)?;
    put_value(scope, code, a, Mode::If(true, pick(sense, to, end)), free)?;
    put_value(scope, code, b, Mode::If(sense, to), free)?;
    Ok(())
}

/// `&&` whose value is needed as a number, or unused.
#[cycle(value_code)]
fn put_both_number(
    scope: &Scope<'_>,
    code: &mut Code,
    a: &Value,
    b: &Value,
    target: Target,
    free: Free,
) -> Result<(), AllocError>
    requires temporary { free.temporary ≤ length code.old.list.items }
    requires slot { free.slot ≤ length code.old.list.items }
    ensures { OnOk result (Wrote (λ w p q. written.BothNumber w (rows.sizes_in scope.now) (value_of a.now) (value_of b.now) target free.temporary free.slot p q) (written.truth_size (value_of a.now) (value_of b.now)) code.old.list.items code.new.list.items) }
{
    let left = value_size(a, Shape::Jump);
    let right = value_size(b, Shape::Jump);
    let other = ahead(code, plus(1, plus(left, plus(right, 2))));
    put(code, Instruction::Nothing)?;
    put_value(scope, code, a, Mode::If(false, other), free)?;
    put_value(scope, code, b, Mode::If(false, other), free)?;
    put_truths(code, target)?;
    Ok(())
}

#[cycle(value_code)]
fn put_one_number(
    scope: &Scope<'_>,
    code: &mut Code,
    a: &Value,
    b: &Value,
    target: Target,
    free: Free,
) -> Result<(), AllocError>
    requires temporary { free.temporary ≤ length code.old.list.items }
    requires slot { free.slot ≤ length code.old.list.items }
    ensures { OnOk result (Wrote (λ w p q. written.OneNumber w (rows.sizes_in scope.now) (value_of a.now) (value_of b.now) target free.temporary free.slot p q) (written.truth_size (value_of a.now) (value_of b.now)) code.old.list.items code.new.list.items) }
{
    let left = value_size(a, Shape::Jump);
    let right = value_size(b, Shape::Jump);
    let here = ahead(code, plus(1, plus(left, right)));
    let other = ahead(code, plus(1, plus(left, plus(right, 2))));
    put(code, Instruction::Nothing)?;
    put_value(scope, code, a, Mode::If(true, here), free)?;
    put_value(scope, code, b, Mode::If(false, other), free)?;
    put_truths(code, target)?;
    Ok(())
}

#[cycle(value_code)]
pub(crate) fn put_both(
    scope: &Scope<'_>,
    code: &mut Code,
    a: &Value,
    b: &Value,
    mode: Mode,
    free: Free,
) -> Result<(), AllocError>
    requires temporary { free.temporary ≤ length code.old.list.items }
    requires slot { free.slot ≤ length code.old.list.items }
    ensures { OnOk result (WroteValue (rows.sizes_in scope.now) (typed.both_true (value_of a.now) (value_of b.now)) (meant mode) free.temporary free.slot code.old.list.items code.new.list.items) }
{
    match mode {
        Mode::Nowhere => {
            put_both_number(scope, code, a, b, Target::Temporary(free.temporary), free)?;
            Ok(())
        }
        Mode::To(target) => {
            put_both_number(scope, code, a, b, target, free)?;
            Ok(())
        }
        Mode::If(sense, to) => {
            put_both_jump(scope, code, a, b, sense, to, free)?;
            Ok(())
        }
    }
}

#[cycle(value_code)]
pub(crate) fn put_one(
    scope: &Scope<'_>,
    code: &mut Code,
    a: &Value,
    b: &Value,
    mode: Mode,
    free: Free,
) -> Result<(), AllocError>
    requires temporary { free.temporary ≤ length code.old.list.items }
    requires slot { free.slot ≤ length code.old.list.items }
    ensures { OnOk result (WroteValue (rows.sizes_in scope.now) (typed.one_true (value_of a.now) (value_of b.now)) (meant mode) free.temporary free.slot code.old.list.items code.new.list.items) }
{
    match mode {
        Mode::Nowhere => {
            put_one_number(scope, code, a, b, Target::Temporary(free.temporary), free)?;
            Ok(())
        }
        Mode::To(target) => {
            put_one_number(scope, code, a, b, target, free)?;
            Ok(())
        }
        Mode::If(sense, to) => {
            put_one_jump(scope, code, a, b, sense, to, free)?;
            Ok(())
        }
    }
}

#[cycle(value_code)]
pub(crate) fn put_chosen(
    scope: &Scope<'_>,
    code: &mut Code,
    c: &Value,
    a: &Value,
    b: &Value,
    mode: Mode,
    free: Free,
) -> Result<(), AllocError>
    requires temporary { free.temporary ≤ length code.old.list.items }
    requires slot { free.slot ≤ length code.old.list.items }
    requires aim { IsNear (meant mode) }
    ensures { OnOk result ((u : Option IntType) → WroteValue (rows.sizes_in scope.now) (typed.chosen u (value_of c.now) (value_of a.now) (value_of b.now)) (meant mode) free.temporary free.slot code.old.list.items code.new.list.items) }
{
    let test = value_size(c, Shape::Jump);
    let first = value_size(a, shape_in(mode));
    let second = value_size(b, shape_in(mode));
    let other = ahead(code, plus(1, plus(test, plus(first, 1))));
    let end = ahead(code, plus(1, plus(test, plus(first, plus(1, second)))));
    put(code, Instruction::Nothing)?;
    put_value(scope, code, c, Mode::If(false, other), free)?;
    put_value(scope, code, a, mode, free)?;
    put(code, Instruction::Jump(end))?;
    put_value(scope, code, b, mode, free)?;
    Ok(())
}
