//! Assignments and steps (6.5.2.4, 6.5.3.1, 6.5.16).
#![tactic(auto, using(crate::proofs::Verdicts::tells_left, crate::proofs::Verdicts::tells_right, crate::proofs::Verdicts::tells_then))]

ghost use Rattle.std.specs.Prelude.{◌≡◌, IfErr, IfOk, Some, None};
ghost use Rattle.typing_spec.specs.Verdict.{fine, then_check};
ghost use Rattle.typing_spec.specs.Operators as operators;
ghost use Rattle.typing_spec.specs.Expressions as typed;
ghost use Rattle.srcset.specs.declared.refusal.Refusal.TheVariants.{Memory};
ghost use Rattle.typed_ast.specs.View.{moment_of};
ghost use Rattle.typing_expressions.specs.Refused.{Tells};
ghost use Rattle.typing_expressions.specs.Forms.{checked_of, worth_of, target_of};

use crate::forms::{Checked, Worth, boxed, broken, left_out, valued};
use crate::rules::operands_type;
use ctypes::{BinOp, IntType, usual};
use srcset::{Code, Pos, Refusal};
use std::alloc::Global;
use tree::{AssignOp, StepOp};
use typed_ast::{Moment, Place, Value};

/// A place that may be assigned to: an element that is not `const` (6.3.2.1p1).
#[derive(Drop)]
pub(crate) struct Target {
    pub(crate) ty: IntType,
    pub(crate) place: Place,
}

/// A modifiable lvalue (6.5.2.4p1, 6.5.3.1p1, 6.5.16p2).
fn modifiable(pos: Pos, x: Checked) -> Result<Target, Refusal>
    ensures ok { IfOk result (λ t. typed.target pos (checked_of x.entry) ≡ fine (target_of t)) }
    ensures err { IfErr result (λ r. Tells r (typed.target pos (checked_of x.entry))) }
{
    match x {
        Checked::Object(_, ty, false, place) => Ok(Target { ty, place }),
        Checked::Object(_, _, true, _) => Err(broken(Code::NotModifiable, pos)),
        Checked::Value(_, _, _) => Err(broken(Code::NotModifiable, pos)),
        Checked::Nothing(_, _) => Err(broken(Code::NotModifiable, pos)),
        Checked::Array(pos, _, _, _) => Err(left_out(pos)),
        Checked::Unsized(pos, _, _) => Err(left_out(pos)),
        Checked::Reference(pos, _, _) => Err(left_out(pos)),
        Checked::Designator(pos) => Err(left_out(pos)),
    }
}

fn boxed_place(alloc: Global, place: Place) -> Result<Box<Place>, Refusal>
    ensures ok { IfOk result (λ b. b.value ≡ place) }
    ensures err { IfErr result (λ r. r ≡ Memory) }
{
    match Box::new(alloc, place) {
        Ok(place) => Ok(place),
        Err(_) => Err(Refusal::Memory),
    }
}

fn step<'s>(
    alloc: Global,
    pos: Pos,
    moment: Moment,
    op: StepOp,
    to: Target,
) -> Result<Checked<'s>, Refusal>
    ensures ok { IfOk result (λ c. typed.step pos (moment_of moment) op (target_of to) ≡ fine (checked_of c)) }
    ensures err { IfErr result (λ r. r ≡ Memory) }
{
    let of = usual(to.ty, IntType::Int);
    match boxed_place(alloc, to.place) {
        Ok(place) => {
            Ok(Checked::Value(
                pos,
                to.ty,
                Value::Stepped(pos, moment, op, to.ty, of, place),
            ))
        }
        Err(_) => Err(Refusal::Memory),
    }
}

/// `++` and `--`, after their operand or before it (6.5.2.4, 6.5.3.1).
#[inline(never)]
pub fn stepped<'s>(
    alloc: Global,
    pos: Pos,
    moment: Moment,
    op: StepOp,
    x: Checked,
) -> Result<Checked<'s>, Refusal>
    ensures ok { IfOk result (λ c. then_check (typed.target pos (checked_of x.entry)) (typed.step pos (moment_of moment) op) ≡ fine (checked_of c)) }
    ensures err { IfErr result (λ r. Tells r (then_check (typed.target pos (checked_of x.entry)) (typed.step pos (moment_of moment) op))) }
{
    let to = match modifiable(pos, x) {
        Ok(to) => to,
        Err(refusal) => return Err(refusal),
    };
    match step(alloc, pos, moment, op, to) {
        Ok(c) => Ok(c),
        Err(_) => Err(Refusal::Memory),
    }
}

fn simple<'s>(alloc: Global, pos: Pos, to: Target, x: Worth) -> Result<Checked<'s>, Refusal>
    ensures ok { IfOk result (λ c. typed.simple pos (target_of to) (worth_of x) ≡ fine (checked_of c)) }
    ensures err { IfErr result (λ r. r ≡ Memory) }
{
    let Ok(place) = boxed_place(alloc, to.place) else {
        return Err(Refusal::Memory);
    };
    let Ok(value) = boxed(alloc, x.value) else {
        return Err(Refusal::Memory);
    };
    Ok(Checked::Value(pos, to.ty, Value::Assigned(pos, to.ty, place, value)))
}

fn compound<'s>(
    alloc: Global,
    pos: Pos,
    op: BinOp,
    to: Target,
    x: Worth,
) -> Result<Checked<'s>, Refusal>
    ensures ok { IfOk result (λ c. typed.compound pos op (target_of to) (worth_of x) ≡ fine (checked_of c)) }
    ensures err { IfErr result (λ r. r ≡ Memory) }
{
    let of = operands_type(op, to.ty, x.ty);
    let Ok(place) = boxed_place(alloc, to.place) else {
        return Err(Refusal::Memory);
    };
    let Ok(value) = boxed(alloc, x.value) else {
        return Err(Refusal::Memory);
    };
    Ok(Checked::Value(
        pos,
        to.ty,
        Value::Compound(pos, op, to.ty, of, place, value),
    ))
}

/// `=` (6.5.16.1).
fn simple_assignment<'s>(
    alloc: Global,
    pos: Pos,
    a: Checked,
    b: Checked,
) -> Result<Checked<'s>, Refusal>
    ensures ok { IfOk result (λ c. typed.assignment pos None (checked_of a.entry) (checked_of b.entry) ≡ fine (checked_of c)) }
    ensures err { IfErr result (λ r. Tells r (typed.assignment pos None (checked_of a.entry) (checked_of b.entry))) }
{
    let to = match modifiable(pos, a) {
        Ok(to) => to,
        Err(refusal) => return Err(refusal),
    };
    let x = match valued(alloc, Code::VoidAssigned, pos, b) {
        Ok(x) => x,
        Err(refusal) => return Err(refusal),
    };
    match simple(alloc, pos, to, x) {
        Ok(c) => Ok(c),
        Err(_) => Err(Refusal::Memory),
    }
}

/// `+=` and its like (6.5.16.2).
fn compound_assignment<'s>(
    alloc: Global,
    pos: Pos,
    op: BinOp,
    a: Checked,
    b: Checked,
) -> Result<Checked<'s>, Refusal>
    ensures ok { IfOk result (λ c. typed.assignment pos (Some op) (checked_of a.entry) (checked_of b.entry) ≡ fine (checked_of c)) }
    ensures err { IfErr result (λ r. Tells r (typed.assignment pos (Some op) (checked_of a.entry) (checked_of b.entry))) }
{
    let to = match modifiable(pos, a) {
        Ok(to) => to,
        Err(refusal) => return Err(refusal),
    };
    let x = match valued(alloc, Code::VoidOperand, pos, b) {
        Ok(x) => x,
        Err(refusal) => return Err(refusal),
    };
    match compound(alloc, pos, op, to, x) {
        Ok(c) => Ok(c),
        Err(_) => Err(Refusal::Memory),
    }
}

/// The operation of a compound assignment (6.5.16.2p3).
fn assigning(op: AssignOp) -> Option<BinOp>
    ensures { result ≡ operators.assigning op }
{
    match op {
        AssignOp::Plain => None,
        AssignOp::Mul => Some(BinOp::Mul),
        AssignOp::Div => Some(BinOp::Div),
        AssignOp::Rem => Some(BinOp::Rem),
        AssignOp::Add => Some(BinOp::Add),
        AssignOp::Sub => Some(BinOp::Sub),
        AssignOp::ShiftLeft => Some(BinOp::Shl),
        AssignOp::ShiftRight => Some(BinOp::Shr),
        AssignOp::BitAnd => Some(BinOp::BitAnd),
        AssignOp::BitXor => Some(BinOp::BitXor),
        AssignOp::BitOr => Some(BinOp::BitOr),
    }
}

/// An assignment (6.5.16).
#[inline(never)]
pub fn assigned<'s>(
    alloc: Global,
    pos: Pos,
    op: AssignOp,
    a: Checked,
    b: Checked,
) -> Result<Checked<'s>, Refusal>
    ensures ok { IfOk result (λ c. typed.assignment pos (operators.assigning op) (checked_of a.entry) (checked_of b.entry) ≡ fine (checked_of c)) }
    ensures err { IfErr result (λ r. Tells r (typed.assignment pos (operators.assigning op) (checked_of a.entry) (checked_of b.entry))) }
{
    match assigning(op) {
        None => simple_assignment(alloc, pos, a, b),
        Some(op) => compound_assignment(alloc, pos, op, a, b),
    }
}
