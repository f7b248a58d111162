//! Operations on expressions that are typed: binary operators, `?:` and casts (6.5.4 to 6.5.15).
#![tactic(auto, using(crate::proofs::Verdicts::tells_left, crate::proofs::Verdicts::tells_right))]

ghost use Rattle.std.specs.Prelude.{◌≡◌, IfErr, IfOk, None};
ghost use Rattle.typing_spec.specs.Verdict.{fine, both};
ghost use Rattle.typing_spec.specs.Expressions as typed;
ghost use Rattle.typing_spec.specs.Program as program_typed;
ghost use Rattle.srcset.specs.declared.refusal.Pos.{Pos};
ghost use Rattle.srcset.specs.declared.refusal.Refusal.TheVariants.{Memory};
ghost use Rattle.srcset.specs.declared.code.Code.TheVariants as code;
ghost use Rattle.typed_ast.specs.View.{value_of};
ghost use Rattle.typing_expressions.specs.Refused.{Tells};
ghost use Rattle.typing_expressions.specs.Forms.{checked_of, worth_of};

use crate::forms::{Checked, Worth, boxed, broken, effect, valued};
use crate::rules::{common_type, computed_by, conjunction, disjunction, last};
use ctypes::BinOp;
use srcset::{Code, Pos, Refusal};
use std::alloc::Global;
use tree::BinaryOp;
use typed_ast::Value;

/// An arithmetic operator, a shift, a comparison or one on bits (6.5.5 to 6.5.12).
pub(crate) fn arithmetic<'s>(
    alloc: Global,
    pos: Pos,
    op: BinOp,
    a: Checked,
    b: Checked,
) -> Result<Checked<'s>, Refusal>
    ensures ok { IfOk result (λ c. typed.arithmetic pos op (checked_of a.entry) (checked_of b.entry) ≡ fine (checked_of c)) }
    ensures err { IfErr result (λ r. Tells r (typed.arithmetic pos op (checked_of a.entry) (checked_of b.entry))) }
{
    let a = match valued(alloc, Code::VoidOperand, pos, a) {
        Ok(a) => a,
        Err(refusal) => return Err(refusal),
    };
    let b = match valued(alloc, Code::VoidOperand, pos, b) {
        Ok(b) => b,
        Err(refusal) => return Err(refusal),
    };
    match computed_by(alloc, pos, op, a, b) {
        Ok(c) => Ok(c),
        Err(_) => Err(Refusal::Memory),
    }
}

/// `&&` (6.5.13).
fn both_true<'s>(alloc: Global, pos: Pos, a: Checked, b: Checked) -> Result<Checked<'s>, Refusal>
    ensures ok { IfOk result (λ c. both (typed.worth code.VoidOperand pos (checked_of a.entry)) (typed.worth code.VoidOperand pos (checked_of b.entry)) (typed.conjunction pos) ≡ fine (checked_of c)) }
    ensures err { IfErr result (λ r. Tells r (both (typed.worth code.VoidOperand pos (checked_of a.entry)) (typed.worth code.VoidOperand pos (checked_of b.entry)) (typed.conjunction pos))) }
{
    let a = match valued(alloc, Code::VoidOperand, pos, a) {
        Ok(a) => a,
        Err(refusal) => return Err(refusal),
    };
    let b = match valued(alloc, Code::VoidOperand, pos, b) {
        Ok(b) => b,
        Err(refusal) => return Err(refusal),
    };
    match conjunction(alloc, pos, a, b) {
        Ok(c) => Ok(c),
        Err(_) => Err(Refusal::Memory),
    }
}

/// `||` (6.5.14).
fn one_true<'s>(alloc: Global, pos: Pos, a: Checked, b: Checked) -> Result<Checked<'s>, Refusal>
    ensures ok { IfOk result (λ c. both (typed.worth code.VoidOperand pos (checked_of a.entry)) (typed.worth code.VoidOperand pos (checked_of b.entry)) (typed.disjunction pos) ≡ fine (checked_of c)) }
    ensures err { IfErr result (λ r. Tells r (both (typed.worth code.VoidOperand pos (checked_of a.entry)) (typed.worth code.VoidOperand pos (checked_of b.entry)) (typed.disjunction pos))) }
{
    let a = match valued(alloc, Code::VoidOperand, pos, a) {
        Ok(a) => a,
        Err(refusal) => return Err(refusal),
    };
    let b = match valued(alloc, Code::VoidOperand, pos, b) {
        Ok(b) => b,
        Err(refusal) => return Err(refusal),
    };
    match disjunction(alloc, pos, a, b) {
        Ok(c) => Ok(c),
        Err(_) => Err(Refusal::Memory),
    }
}

/// The comma operator (6.5.17).
fn sequence<'s>(alloc: Global, pos: Pos, a: Checked, b: Checked) -> Result<Checked<'s>, Refusal>
    ensures ok { IfOk result (λ c. typed.sequence pos (checked_of a.entry) (checked_of b.entry) ≡ fine (checked_of c)) }
    ensures err { IfErr result (λ r. Tells r (typed.sequence pos (checked_of a.entry) (checked_of b.entry))) }
{
    let a = match effect(alloc, a) {
        Ok(a) => a,
        Err(refusal) => return Err(refusal),
    };
    last(alloc, pos, a, b)
}

/// A binary operator (6.5.5 to 6.5.14, 6.5.17).
#[inline(never)]
pub fn operated<'s>(
    alloc: Global,
    pos: Pos,
    op: BinaryOp,
    a: Checked,
    b: Checked,
) -> Result<Checked<'s>, Refusal>
    ensures ok { IfOk result (λ c. typed.operated pos op (checked_of a.entry) (checked_of b.entry) ≡ fine (checked_of c)) }
    ensures err { IfErr result (λ r. Tells r (typed.operated pos op (checked_of a.entry) (checked_of b.entry))) }
{
    match op {
        BinaryOp::Mul => arithmetic(alloc, pos, BinOp::Mul, a, b),
        BinaryOp::Div => arithmetic(alloc, pos, BinOp::Div, a, b),
        BinaryOp::Rem => arithmetic(alloc, pos, BinOp::Rem, a, b),
        BinaryOp::Add => arithmetic(alloc, pos, BinOp::Add, a, b),
        BinaryOp::Sub => arithmetic(alloc, pos, BinOp::Sub, a, b),
        BinaryOp::ShiftLeft => arithmetic(alloc, pos, BinOp::Shl, a, b),
        BinaryOp::ShiftRight => arithmetic(alloc, pos, BinOp::Shr, a, b),
        BinaryOp::Less => arithmetic(alloc, pos, BinOp::Less, a, b),
        BinaryOp::Greater => arithmetic(alloc, pos, BinOp::Greater, a, b),
        BinaryOp::LessEqual => arithmetic(alloc, pos, BinOp::LessEqual, a, b),
        BinaryOp::GreaterEqual => arithmetic(alloc, pos, BinOp::GreaterEqual, a, b),
        BinaryOp::Equal => arithmetic(alloc, pos, BinOp::Equal, a, b),
        BinaryOp::NotEqual => arithmetic(alloc, pos, BinOp::NotEqual, a, b),
        BinaryOp::BitAnd => arithmetic(alloc, pos, BinOp::BitAnd, a, b),
        BinaryOp::BitXor => arithmetic(alloc, pos, BinOp::BitXor, a, b),
        BinaryOp::BitOr => arithmetic(alloc, pos, BinOp::BitOr, a, b),
        BinaryOp::And => both_true(alloc, pos, a, b),
        BinaryOp::Or => one_true(alloc, pos, a, b),
        BinaryOp::Comma => sequence(alloc, pos, a, b),
    }
}

/// Of two arms both are numbers.
fn number_choice<'s>(
    alloc: Global,
    pos: Pos,
    test: Value,
    a: Checked,
    b: Checked,
) -> Result<Checked<'s>, Refusal>
    ensures ok { IfOk result (λ c. both (typed.worth code.UnmatchedArms pos (checked_of a.entry)) (typed.worth code.UnmatchedArms pos (checked_of b.entry)) (typed.common_type pos (value_of test)) ≡ fine (checked_of c)) }
    ensures err { IfErr result (λ r. Tells r (both (typed.worth code.UnmatchedArms pos (checked_of a.entry)) (typed.worth code.UnmatchedArms pos (checked_of b.entry)) (typed.common_type pos (value_of test)))) }
{
    let a = match valued(alloc, Code::UnmatchedArms, pos, a) {
        Ok(a) => a,
        Err(refusal) => return Err(refusal),
    };
    let b = match valued(alloc, Code::UnmatchedArms, pos, b) {
        Ok(b) => b,
        Err(refusal) => return Err(refusal),
    };
    match common_type(alloc, pos, test, a, b) {
        Ok(c) => Ok(c),
        Err(_) => Err(Refusal::Memory),
    }
}

/// Both arms are `void`.
fn void_choice<'s>(
    alloc: Global,
    pos: Pos,
    test: Value,
    a: Value,
    b: Value,
) -> Result<Checked<'s>, Refusal>
    ensures ok { IfOk result (λ c. checked_of c ≡ typed.nothing pos (program_typed.chosen None (value_of test) (value_of a) (value_of b))) }
    ensures err { IfErr result (λ r. r ≡ Memory) }
{
    let Ok(test) = boxed(alloc, test) else {
        return Err(Refusal::Memory);
    };
    let Ok(a) = boxed(alloc, a) else {
        return Err(Refusal::Memory);
    };
    let Ok(b) = boxed(alloc, b) else {
        return Err(Refusal::Memory);
    };
    Ok(Checked::Nothing(pos, Value::Chosen(None, test, a, b)))
}

/// An arm whose other arm is `void`.
fn choice_beside_nothing<'s>(
    alloc: Global,
    pos: Pos,
    test: Value,
    a: Value,
    b: Checked,
) -> Result<Checked<'s>, Refusal>
    ensures ok { (p : Pos) → IfOk result (λ c. typed.choice pos (value_of test) (typed.nothing p (value_of a)) (checked_of b.entry) ≡ fine (checked_of c)) }
    ensures err { (p : Pos) → IfErr result (λ r. Tells r (typed.choice pos (value_of test) (typed.nothing p (value_of a)) (checked_of b.entry))) }
{
    match b {
        Checked::Nothing(_, b) => match void_choice(alloc, pos, test, a, b) {
            Ok(c) => Ok(c),
            Err(_) => Err(Refusal::Memory),
        },
        Checked::Value(_, _, _) => Err(broken(Code::UnmatchedArms, pos)),
        Checked::Object(_, _, _, _) => Err(broken(Code::UnmatchedArms, pos)),
        Checked::Array(_, _, _, _) => Err(broken(Code::UnmatchedArms, pos)),
        Checked::Unsized(_, _, _) => Err(broken(Code::UnmatchedArms, pos)),
        Checked::Reference(_, _, _) => Err(broken(Code::UnmatchedArms, pos)),
        Checked::Designator(_) => Err(broken(Code::UnmatchedArms, pos)),
    }
}

/// `?:` (6.5.15): both arms are numbers, or both are `void`.
fn choice<'s>(
    alloc: Global,
    pos: Pos,
    test: Value,
    a: Checked<'s>,
    b: Checked<'s>,
) -> Result<Checked<'s>, Refusal>
    ensures ok { IfOk result (λ c. typed.choice pos (value_of test) (checked_of a.entry) (checked_of b.entry) ≡ fine (checked_of c)) }
    ensures err { IfErr result (λ r. Tells r (typed.choice pos (value_of test) (checked_of a.entry) (checked_of b.entry))) }
{
    match a {
        Checked::Nothing(_, a) => choice_beside_nothing(alloc, pos, test, a, b),
        Checked::Value(at, ty, a) => {
            number_choice(alloc, pos, test, Checked::Value(at, ty, a), b)
        }
        Checked::Object(at, ty, k, a) => {
            number_choice(alloc, pos, test, Checked::Object(at, ty, k, a), b)
        }
        Checked::Array(at, n, elements, a) => {
            number_choice(alloc, pos, test, Checked::Array(at, n, elements, a), b)
        }
        Checked::Unsized(at, elements, a) => {
            number_choice(alloc, pos, test, Checked::Unsized(at, elements, a), b)
        }
        Checked::Reference(at, elements, a) => {
            number_choice(alloc, pos, test, Checked::Reference(at, elements, a), b)
        }
        Checked::Designator(at) => number_choice(alloc, pos, test, Checked::Designator(at), b),
    }
}

/// `?:` with its test (6.5.15p2).
#[inline(never)]
pub fn chosen<'s>(
    alloc: Global,
    pos: Pos,
    test: Worth,
    a: Checked<'s>,
    b: Checked<'s>,
) -> Result<Checked<'s>, Refusal>
    ensures ok { IfOk result (λ c. typed.chosen_by pos (worth_of test) (record { first = checked_of a.entry; second = checked_of b.entry }) ≡ fine (checked_of c)) }
    ensures err { IfErr result (λ r. Tells r (typed.chosen_by pos (worth_of test) (record { first = checked_of a.entry; second = checked_of b.entry }))) }
{
    choice(alloc, pos, test.value, a, b)
}
