//! Results of operators on intervals (6.5.3.3, 6.5.5 to 6.5.12). `None` means that undefined behaviour is not ruled out.

ghost use Rattle.std.specs.Prelude.{◌≡◌, ◌≤ℤ◌, ◌<ℤ◌, ◌^◌, IfSome, IsTrue, pos};
ghost use Rattle.ctypes.specs.Arithmetic.{magnitude};
ghost use Rattle.verify_logic.specs.Judgements.{Computes, Converts, ConvertsRight, Operates, Ranges, Signs};
ghost use Rattle.ctypes.specs.Types.{bits_of};
ghost use Rattle.verify_logic.specs.States.{just, range_of};
ghost use Rattle.csem.specs.Expressions.{step_operation};
ghost use Rattle.verify_intervals.specs.Decided.{Negates};

use crate::divisions::{quotient, remainder};
use crate::intervals::{
    add, around_product, divided_by, greatest_magnitude, is_nonzero, is_zero, lies_in, multiply,
    single, subtract, up_to_product, with_zero,
};
use crate::relations::never;
use ctypes::{BinOp, IntType};
use tree::{PrefixOp, StepOp};
use verify_logic::Interval;

/// All values of a type.
pub fn all_of(ty: IntType) -> Interval
    ensures { result ≡ range_of ty }
{
    Interval {
        low: ty.min(),
        high: ty.max(),
    }
}

/// The result of a conversion to the type.
pub fn conversion(ty: IntType, i: Interval) -> Interval
    ensures { Converts ty i result }
{
    let all = all_of(ty);
    if lies_in(i, all) { i } else { all }
}

fn right_conversion(op: BinOp, ty: IntType, i: Interval) -> Interval
    ensures { ConvertsRight op ty i result }
{
    match op {
        BinOp::Shl => i,
        BinOp::Shr => i,
        BinOp::Mul
        | BinOp::Div
        | BinOp::Rem
        | BinOp::Add
        | BinOp::Sub
        | BinOp::Less
        | BinOp::Greater
        | BinOp::LessEqual
        | BinOp::GreaterEqual
        | BinOp::Equal
        | BinOp::NotEqual
        | BinOp::BitAnd
        | BinOp::BitXor
        | BinOp::BitOr => conversion(ty, i),
    }
}

/// An exact result within the type, or one that goes modulo.
pub fn ranged(ty: IntType, i: Interval) -> Option<Interval>
    ensures { IfSome result (λ r. Ranges ty i r) }
{
    let all = all_of(ty);
    if lies_in(i, all) {
        return Some(i);
    }
    if ty.is_signed() { None } else { Some(all) }
}

fn sum(ty: IntType, i: Interval, j: Interval) -> Option<Interval>
    ensures { IfSome result (λ r. Computes BinOp.Add ty i j r) }
{
    let Some(low) = add(i.low, j.low) else {
        return None;
    };
    let Some(high) = add(i.high, j.high) else {
        return None;
    };
    ranged(ty, Interval { low, high })
}

fn difference(ty: IntType, i: Interval, j: Interval) -> Option<Interval>
    ensures { IfSome result (λ r. Computes BinOp.Sub ty i j r) }
{
    let Some(low) = subtract(i.low, j.high) else {
        return None;
    };
    let Some(high) = subtract(i.high, j.low) else {
        return None;
    };
    ranged(ty, Interval { low, high })
}

/// The product of numbers that are not negative.
fn natural_product(ty: IntType, i: Interval, j: Interval) -> Option<Interval>
    ensures { IfSome result (λ r. Computes BinOp.Mul ty i j r) }
{
    if i.low < 0 || j.low < 0 {
        return None;
    }
    let Some(high) = multiply(i.high, j.high) else {
        return None;
    };
    ranged(ty, Interval { low: 0, high })
}

/// The product of any numbers, by their greatest magnitudes.
fn signed_product(ty: IntType, i: Interval, j: Interval) -> Option<Interval>
    ensures { IfSome result (λ r. Computes BinOp.Mul ty i j r) }
{
    let Some(a) = greatest_magnitude(i) else {
        return None;
    };
    let Some(b) = greatest_magnitude(j) else {
        return None;
    };
    let Some(k) = around_product(a, b) else {
        return None;
    };
    ranged(ty, k)
}

/// A product that goes modulo.
fn modulo_product(ty: IntType, i: Interval, j: Interval) -> Option<Interval>
    ensures { IfSome result (λ r. Computes BinOp.Mul ty i j r) }
{
    if ty.is_signed() {
        return None;
    }
    Some(all_of(ty))
}

fn product(ty: IntType, i: Interval, j: Interval) -> Option<Interval>
    ensures { IfSome result (λ r. Computes BinOp.Mul ty i j r) }
{
    match natural_product(ty, i, j) {
        Some(r) => Some(r),
        None => match signed_product(ty, i, j) {
            Some(r) => Some(r),
            None => modulo_product(ty, i, j),
        },
    }
}

/// Tests whether all are shift counts of the type (6.5.7p3).
fn are_counts(ty: IntType, j: Interval) -> bool
    ensures least { IsTrue result → (pos 0 ≤ℤ j.low) × (j.low <ℤ pos 32) }
    ensures most { IsTrue result → (pos 0 ≤ℤ j.high) × (j.high <ℤ pos (bits_of ty)) }
    ensures width { IsTrue result → j.high <ℤ pos 32 }
{
    let width = i64::from(ty.width());
    0 <= j.low && j.low < 32 && 0 <= j.high && j.high < width && j.high < 32
}

/// Two to the `count`.
fn power(count: i64) -> i64
    requires least { pos 0 ≤ℤ count }
    requires most { count <ℤ pos 32 }
    ensures value { result ≡ pos (2 ^ magnitude count) }
    ensures positive { pos 0 <ℤ result }
{
    1_i64 << count
}

fn left_by(ty: IntType, i: Interval, j: Interval) -> Option<Interval>
    requires least { (pos 0 ≤ℤ j.low) × (j.low <ℤ pos 32) }
    requires most { (pos 0 ≤ℤ j.high) × (j.high <ℤ pos (bits_of ty)) }
    requires width { j.high <ℤ pos 32 }
    ensures { IfSome result (λ r. Computes BinOp.Shl ty i j r) }
{
    if i.low < 0 {
        return None;
    }
    let most = power(j.high);
    let Some(k) = up_to_product(i.high, most) else {
        return None;
    };
    ranged(ty, k)
}

/// Numbers that are not negative, shifted to the left (6.5.7p4).
fn shifted_left(ty: IntType, i: Interval, j: Interval) -> Option<Interval>
    ensures { IfSome result (λ r. Computes BinOp.Shl ty i j r) }
{
    let counts = are_counts(ty, j);
    if counts { left_by(ty, i, j) } else { None }
}

fn right_by(ty: IntType, i: Interval, j: Interval) -> Interval
    requires least { (pos 0 ≤ℤ j.low) × (j.low <ℤ pos 32) }
    requires most { (pos 0 ≤ℤ j.high) × (j.high <ℤ pos (bits_of ty)) }
    ensures { Computes BinOp.Shr ty i j result }
{
    let least = power(j.low);
    let whole = with_zero(i);
    let k = divided_by(whole, least);
    with_low(whole.low, k)
}

fn with_low(low: i64, k: Interval) -> Interval
    ensures low { result.low ≡ low }
    ensures high { result.high ≡ k.high }
{
    Interval { low, high: k.high }
}

/// Shifted to the right, which rounds down (6.5.7p5).
fn shifted_right(ty: IntType, i: Interval, j: Interval) -> Option<Interval>
    ensures { IfSome result (λ r. Computes BinOp.Shr ty i j r) }
{
    let counts = are_counts(ty, j);
    if counts {
        Some(right_by(ty, i, j))
    } else {
        None
    }
}

/// The bits of a number that is not negative, and no others.
fn left_mask(ty: IntType, i: Interval, j: Interval) -> Option<Interval>
    ensures { IfSome result (λ r. Computes BinOp.BitAnd ty i j r) }
{
    let all = all_of(ty);
    if i.low < 0 || all.high < i.high {
        return None;
    }
    let r = with_low(0, i);
    Some(r)
}

fn right_mask(ty: IntType, i: Interval, j: Interval) -> Option<Interval>
    ensures { IfSome result (λ r. Computes BinOp.BitAnd ty i j r) }
{
    let all = all_of(ty);
    if j.low < 0 || all.high < j.high {
        return None;
    }
    let r = with_low(0, j);
    Some(r)
}

fn masked_right(ty: IntType, i: Interval, j: Interval) -> Interval
    ensures { Computes BinOp.BitAnd ty i j result }
{
    match right_mask(ty, i, j) {
        Some(r) => r,
        None => all_of(ty),
    }
}

fn masked_both(ty: IntType, i: Interval, j: Interval, left: Interval) -> Interval
    requires { Computes BinOp.BitAnd ty i j left }
    ensures { Computes BinOp.BitAnd ty i j result }
{
    match right_mask(ty, i, j) {
        Some(right) => if right.high < left.high { right } else { left },
        None => left,
    }
}

/// The bits that both have.
fn masked(ty: IntType, i: Interval, j: Interval) -> Interval
    ensures { Computes BinOp.BitAnd ty i j result }
{
    match left_mask(ty, i, j) {
        Some(left) => masked_both(ty, i, j, left),
        None => masked_right(ty, i, j),
    }
}

/// The possible truth values: 0 or 1.
pub fn truths() -> Interval
    ensures { result ≡ range_of IntType.Bool }
{
    Interval { low: 0, high: 1 }
}

/// An operation on operands that are converted.
fn computed(op: BinOp, ty: IntType, i: Interval, j: Interval) -> Option<Interval>
    ensures { IfSome result (λ r. Computes op ty i j r) }
{
    match op {
        BinOp::Mul => product(ty, i, j),
        BinOp::Div => quotient(ty, i, j),
        BinOp::Rem => remainder(ty, i, j),
        BinOp::Add => sum(ty, i, j),
        BinOp::Sub => difference(ty, i, j),
        BinOp::Shl => shifted_left(ty, i, j),
        BinOp::Shr => shifted_right(ty, i, j),
        BinOp::Less => Some(truths()),
        BinOp::Greater => Some(truths()),
        BinOp::LessEqual => Some(truths()),
        BinOp::GreaterEqual => Some(truths()),
        BinOp::Equal => Some(truths()),
        BinOp::NotEqual => Some(truths()),
        BinOp::BitAnd => Some(masked(ty, i, j)),
        BinOp::BitXor => Some(all_of(ty)),
        BinOp::BitOr => Some(all_of(ty)),
    }
}

fn begins_at_zero(i: Interval) -> bool
    ensures { IsTrue result → i.low ≡ pos 0 }
{
    i.low == 0
}

/// The same, where the intervals decide a comparison.
fn decided(op: BinOp, ty: IntType, i: Interval, j: Interval, all: Interval) -> Interval
    requires { Computes op ty i j all }
    ensures { Computes op ty i j result }
{
    let fails = never(op, true, i, j);
    if fails {
        return single(0);
    }
    let holds = never(op, false, i, j);
    if !holds {
        return all;
    }
    let truth = begins_at_zero(all);
    if !truth {
        return all;
    }
    Interval {
        low: 1,
        high: all.high,
    }
}

/// A binary operator.
pub fn operation(op: BinOp, ty: IntType, i: Interval, j: Interval) -> Option<Interval>
    ensures { IfSome result (λ r. Operates op ty i j r) }
{
    let a = conversion(ty, i);
    let b = right_conversion(op, ty, j);
    let Some(all) = computed(op, ty, a, b) else {
        return None;
    };
    let r = decided(op, ty, a, b, all);
    Some(r)
}

fn difference_from_zero(ty: IntType, i: Interval) -> Option<Interval>
    ensures { IfSome result (λ r. Computes BinOp.Sub ty (just (pos 0)) i r) }
{
    difference(ty, Interval { low: 0, high: 0 }, i)
}

/// The result of `!` (6.5.3.3p5).
fn negated(i: Interval) -> Interval
    ensures { Negates i result }
{
    let zero = is_zero(i);
    if zero {
        let one = single(1);
        return one;
    }
    let nonzero = is_nonzero(i);
    if nonzero {
        let none = single(0);
        return none;
    }
    truths()
}

/// A sign.
pub fn sign(op: PrefixOp, ty: IntType, i: Interval) -> Option<Interval>
    ensures { IfSome result (λ r. Signs op ty i r) }
{
    let a = conversion(ty, i);
    match op {
        PrefixOp::Plus => Some(a),
        PrefixOp::Minus => difference_from_zero(ty, a),
        PrefixOp::Complement => Some(all_of(ty)),
        PrefixOp::Not => {
            let truth = negated(a);
            Some(truth)
        }
    }
}

/// One more, or one less.
pub fn step(op: StepOp, ty: IntType, i: Interval) -> Option<Interval>
    ensures { IfSome result (λ r. Operates (step_operation op) ty i (just (pos 1)) r) }
{
    let one = Interval { low: 1, high: 1 };
    match op {
        StepOp::Increment => operation(BinOp::Add, ty, i, one),
        StepOp::Decrement => operation(BinOp::Sub, ty, i, one),
    }
}
