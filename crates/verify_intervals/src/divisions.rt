//! Quotients and remainders on intervals (6.5.5), by numbers of one sign. `None` means that undefined behaviour is not ruled out.

ghost use Rattle.std.specs.Prelude.{◌≡◌, ◌<ℤ◌, ◌-ℤ◌, ℤ, IfSome, IsTrue, pos};
ghost use Rattle.verify_logic.specs.Judgements.{Computes};
ghost use Rattle.verify_logic.specs.States.{In};

use crate::intervals::{divided_by, lies_in, opposite, subtract, with_zero};
use crate::operations::{all_of, ranged};
use crate::relations::{cut_above, cut_below};
use ctypes::{BinOp, IntType};
use verify_logic::Interval;

/// The quotient by numbers that are above zero.
fn quotient_above(ty: IntType, i: Interval, j: Interval) -> Option<Interval>
    ensures { IfSome result (λ r. Computes BinOp.Div ty i j r) }
{
    if j.low <= 0 {
        return None;
    }
    let whole = with_zero(i);
    let k = divided_by(whole, j.low);
    ranged(ty, k)
}

/// The quotient by numbers that are below zero: the opposite of that by their magnitudes.
fn quotient_below(ty: IntType, i: Interval, j: Interval) -> Option<Interval>
    ensures { IfSome result (λ r. Computes BinOp.Div ty i j r) }
{
    if 0 <= j.high {
        return None;
    }
    let Some(least) = subtract(0, j.high) else {
        return None;
    };
    let whole = with_zero(i);
    let k = divided_by(whole, least);
    let Some(turned) = opposite(k) else {
        return None;
    };
    ranged(ty, turned)
}

/// The quotient by numbers of one sign.
pub fn quotient(ty: IntType, i: Interval, j: Interval) -> Option<Interval>
    ensures { IfSome result (λ r. Computes BinOp.Div ty i j r) }
{
    match quotient_above(ty, i, j) {
        Some(r) => Some(r),
        None => quotient_below(ty, i, j),
    }
}

/// The part of `whole`, which has the sign of the dividend, that is below the divisor in magnitude.
fn cut_remainder(whole: Interval, top: i64) -> Option<Interval>
    ensures { IfSome result (λ r. (v : ℤ) → In whole v → (pos 0 -ℤ top) <ℤ v → v <ℤ top → In r v) }
{
    let Some(most) = subtract(top, 1) else {
        return None;
    };
    let Some(least) = subtract(1, top) else {
        return None;
    };
    let upper = cut_above(whole, most);
    let both = cut_below(upper, least);
    Some(both)
}

/// The remainder by numbers that are above zero.
fn remainder_above(ty: IntType, i: Interval, j: Interval) -> Option<Interval>
    ensures { IfSome result (λ r. Computes BinOp.Rem ty i j r) }
{
    if j.low <= 0 {
        return None;
    }
    let whole = with_zero(i);
    let all = all_of(ty);
    let fits = lies_in(whole, all);
    if fits {
        cut_remainder(whole, j.high)
    } else {
        None
    }
}

/// The remainder by numbers that are below zero: that by their magnitudes, where each quotient is in range.
fn remainder_below(ty: IntType, i: Interval, j: Interval) -> Option<Interval>
    ensures { IfSome result (λ r. Computes BinOp.Rem ty i j r) }
{
    if 0 <= j.high {
        return None;
    }
    let whole = with_zero(i);
    let all = all_of(ty);
    let fits = lies_in(whole, all);
    if !fits {
        return None;
    }
    let Some(turned) = opposite(whole) else {
        return None;
    };
    let turns = lies_in(turned, all);
    if !turns {
        return None;
    }
    let Some(most) = subtract(0, j.low) else {
        return None;
    };
    cut_remainder(whole, most)
}

/// The remainder by numbers of one sign.
pub fn remainder(ty: IntType, i: Interval, j: Interval) -> Option<Interval>
    ensures { IfSome result (λ r. Computes BinOp.Rem ty i j r) }
{
    match remainder_above(ty, i, j) {
        Some(r) => Some(r),
        None => remainder_below(ty, i, j),
    }
}
