//! Operators at their places: if undefined behaviour is not ruled out, the place is recorded or the analysis stops.

ghost use Rattle.std.specs.Prelude.{◌≡◌, ◌<◌, Contains, IfOk, IfSome, IsTrue, pos};
ghost use Rattle.typing_spec.specs.Operators.{signed_type};
ghost use Rattle.csem.specs.Expressions.{step_operation};
ghost use Rattle.verify_logic.specs.Judgements.{MayRead, Operates, OperatesAt, SignsAt, Subscripts};
ghost use Rattle.verify_logic.specs.States.{just};
ghost use Rattle.verify_expressions.specs.Views.{frame_of};

use crate::scope::Scope;
use crate::stop::{Alarm, Stop};
use ctypes::{BinOp, IntType, Undef};
use srcset::Pos;
use tree::{PrefixOp, StepOp};
use verify_intervals::{all_of, operation, sign, step};
use verify_logic::{AbsValue, Interval};

/// Tests whether undefined behaviour is allowed at the place.
pub fn is_listed(scope: &Scope<'_>, at: Pos) -> bool
    ensures { IsTrue result → Contains scope.now.listed.now at }
{
    for p in scope.listed {
        if *p == at {
            return true;
        }
    }
    false
}

fn alarm(at: Pos, act: Undef, interval: Interval) -> Stop {
    Stop::Alarm(Alarm { at, act, interval })
}

fn likely(op: BinOp, j: Interval) -> Undef {
    match op {
        BinOp::Div | BinOp::Rem => {
            if j.low <= 0 && 0 <= j.high {
                Undef::U2
            } else {
                Undef::U1
            }
        }
        BinOp::Shr => Undef::U3,
        BinOp::Shl => {
            if 0 <= j.low && j.high < 32 {
                Undef::U4
            } else {
                Undef::U3
            }
        }
        BinOp::Mul
        | BinOp::Add
        | BinOp::Sub
        | BinOp::Less
        | BinOp::Greater
        | BinOp::LessEqual
        | BinOp::GreaterEqual
        | BinOp::Equal
        | BinOp::NotEqual
        | BinOp::BitAnd
        | BinOp::BitXor
        | BinOp::BitOr => Undef::U1,
    }
}

fn faulty(act: Undef, i: Interval, j: Interval) -> Interval {
    match act {
        Undef::U2 => j,
        Undef::U3 => j,
        Undef::U1 => i,
        Undef::U4 => i,
        Undef::U5 => i,
        Undef::U6 => i,
        Undef::U7 => i,
        Undef::U8 => i,
    }
}

/// A binary operator (6.5.5 to 6.5.12).
///
/// Errors: it may be undefined, and its place is not recorded.
pub fn operation_at(
    scope: &Scope<'_>,
    at: Pos,
    op: BinOp,
    ty: IntType,
    i: Interval,
    j: Interval,
) -> Result<Interval, Stop>
    ensures { IfOk result (λ r. OperatesAt (frame_of scope.now) at op ty i j r) }
{
    match operation(op, ty, i, j) {
        Some(r) => Ok(r),
        None => {
            let admitted = is_listed(scope, at);
            if admitted {
                Ok(all_of(op.result_type(ty)))
            } else {
                let act = likely(op, j);
                Err(alarm(at, act, faulty(act, i, j)))
            }
        }
    }
}

/// A sign (6.5.3.3).
///
/// Errors: it may be undefined, and its place is not recorded.
pub fn sign_at(
    scope: &Scope<'_>,
    at: Pos,
    op: PrefixOp,
    ty: IntType,
    i: Interval,
) -> Result<Interval, Stop>
    ensures { IfOk result (λ r. SignsAt (frame_of scope.now) at op ty i r) }
{
    match sign(op, ty, i) {
        Some(r) => Ok(r),
        None => {
            let admitted = is_listed(scope, at);
            if admitted {
                Ok(all_of(signed_type(op, ty)))
            } else {
                Err(alarm(at, Undef::U1, i))
            }
        }
    }
}

/// The type of a sign's result (6.5.3.3).
fn signed_type(op: PrefixOp, ty: IntType) -> IntType
    ensures { result ≡ signed_type op ty }
{
    match op {
        PrefixOp::Plus => ty,
        PrefixOp::Minus => ty,
        PrefixOp::Complement => ty,
        PrefixOp::Not => IntType::Int,
    }
}

/// An increment or a decrement (6.5.2.4, 6.5.3.1).
///
/// Errors: it may be undefined, and its place is not recorded.
pub fn step_at(
    scope: &Scope<'_>,
    at: Pos,
    op: StepOp,
    ty: IntType,
    i: Interval,
) -> Result<Interval, Stop>
    ensures { IfOk result (λ r. OperatesAt (frame_of scope.now) at (step_operation op) ty i (just (pos 1)) r) }
{
    match step(op, ty, i) {
        Some(r) => Ok(r),
        None => {
            let admitted = is_listed(scope, at);
            if admitted {
                Ok(all_of(ty))
            } else {
                Err(alarm(at, Undef::U1, i))
            }
        }
    }
}

/// A value is read (6.3.2.1).
///
/// Errors: it may be indeterminate, and its place is not recorded.
pub fn read_at(scope: &Scope<'_>, at: Pos, k: AbsValue) -> Result<Interval, Stop>
    ensures { IfOk result (λ r. (r ≡ k.interval) × MayRead (frame_of scope.now) at k) }
{
    if k.initialised {
        return Ok(k.interval);
    }
    let admitted = is_listed(scope, at);
    if admitted {
        Ok(k.interval)
    } else {
        Err(alarm(at, Undef::U6, k.interval))
    }
}

/// A subscript of an array of this number of elements (6.5.2.1, 6.5.6p8).
///
/// Errors: it may be outside, and its place is not recorded.
pub fn subscript_at(scope: &Scope<'_>, at: Pos, i: Interval, n: u32) -> Result<(), Stop>
    ensures { IfOk result (λ u. Subscripts (frame_of scope.now) at i n) }
{
    let top = i64::from(n);
    if 0 <= i.low && i.high < top {
        return Ok(());
    }
    let admitted = is_listed(scope, at);
    if admitted {
        Ok(())
    } else {
        Err(alarm(at, Undef::U5, i))
    }
}
