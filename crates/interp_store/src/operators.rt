//! The operators on values, each with the undefined behaviour that it may be (6.5).

ghost use Rattle.std.specs.Prelude.{◌≡◌};
ghost use Rattle.ctypes.specs.Types.{truth, of_truth, modulo};
ghost use Rattle.ctypes.specs.Arithmetic.{RightIsValueOf};
ghost use Rattle.typing_spec.specs.Operators as typed;
ghost use Rattle.csem.specs.Expressions as meaning;
ghost use Rattle.csem.specs.Statements.{same_value};
ghost use Rattle.csem.specs.Machine.{State, computed_at};
ghost use Rattle.interp_store.specs.layer.Agrees.{Runs, number};
ghost use Rattle.typed_ast.specs.View.{moment_of};

use crate::stop::Stop;
use ctypes::{BinOp, IntType, Undef, binary, complement, convert, is_zero, negate};
use srcset::Pos;
use tree::{PrefixOp, StepOp};
use typed_ast::Moment;

/// Whether a value counts as true (6.8.4.1p2).
#[inline(always)]
pub fn is_true(value: i64) -> bool
    ensures { result ≡ truth value }
{
    value != 0
}

/// The value of a truth (6.5.8p6).
#[inline(always)]
pub fn of_truth(truth: bool) -> i64
    ensures { result ≡ of_truth truth }
{
    i64::from(truth)
}

/// Whether a case has the value that a switch looks for (6.8.4.2p5).
pub fn same_value(v: i64, w: i64) -> bool
    ensures { result ≡ same_value v w }
{
    v <= w && w <= v
}

/// The low 8 bits of a value, in two's complement.
#[inline(always)]
pub fn low_byte(value: i64) -> u8
    ensures { result ≡ modulo 8 value }
{
    (value.cast_unsigned() % 0x100) as u8
}

/// The value of a sign operator on an operand (6.5.3.3).
///
/// Errors: `U1` out of range of a signed type.
pub fn sign_of(op: PrefixOp, ty: IntType, value: i64) -> Result<i64, Undef>
    ensures { result ≡ typed.sign_of op ty value }
{
    let value = convert(ty, value);
    match op {
        PrefixOp::Plus => Ok(value),
        PrefixOp::Minus => negate(ty, value),
        PrefixOp::Complement => Ok(complement(ty, value)),
        PrefixOp::Not => Ok(is_zero(value)),
    }
}

/// The right operand as it is computed with: a shift's keeps its own type (6.5.7p3).
#[inline(always)]
fn right_operand(op: BinOp, ty: IntType, value: i64) -> i64
    ensures value { result ≡ typed.right_operand op ty value }
    ensures fits { RightIsValueOf op ty result }
{
    match op {
        BinOp::Shl | BinOp::Shr => value,
        _ => convert(ty, value),
    }
}

/// An operation on the values of its operands, each of its own type (6.5.5 to 6.5.12).
///
/// Errors: `U1` to `U4`, as `ctypes::binary` has them.
#[inline(always)]
pub fn operated(op: BinOp, ty: IntType, a: i64, b: i64) -> Result<i64, Undef>
    ensures { result ≡ typed.operated op ty a b }
{
    binary(op, ty, convert(ty, a), right_operand(op, ty, b))
}

/// The same, or the undefined behaviour that it is, at its operator.
///
/// Errors: `U1` to `U4`.
#[inline(always)]
pub fn operated_at(at: Pos, op: BinOp, ty: IntType, a: i64, b: i64) -> Result<i64, Stop>
    ensures { (s : State) → Runs number (computed_at at (typed.operated op ty a b) s) result s }
{
    match operated(op, ty, a, b) {
        Ok(v) => Ok(v),
        Err(act) => Err(Stop::Undefined(act, at)),
    }
}

/// The value of a sign operator on an operand, or its undefined behaviour, at its operator.
///
/// Errors: `U1` out of range of a signed type.
pub fn sign_at(at: Pos, op: PrefixOp, ty: IntType, value: i64) -> Result<i64, Stop>
    ensures { (s : State) → Runs number (computed_at at (typed.sign_of op ty value) s) result s }
{
    match sign_of(op, ty, value) {
        Ok(v) => Ok(v),
        Err(act) => Err(Stop::Undefined(act, at)),
    }
}

/// The operation of `++` and `--` (6.5.2.4, 6.5.3.1).
#[inline(always)]
pub fn step_operation(op: StepOp) -> BinOp
    ensures { result ≡ meaning.step_operation op }
{
    match op {
        StepOp::Increment => BinOp::Add,
        StepOp::Decrement => BinOp::Sub,
    }
}

/// The value of a step: the old value after it, else the new one.
#[inline(always)]
pub fn step_value(moment: Moment, old: i64, new: i64) -> i64
    ensures { result ≡ meaning.step_value (moment_of moment) old new }
{
    match moment {
        Moment::After => old,
        Moment::Before => new,
    }
}

/// The value converted to a type; of type `void` it is 0, which nothing uses (6.5.15, 6.3.2.2).
#[inline(always)]
pub fn converted_or_none(ty: Option<IntType>, value: i64) -> i64
    ensures { result ≡ meaning.converted_or_none ty value }
{
    match ty {
        Some(ty) => convert(ty, value),
        None => 0,
    }
}
