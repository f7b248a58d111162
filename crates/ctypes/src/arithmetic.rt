//! Binary operations, each with the undefined behaviour that it may have.

ghost use Rattle.std.specs.Prelude.{◌≡◌, ◌≤ℤ◌, ◌^◌, ◌*ℤ◌, pos, true, false, IfOk};
ghost use Rattle.ctypes.specs.Types.{signed, IsValueOf, converted};
ghost use Rattle.ctypes.specs.Arithmetic.{computed, result_type, RightIsValueOf, is_count, magnitude};
ghost use Rattle.ctypes.specs.Arithmetic as arithmetic;

use crate::operators::{BinOp, Undef};
use crate::types::{IntType, convert, low_word};

/// `value` in the type, or `act` where `exact` is out of range of a signed type.
#[inline(always)]
fn in_range(act: Undef, ty: IntType, exact: i64, value: i64) -> Result<i64, Undef>
    ensures { result ≡ arithmetic.in_range act ty exact value }
{
    if ty.is_signed() && !ty.contains(exact) {
        Err(act)
    } else {
        Ok(convert(ty, value))
    }
}

/// The product in an unsigned type. It fits 64 bits without a sign, but not an `i64`.
fn multiply_unsigned(ty: IntType, a: i64, b: i64) -> i64
    requires kind { signed ty ≡ false }
    requires left { IsValueOf ty a }
    requires right { IsValueOf ty b }
    ensures { result ≡ converted ty (a *ℤ b) }
{
    let product = a.cast_unsigned() * b.cast_unsigned();
    convert(ty, (product % 0x1_0000_0000).cast_signed())
}

#[inline(always)]
fn multiply_signed(ty: IntType, a: i64, b: i64) -> i64
    requires kind { signed ty ≡ true }
    requires left { IsValueOf ty a }
    requires right { IsValueOf ty b }
    ensures { result ≡ a *ℤ b }
{
    a * b
}

#[inline(always)]
fn multiply(ty: IntType, a: i64, b: i64) -> Result<i64, Undef>
    requires left { IsValueOf ty a }
    requires right { IsValueOf ty b }
    ensures { result ≡ computed BinOp.Mul ty a b }
{
    if ty.is_signed() {
        let product = multiply_signed(ty, a, b);
        in_range(Undef::U1, ty, product, product)
    } else {
        Ok(multiply_unsigned(ty, a, b))
    }
}

fn divide(ty: IntType, a: i64, b: i64) -> Result<i64, Undef>
    requires left { IsValueOf ty a }
    ensures { result ≡ computed BinOp.Div ty a b }
{
    if b == 0 {
        Err(Undef::U2)
    } else {
        let quotient = a / b;
        in_range(Undef::U1, ty, quotient, quotient)
    }
}

fn remainder(ty: IntType, a: i64, b: i64) -> Result<i64, Undef>
    requires left { IsValueOf ty a }
    ensures { result ≡ computed BinOp.Rem ty a b }
{
    if b == 0 {
        Err(Undef::U2)
    } else {
        in_range(Undef::U1, ty, a / b, a % b)
    }
}

#[inline(always)]
fn add(ty: IntType, a: i64, b: i64) -> Result<i64, Undef>
    requires left { IsValueOf ty a }
    requires right { IsValueOf ty b }
    ensures { result ≡ computed BinOp.Add ty a b }
{
    let sum = a + b;
    in_range(Undef::U1, ty, sum, sum)
}

#[inline(always)]
fn subtract(ty: IntType, a: i64, b: i64) -> Result<i64, Undef>
    requires left { IsValueOf ty a }
    requires right { IsValueOf ty b }
    ensures { result ≡ computed BinOp.Sub ty a b }
{
    let difference = a - b;
    in_range(Undef::U1, ty, difference, difference)
}

fn is_shift_count(ty: IntType, count: i64) -> bool
    ensures { result ≡ is_count ty count }
{
    0 <= count && count < i64::from(ty.width())
}

/// `a` times two to the `count`.
fn times_power(ty: IntType, a: i64, count: i64) -> i64
    requires left { IsValueOf ty a }
    requires sign { pos 0 ≤ℤ a }
    requires count { is_count ty count ≡ true }
    ensures { result ≡ a *ℤ pos (2 ^ magnitude count) }
{
    a << count
}

fn shift_left(ty: IntType, a: i64, b: i64) -> Result<i64, Undef>
    requires left { IsValueOf ty a }
    ensures { result ≡ computed BinOp.Shl ty a b }
{
    if !is_shift_count(ty, b) {
        return Err(Undef::U3);
    }
    if a < 0 {
        return Err(Undef::U4);
    }
    let shifted = times_power(ty, a, b);
    in_range(Undef::U4, ty, shifted, shifted)
}

fn shift_right(ty: IntType, a: i64, b: i64) -> Result<i64, Undef>
    requires left { IsValueOf ty a }
    ensures { result ≡ computed BinOp.Shr ty a b }
{
    if is_shift_count(ty, b) {
        Ok(a >> b)
    } else {
        Err(Undef::U3)
    }
}

/// The value of `a op b`, with both operands converted to `ty` beforehand by the usual arithmetic
/// conversions (6.5.5 to 6.5.12); under a shift, `ty` is the promoted type of `a`, and `b` is any
/// number (6.5.7p3). The result is a value of `ty`, and under a comparison 0 or 1 as `int`.
///
/// An unsigned type goes modulo two to its width (6.2.5p9), a quotient is cut towards zero (6.5.5p6),
/// and a right shift of a negative number rounds down, this profile's choice (6.5.7p5).
///
/// Errors: `U1` a result out of range of a signed type, and the least number by -1 under `/` and `%`;
/// `U2` a zero divisor; `U3` a shift count that is negative or not less than the width, and only then
/// `U4` a left shift of a negative number or out of range.
#[inline(always)]
pub fn binary(op: BinOp, ty: IntType, a: i64, b: i64) -> Result<i64, Undef>
    requires left { IsValueOf ty a }
    requires right { RightIsValueOf op ty b }
    ensures value { result ≡ computed op ty a b }
    ensures range { IfOk result (λ v. IsValueOf (result_type op ty) v) }
{
    match op {
        BinOp::Mul => multiply(ty, a, b),
        BinOp::Div => divide(ty, a, b),
        BinOp::Rem => remainder(ty, a, b),
        BinOp::Add => add(ty, a, b),
        BinOp::Sub => subtract(ty, a, b),
        BinOp::Shl => shift_left(ty, a, b),
        BinOp::Shr => shift_right(ty, a, b),
        BinOp::Less => Ok(i64::from(a < b)),
        BinOp::Greater => Ok(i64::from(b < a)),
        BinOp::LessEqual => Ok(i64::from(a <= b)),
        BinOp::GreaterEqual => Ok(i64::from(b <= a)),
        BinOp::Equal => Ok(i64::from(a == b)),
        BinOp::NotEqual => Ok(i64::from(a != b)),
        BinOp::BitAnd => Ok(convert(ty, i64::from(low_word(a) & low_word(b)))),
        BinOp::BitXor => Ok(convert(ty, i64::from(low_word(a) ^ low_word(b)))),
        BinOp::BitOr => Ok(convert(ty, i64::from(low_word(a) | low_word(b)))),
    }
}
