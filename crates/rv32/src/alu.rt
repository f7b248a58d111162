//! Comparisons and operations on 32 bits.

ghost use Rattle.std.specs.Prelude.{◌≡◌, ◌<◌, ◌≤◌, ◌+◌, ◌*◌, ◌-◌, ◌/◌, ◌%◌, ◌^◌, ℕ, ◌*ℤ◌};
ghost use Rattle.std.specs.Int.{w32};
ghost use Rattle.std.specs.Int.RustNames.{FitsSigned};
ghost use Rattle.rv32.specs.Arithmetic.{compare_of, operate_of, operate_immediate_of, shift_by};
ghost use Rattle.rv32.specs.Arithmetic as numbers;

use crate::instr::{ImmediateOp, RegisterOp, ShiftOp, Test};

/// Whether a branch with this test is taken.
#[inline(always)]
pub fn compare(test: Test, a: u32, b: u32) -> bool
    ensures { result ≡ compare_of test a b }
{
    match test {
        Test::Equal => a == b,
        Test::NotEqual => a != b,
        Test::Less => a.cast_signed() < b.cast_signed(),
        Test::GreaterEqual => b.cast_signed() <= a.cast_signed(),
        Test::LessUnsigned => a < b,
        Test::GreaterEqualUnsigned => b <= a,
    }
}

fn shift_right_arithmetic(a: u32, amount: u32) -> u32
    requires { amount < 32 }
    ensures { result ≡ shift_by ShiftOp.RightArithmetic a amount }
{
    (a.cast_signed() >> amount).cast_unsigned()
}

fn upper_half(product: i64) -> u32
    ensures { result ≡ numbers.upper_half product }
{
    (product.cast_unsigned() >> 32) as u32
}

/// The signed number of the bits `a`.
fn signed(a: u32) -> i64
    ensures value { result ≡ numbers.signed a }
    ensures range { FitsSigned w32 result }
{
    i64::from(a.cast_signed())
}

fn mul_high(a: u32, b: u32) -> u32
    ensures { result ≡ operate_of RegisterOp.MulHigh a b }
{
    upper_half(signed(a) * signed(b))
}

fn mul_high_signed_unsigned(a: u32, b: u32) -> u32
    ensures { result ≡ operate_of RegisterOp.MulHighSignedUnsigned a b }
{
    upper_half(signed(a) * i64::from(b))
}

fn mul_high_unsigned(a: u32, b: u32) -> u32
    ensures { result ≡ operate_of RegisterOp.MulHighUnsigned a b }
{
    (u64::from(a) * u64::from(b) >> 32) as u32
}

fn div(a: u32, b: u32) -> u32
    ensures { result ≡ operate_of RegisterOp.Div a b }
{
    if b == 0 {
        u32::MAX
    } else {
        a.cast_signed()
            .wrapping_div(b.cast_signed())
            .cast_unsigned()
    }
}

fn rem(a: u32, b: u32) -> u32
    ensures { result ≡ operate_of RegisterOp.Rem a b }
{
    if b == 0 {
        a
    } else {
        a.cast_signed()
            .wrapping_rem(b.cast_signed())
            .cast_unsigned()
    }
}

/// The value of an operation on two registers.
#[inline(always)]
pub fn operate(op: RegisterOp, a: u32, b: u32) -> u32
    ensures { result ≡ operate_of op a b }
{
    match op {
        RegisterOp::Add => a.wrapping_add(b),
        RegisterOp::Sub => a.wrapping_sub(b),
        RegisterOp::ShiftLeft => a << (b % 32),
        RegisterOp::Less => u32::from(a.cast_signed() < b.cast_signed()),
        RegisterOp::LessUnsigned => u32::from(a < b),
        RegisterOp::Xor => a ^ b,
        RegisterOp::ShiftRight => a >> (b % 32),
        RegisterOp::ShiftRightArithmetic => shift_right_arithmetic(a, b % 32),
        RegisterOp::Or => a | b,
        RegisterOp::And => a & b,
        RegisterOp::Mul => a.wrapping_mul(b),
        RegisterOp::MulHigh => mul_high(a, b),
        RegisterOp::MulHighSignedUnsigned => mul_high_signed_unsigned(a, b),
        RegisterOp::MulHighUnsigned => mul_high_unsigned(a, b),
        RegisterOp::Div => div(a, b),
        RegisterOp::DivUnsigned => if b == 0 { u32::MAX } else { a / b },
        RegisterOp::Rem => rem(a, b),
        RegisterOp::RemUnsigned => if b == 0 { a } else { a % b },
    }
}

/// The value of an operation on a register and an immediate.
#[inline(always)]
pub fn operate_immediate(op: ImmediateOp, a: u32, b: u32) -> u32
    ensures { result ≡ operate_immediate_of op a b }
{
    match op {
        ImmediateOp::Add => a.wrapping_add(b),
        ImmediateOp::Less => u32::from(a.cast_signed() < b.cast_signed()),
        ImmediateOp::LessUnsigned => u32::from(a < b),
        ImmediateOp::Xor => a ^ b,
        ImmediateOp::Or => a | b,
        ImmediateOp::And => a & b,
    }
}

/// The value of a shift by a constant distance.
#[inline(always)]
pub fn shift(op: ShiftOp, a: u32, amount: u8) -> u32
    requires { amount < 2 ^ 5 }
    ensures { result ≡ shift_by op a amount }
{
    match op {
        ShiftOp::Left => a << amount,
        ShiftOp::Right => a >> amount,
        ShiftOp::RightArithmetic => shift_right_arithmetic(a, u32::from(amount)),
    }
}
