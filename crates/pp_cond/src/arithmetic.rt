//! Operations on 64 bits, absent where one overflows, divides by zero or shifts by no count of a bit (ISO/IEC
//! 9899:2011 6.5).
ghost use Rattle.std.specs.Prelude.{◌≡◌, ◌≤◌, ◌<◌, ◌^◌, ◌*ℤ◌, true, false, pos, IfSome, Some, None};
ghost use Rattle.ctypes.specs.Types.{wrap, modulo};
ghost use Rattle.pp_cond.specs.Values.{computed, is_comparison, is_shift, is_count, in_range, prefixed};
ghost use Rattle.pp_cond.specs.inside.Operands.{natural};

use crate::operators::PrefixOperator;
use ctypes::BinOp;

fn multiply(a: i64, b: i64) -> Option<i64>
    ensures { result ≡ computed BinOp.Mul false a b }
{
    a.checked_mul(b)
}

fn divide(a: i64, b: i64) -> Option<i64>
    ensures { result ≡ computed BinOp.Div false a b }
{
    a.checked_div(b)
}

fn remainder(a: i64, b: i64) -> Option<i64>
    ensures { result ≡ computed BinOp.Rem false a b }
{
    a.checked_rem(b)
}

fn add(a: i64, b: i64) -> Option<i64>
    ensures { result ≡ computed BinOp.Add false a b }
{
    a.checked_add(b)
}

fn subtract(a: i64, b: i64) -> Option<i64>
    ensures { result ≡ computed BinOp.Sub false a b }
{
    a.checked_sub(b)
}

fn is_count(b: i64) -> bool
    ensures { result ≡ is_count b }
{
    0 <= b && b < 64
}

// A number below 2 to the 63 as one of intmax_t.
fn as_signed(number: u64) -> Option<i64>
    ensures { result ≡ in_range false (pos number) }
{
    if number < 0x8000_0000_0000_0000 {
        Some(number.cast_signed())
    } else {
        None
    }
}

// A number that is not negative, times 2 to the count.
fn times_power(a: u64, count: u32) -> Option<i64>
    requires { count < 64 }
    ensures { result ≡ in_range false (pos a *ℤ pos (2 ^ count)) }
{
    let Some(product) = a.checked_mul(2u64.pow(count)) else {
        return None;
    };
    as_signed(product)
}

fn shift_left(a: i64, b: i64) -> Option<i64>
    ensures { result ≡ computed BinOp.Shl false a b }
{
    if !is_count(b) || a < 0 {
        return None;
    }
    times_power(a.cast_unsigned(), b as u32)
}

fn shift_right(a: i64, b: i64) -> Option<i64>
    ensures { result ≡ computed BinOp.Shr false a b }
{
    if is_count(b) { Some(a >> b) } else { None }
}

fn bits(number: i64) -> u64
    ensures { result ≡ modulo 64 number }
{
    number.cast_unsigned()
}

fn of_bits(bits: u64) -> i64
    ensures { result ≡ wrap 64 (pos bits) }
{
    bits.cast_signed()
}

/// The operation on numbers of intmax_t.
pub(crate) fn on_signed(operator: BinOp, a: i64, b: i64) -> Option<i64>
    ensures { result ≡ computed operator false a b }
{
    match operator {
        BinOp::Mul => multiply(a, b),
        BinOp::Div => divide(a, b),
        BinOp::Rem => remainder(a, b),
        BinOp::Add => add(a, b),
        BinOp::Sub => subtract(a, b),
        BinOp::Shl => shift_left(a, b),
        BinOp::Shr => shift_right(a, b),
        BinOp::Less => Some(i64::from(a < b)),
        BinOp::Greater => Some(i64::from(b < a)),
        BinOp::LessEqual => Some(i64::from(a <= b)),
        BinOp::GreaterEqual => Some(i64::from(b <= a)),
        BinOp::Equal => Some(i64::from(a == b)),
        BinOp::NotEqual => Some(i64::from(a != b)),
        BinOp::BitAnd => Some(of_bits(bits(a) & bits(b))),
        BinOp::BitXor => Some(of_bits(bits(a) ^ bits(b))),
        BinOp::BitOr => Some(of_bits(bits(a) | bits(b))),
    }
}

fn multiply_unsigned(a: u64, b: u64) -> u64
    ensures { Some (pos result) ≡ computed BinOp.Mul true (pos a) (pos b) }
{
    a.wrapping_mul(b)
}

fn divide_unsigned(a: u64, b: u64) -> Option<u64>
    ensures { natural result ≡ computed BinOp.Div true (pos a) (pos b) }
{
    if b == 0 { None } else { Some(a / b) }
}

fn remainder_unsigned(a: u64, b: u64) -> Option<u64>
    ensures { natural result ≡ computed BinOp.Rem true (pos a) (pos b) }
{
    if b == 0 { None } else { Some(a % b) }
}

fn add_unsigned(a: u64, b: u64) -> u64
    ensures { Some (pos result) ≡ computed BinOp.Add true (pos a) (pos b) }
{
    a.wrapping_add(b)
}

fn subtract_unsigned(a: u64, b: u64) -> u64
    ensures { Some (pos result) ≡ computed BinOp.Sub true (pos a) (pos b) }
{
    a.wrapping_sub(b)
}

fn shift_left_unsigned(a: u64, b: u64) -> Option<u64>
    ensures { natural result ≡ computed BinOp.Shl true (pos a) (pos b) }
{
    if b < 64 { Some(a << b) } else { None }
}

fn shift_right_unsigned(a: u64, b: u64) -> Option<u64>
    ensures { natural result ≡ computed BinOp.Shr true (pos a) (pos b) }
{
    if b < 64 { Some(a >> b) } else { None }
}

/// The operation on numbers of uintmax_t.
pub(crate) fn on_unsigned(operator: BinOp, a: u64, b: u64) -> Option<u64>
    ensures value { natural result ≡ computed operator true (pos a) (pos b) }
    ensures truth { is_comparison operator ≡ true → IfSome result (λ v. v ≤ 1) }
{
    match operator {
        BinOp::Mul => Some(multiply_unsigned(a, b)),
        BinOp::Div => divide_unsigned(a, b),
        BinOp::Rem => remainder_unsigned(a, b),
        BinOp::Add => Some(add_unsigned(a, b)),
        BinOp::Sub => Some(subtract_unsigned(a, b)),
        BinOp::Shl => shift_left_unsigned(a, b),
        BinOp::Shr => shift_right_unsigned(a, b),
        BinOp::Less => Some(u64::from(a < b)),
        BinOp::Greater => Some(u64::from(b < a)),
        BinOp::LessEqual => Some(u64::from(a <= b)),
        BinOp::GreaterEqual => Some(u64::from(b <= a)),
        BinOp::Equal => Some(u64::from(a == b)),
        BinOp::NotEqual => Some(u64::from(a != b)),
        BinOp::BitAnd => Some(a & b),
        BinOp::BitXor => Some(a ^ b),
        BinOp::BitOr => Some(a | b),
    }
}

/// Whether it compares (6.5.8, 6.5.9).
pub(crate) fn is_comparison(operator: BinOp) -> bool
    ensures { result ≡ is_comparison operator }
{
    match operator {
        BinOp::Less | BinOp::Greater | BinOp::LessEqual | BinOp::GreaterEqual => true,
        BinOp::Equal | BinOp::NotEqual => true,
        _ => false,
    }
}

/// Whether it shifts (6.5.7).
pub(crate) fn is_shift(operator: BinOp) -> bool
    ensures { result ≡ is_shift operator }
{
    match operator {
        BinOp::Shl | BinOp::Shr => true,
        _ => false,
    }
}

/// The opposite number, absent for the least one.
pub(crate) fn opposite(number: i64) -> Option<i64>
    ensures { result ≡ prefixed PrefixOperator.Minus false number }
{
    number.checked_neg()
}

/// The opposite number modulo 2 to the 64.
pub(crate) fn opposite_unsigned(number: u64) -> u64
    ensures { Some (pos result) ≡ prefixed PrefixOperator.Minus true (pos number) }
{
    0u64.wrapping_sub(number)
}

/// The number with its bits inverted.
pub(crate) fn complement(number: i64) -> i64
    ensures { Some result ≡ prefixed PrefixOperator.Complement false number }
{
    -1 - number
}

/// The number with its bits inverted.
pub(crate) fn complement_unsigned(number: u64) -> u64
    ensures { Some (pos result) ≡ prefixed PrefixOperator.Complement true (pos number) }
{
    u64::MAX - number
}
