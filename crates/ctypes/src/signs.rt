//! Unary operators, by the binary ones (6.5.3.3).

ghost use Rattle.std.specs.Prelude.{◌≡◌, not, pos, negsuc, Ok, IfOk};
ghost use Rattle.ctypes.specs.Types.{IsValueOf, truth, of_truth, converted};
ghost use Rattle.ctypes.specs.Arithmetic.{computed};
ghost use Rattle.ctypes.specs.declared.operators.BinOp.TheVariants as op;

use crate::arithmetic::binary;
use crate::operators::{BinOp, Undef};
use crate::types::{IntType, convert, low_word};

/// The value of `-a` in its promoted type (6.5.3.3p3): `0 - a`.
///
/// Errors: `U1` out of range of a signed type, as of the least number.
pub fn negate(ty: IntType, a: i64) -> Result<i64, Undef>
    requires { IsValueOf ty a }
    ensures value { result ≡ computed op.Sub ty (pos 0) a }
    ensures range { IfOk result (λ v. IsValueOf ty v) }
{
    binary(BinOp::Sub, ty, 0, a)
}

/// The value of `~a` in its promoted type (6.5.3.3p4): every bit changed, that is `a ^ -1`.
pub fn complement(ty: IntType, a: i64) -> i64
    requires { IsValueOf ty a }
    ensures value { computed op.BitXor ty a (converted ty (negsuc 0)) ≡ Ok result }
    ensures range { IsValueOf ty result }
{
    convert(ty, i64::from(low_word(a) ^ low_word(convert(ty, -1))))
}

/// The value of `!a` as `int` (6.5.3.3p5): `a == 0`.
pub fn is_zero(a: i64) -> i64
    ensures value { result ≡ of_truth (not (truth a)) }
    ensures equal { (ty : IntType) → computed op.Equal ty a (pos 0) ≡ Ok result }
    ensures range { IsValueOf IntType.Int result }
{
    i64::from(a == 0)
}
