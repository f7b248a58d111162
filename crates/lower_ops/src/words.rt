//! Words that need no conversion, and how words are read.

ghost use Rattle.std.specs.Prelude.{◌≡◌, int_le};
ghost use Rattle.tac_code.specs.Run.{word_for};
ghost use Rattle.lower_correct.specs.Asked as asked;
ghost use Rattle.lower_correct.specs.Values as values;

use crate::bools::either;
use ctypes::{BinOp, IntType};
use tac_code::Reading;
use tree::PrefixOp;

/// A small type that has this value, else its own.
pub fn smallest(ty: IntType, value: i64) -> IntType
    ensures { result ≡ values.smallest ty value }
{
    if IntType::Bool.contains(value) {
        IntType::Bool
    } else if IntType::UChar.contains(value) {
        IntType::UChar
    } else if IntType::SChar.contains(value) {
        IntType::SChar
    } else if IntType::UShort.contains(value) {
        IntType::UShort
    } else if IntType::Short.contains(value) {
        IntType::Short
    } else {
        ty
    }
}

/// A type that has each value of an operation of this type: a comparison gives 0 or 1 (6.5.8p6, 6.5.9p3).
pub fn computed_extent(op: BinOp, ty: IntType) -> IntType
    ensures { result ≡ values.computed_extent op ty }
{
    match op {
        BinOp::Less => IntType::Bool,
        BinOp::Greater => IntType::Bool,
        BinOp::LessEqual => IntType::Bool,
        BinOp::GreaterEqual => IntType::Bool,
        BinOp::Equal => IntType::Bool,
        BinOp::NotEqual => IntType::Bool,
        BinOp::Mul => ty,
        BinOp::Div => ty,
        BinOp::Rem => ty,
        BinOp::Add => ty,
        BinOp::Sub => ty,
        BinOp::Shl => ty,
        BinOp::Shr => ty,
        BinOp::BitAnd => ty,
        BinOp::BitXor => ty,
        BinOp::BitOr => ty,
    }
}

/// A type that has each value of a sign of this type: `!` gives 0 or 1 (6.5.3.3p5).
pub fn signed_extent(op: PrefixOp, ty: IntType) -> IntType
    ensures { result ≡ values.signed_extent op ty }
{
    match op {
        PrefixOp::Not => IntType::Bool,
        PrefixOp::Plus => ty,
        PrefixOp::Minus => ty,
        PrefixOp::Complement => ty,
    }
}

/// The type, or `int` where there is none.
pub fn or_int(ty: Option<IntType>) -> IntType
    ensures { result ≡ values.or_int ty }
{
    match ty {
        None => IntType::Int,
        Some(ty) => ty,
    }
}

/// A type that the promotions give (6.3.1.1p2).
pub fn is_wide(ty: IntType) -> bool
    ensures { result ≡ asked.is_wide ty }
{
    match ty {
        IntType::Bool | IntType::Char | IntType::SChar | IntType::UChar => false,
        IntType::Short | IntType::UShort => false,
        IntType::Int | IntType::UInt | IntType::Long | IntType::ULong => true,
    }
}

/// Whether one number is no greater than another.
pub fn is_at_most(a: i64, b: i64) -> bool
    ensures { result ≡ int_le a b }
{
    a <= b
}

/// Whether a type has each value of another.
pub fn holds_all(ty: IntType, other: IntType) -> bool
    ensures { result ≡ values.holds_all ty other }
{
    is_at_most(ty.min(), other.min()) && is_at_most(other.max(), ty.max())
}

/// How the operations of a type read their words.
pub fn reading_of(ty: IntType) -> Reading
    ensures { result ≡ values.reading_of ty }
{
    if ty.is_signed() {
        Reading::Signed
    } else {
        Reading::Unsigned
    }
}

/// A number modulo 2^32.
pub fn word_of(number: i64) -> u32
    ensures { result ≡ word_for number }
{
    (number.cast_unsigned() % 0x1_0000_0000) as u32
}
