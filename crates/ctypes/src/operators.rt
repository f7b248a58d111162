//! Binary operators, and the kinds of undefined behaviour.

ghost use Rattle.std.specs.Prelude.{◌≡◌};
ghost use Rattle.ctypes.specs.Arithmetic.{number_of, result_type};

use crate::types::IntType;

/// A binary operator on integers (6.5.5 to 6.5.12).
#[derive(Clone, Copy, PartialEq, Eq, Debug)]
pub enum BinOp {
    /// `*`
    Mul,
    /// `/`
    Div,
    /// `%`
    Rem,
    /// `+`
    Add,
    /// `-`
    Sub,
    /// `<<`
    Shl,
    /// `>>`
    Shr,
    /// `<`
    Less,
    /// `>`
    Greater,
    /// `<=`
    LessEqual,
    /// `>=`
    GreaterEqual,
    /// `==`
    Equal,
    /// `!=`
    NotEqual,
    /// `&`
    BitAnd,
    /// `^`
    BitXor,
    /// `|`
    BitOr,
}

impl BinOp {
    /// The type of the result, where `ty` is that of the operands (of a shift, of the left one):
    /// `Int` for a comparison (6.5.8p6, 6.5.9p3), else `ty`.
    pub fn result_type(self, ty: IntType) -> IntType
        ensures { result ≡ result_type self ty }
    {
        match self {
            BinOp::Less | BinOp::Greater | BinOp::LessEqual | BinOp::GreaterEqual => IntType::Int,
            BinOp::Equal | BinOp::NotEqual => IntType::Int,
            _ => ty,
        }
    }
}

/// The kinds of undefined behaviour of a program.
#[derive(Clone, Copy, PartialEq, Eq, Debug)]
pub enum Undef {
    /// Signed arithmetic out of range, also the least number by -1 under `/` and `%` (6.5p5, 6.5.5p6).
    U1,
    /// A zero divisor (6.5.5p5).
    U2,
    /// A shift count that is negative or not less than the width (6.5.7p3).
    U3,
    /// A left shift of a negative number, or out of range (6.5.7p4).
    U4,
    /// A subscript outside its array (6.5.6p8).
    U5,
    /// Reading an element with no value yet (6.3.2.1p2); of a character type too, this profile's choice.
    U6,
    /// Writing into a string literal (6.4.5p7).
    U7,
    /// Using the value of a call that ended without one (6.9.1p12).
    U8,
}

impl Undef {
    /// The number in its name, 1 to 8.
    pub fn number(self) -> u8
        ensures { result ≡ number_of self }
    {
        match self {
            Undef::U1 => 1,
            Undef::U2 => 2,
            Undef::U3 => 3,
            Undef::U4 => 4,
            Undef::U5 => 5,
            Undef::U6 => 6,
            Undef::U7 => 7,
            Undef::U8 => 8,
        }
    }
}
