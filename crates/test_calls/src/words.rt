//! The words and signs of trees.

use ctypes::IntType;
use tree::{AssignOp, BinaryOp, PrefixOp, StepOp, Word};

pub fn word_text(word: Word) -> &'static [u8] {
    match word {
        Word::Void => b"void",
        Word::Char => b"char",
        Word::Short => b"short",
        Word::Int => b"int",
        Word::Long => b"long",
        Word::Signed => b"signed",
        Word::Unsigned => b"unsigned",
        Word::Bool => b"_Bool",
    }
}

pub fn prefix_text(op: PrefixOp) -> &'static [u8] {
    match op {
        PrefixOp::Plus => b"(+",
        PrefixOp::Minus => b"(-",
        PrefixOp::Complement => b"(~",
        PrefixOp::Not => b"(!",
    }
}

pub fn step_text(op: StepOp) -> &'static [u8] {
    match op {
        StepOp::Increment => b"++",
        StepOp::Decrement => b"--",
    }
}

pub fn binary_text(op: BinaryOp) -> &'static [u8] {
    match op {
        BinaryOp::Mul => b" * ",
        BinaryOp::Div => b" / ",
        BinaryOp::Rem => b" % ",
        BinaryOp::Add => b" + ",
        BinaryOp::Sub => b" - ",
        BinaryOp::ShiftLeft => b" << ",
        BinaryOp::ShiftRight => b" >> ",
        BinaryOp::Less => b" < ",
        BinaryOp::Greater => b" > ",
        BinaryOp::LessEqual => b" <= ",
        BinaryOp::GreaterEqual => b" >= ",
        BinaryOp::Equal => b" == ",
        BinaryOp::NotEqual => b" != ",
        BinaryOp::BitAnd => b" & ",
        BinaryOp::BitXor => b" ^ ",
        BinaryOp::BitOr => b" | ",
        BinaryOp::And => b" && ",
        BinaryOp::Or => b" || ",
        BinaryOp::Comma => b", ",
    }
}

pub fn assign_text(op: AssignOp) -> &'static [u8] {
    match op {
        AssignOp::Plain => b" = ",
        AssignOp::Mul => b" *= ",
        AssignOp::Div => b" /= ",
        AssignOp::Rem => b" %= ",
        AssignOp::Add => b" += ",
        AssignOp::Sub => b" -= ",
        AssignOp::ShiftLeft => b" <<= ",
        AssignOp::ShiftRight => b" >>= ",
        AssignOp::BitAnd => b" &= ",
        AssignOp::BitXor => b" ^= ",
        AssignOp::BitOr => b" |= ",
    }
}

/// The suffix after the digits of a constant of this type (ISO/IEC 9899:2011 6.4.4.1).
pub fn suffix(ty: IntType) -> &'static [u8] {
    match ty {
        IntType::UInt => b"u",
        IntType::Long => b"l",
        IntType::ULong => b"ul",
        _ => b"",
    }
}
