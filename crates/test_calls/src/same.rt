//! Equality of faults and tokens under two tables of names.

use lexer::{Kind, Token};
use phases::PpToken;
use srcset::{Fault, Names, Pos};

pub fn is_same_fault(a: &Fault, b: &Fault) -> bool {
    a.code == b.code
        && a.line == b.line
        && a.file.as_bytes() == b.file.as_bytes()
        && a.text.as_bytes() == b.text.as_bytes()
}

fn is_same_text(a: usize, names: &Names, b: usize, others: &Names) -> bool {
    match (names.text(a), others.text(b)) {
        (Some(a), Some(b)) => a == b,
        _ => false,
    }
}

fn is_same_place(a: Pos, names: &Names, b: Pos, others: &Names) -> bool {
    a.line == b.line && is_same_text(a.file, names, b.file, others)
}

pub fn is_same_pp(a: &PpToken, names: &Names, b: &PpToken, others: &Names) -> bool {
    a.kind() == b.kind()
        && a.space_before() == b.space_before()
        && a.spelling() == b.spelling()
        && is_same_place(a.pos(), names, b.pos(), others)
}

fn is_same_kind(a: Kind, names: &Names, b: Kind, others: &Names) -> bool {
    match (a, b) {
        (Kind::Identifier(a), Kind::Identifier(b)) => is_same_text(a, names, b, others),
        (Kind::StringLiteral(a), Kind::StringLiteral(b)) => is_same_text(a, names, b, others),
        (Kind::Constant(of, a), Kind::Constant(other, b)) => of == other && a == b,
        (Kind::Keyword(a), Kind::Keyword(b)) => a == b,
        (Kind::Punctuator(a), Kind::Punctuator(b)) => a == b,
        _ => false,
    }
}

fn are_same(list: &[Token], names: &Names, other: &[Token], others: &Names) -> bool {
    if list.len() != other.len() {
        return false;
    }
    for (a, b) in list.iter().zip(other) {
        if !is_same_kind(a.kind, names, b.kind, others)
            || !is_same_place(a.pos, names, b.pos, others)
        {
            return false;
        }
    }
    true
}

pub fn is_same_reading(
    a: &Result<Vec<Token>, Fault>,
    names: &Names,
    b: &Result<Vec<Token>, Fault>,
    others: &Names,
) -> bool {
    match a {
        Ok(list) => match b {
            Ok(other) => are_same(list.as_slice(), names, other.as_slice(), others),
            Err(_) => false,
        },
        Err(fault) => match b {
            Ok(_) => false,
            Err(other) => is_same_fault(fault, other),
        },
    }
}
