//! Which values an expression may have, by its types and constants alone.

use ctypes::{BinOp, IntType};
use tree::PrefixOp;
use typed_ast::Value;

/// The values from the least to the greatest.
#[derive(Clone, Copy, Debug, PartialEq, Eq)]
pub(crate) struct Span {
    pub(crate) least: i64,
    pub(crate) greatest: i64,
}

impl Span {
    /// All values of a type.
    fn of_type(ty: IntType) -> Span {
        Span {
            least: ty.min(),
            greatest: ty.max(),
        }
    }

    /// One value.
    fn one(value: i64) -> Span {
        Span {
            least: value,
            greatest: value,
        }
    }

    /// Whether there is one value alone.
    pub(crate) fn is_one(self) -> bool {
        self.least == self.greatest
    }

    /// The values after a conversion to a type (6.3.1.3): the same where the type has them all.
    fn converted(self, ty: IntType) -> Span {
        let whole = Span::of_type(ty);
        if whole.least <= self.least && self.greatest <= whole.greatest {
            self
        } else {
            whole
        }
    }

    /// The values of an operation on one value each, computed in a type; all values of the type where they are several, or the result is none of it.
    fn operated(self, op: BinOp, other: Span, ty: IntType) -> Span {
        let whole = Span::of_type(ty);
        if !self.is_one() || !other.is_one() {
            return whole;
        }
        let value = match op {
            BinOp::Add => self.least.checked_add(other.least),
            BinOp::Sub => self.least.checked_sub(other.least),
            BinOp::Mul => self.least.checked_mul(other.least),
            _ => None,
        };
        match value {
            Some(value) if whole.least <= value && value <= whole.greatest => Span::one(value),
            _ => whole,
        }
    }

    /// The values of `&` with values that are not negative: none is greater than the least of the greatest.
    fn masked(self, other: Span, ty: IntType) -> Span {
        if self.least >= 0 && other.least >= 0 {
            Span {
                least: 0,
                greatest: self.greatest.min(other.greatest),
            }
        } else if other.least >= 0 {
            Span {
                least: 0,
                greatest: other.greatest,
            }
        } else if self.least >= 0 {
            Span {
                least: 0,
                greatest: self.greatest,
            }
        } else {
            Span::of_type(ty)
        }
    }
}

/// The values that an expression may have.
pub(crate) fn span_of(value: &Value) -> Span {
    match value {
        Value::Constant(_, number) => Span::one(*number),
        Value::Read(ty, _) => Span::of_type(*ty),
        Value::Assigned(_, ty, _, stored) => span_of(stored).converted(*ty),
        Value::Compound(_, _, ty, _, _, _) => Span::of_type(*ty),
        Value::Stepped(_, _, _, ty, _, _) => Span::of_type(*ty),
        Value::Unary(_, op, ty, operand) => signed(*op, *ty, span_of(operand).converted(*ty)),
        Value::Binary(_, op, ty, left, right) => {
            let left = span_of(left).converted(*ty);
            binary_range(*op, *ty, left, span_of(right))
        }
        Value::BothTrue(_, _) => truth(),
        Value::OneTrue(_, _) => truth(),
        Value::Chosen(Some(ty), _, _, _) => Span::of_type(*ty),
        Value::Chosen(None, _, _, _) => Span::of_type(IntType::Int),
        Value::Sequence(_, last) => span_of(last),
        Value::Cast(ty, operand) => span_of(operand).converted(*ty),
        Value::Discarded(_) => Span::of_type(IntType::Int),
        Value::Call(_, _, Some(ty), _, _) => Span::of_type(*ty),
        Value::Call(_, _, None, _, _) => Span::of_type(IntType::Int),
    }
}

/// 0 and 1.
fn truth() -> Span {
    Span {
        least: 0,
        greatest: 1,
    }
}

fn signed(op: PrefixOp, ty: IntType, operand: Span) -> Span {
    match op {
        PrefixOp::Plus => operand,
        PrefixOp::Minus => Span::one(0).operated(BinOp::Sub, operand, ty),
        PrefixOp::Complement => Span::of_type(ty),
        PrefixOp::Not => turned(operand),
    }
}

/// The values of `!`.
fn turned(operand: Span) -> Span {
    if !operand.is_one() {
        truth()
    } else if operand.least == 0 {
        Span::one(1)
    } else {
        Span::one(0)
    }
}

/// The values of a comparison: one where both operands have one value.
fn compared(op: BinOp, left: Span, right: Span) -> Span {
    if !left.is_one() || !right.is_one() {
        return truth();
    }
    let holds = match op {
        BinOp::Less => left.least < right.least,
        BinOp::Greater => left.least > right.least,
        BinOp::LessEqual => left.least <= right.least,
        BinOp::GreaterEqual => left.least >= right.least,
        BinOp::Equal => left.least == right.least,
        BinOp::NotEqual => left.least != right.least,
        _ => return truth(),
    };
    if holds { Span::one(1) } else { Span::one(0) }
}

/// The values of an operation whose left operand is converted.
fn binary_range(op: BinOp, ty: IntType, left: Span, right: Span) -> Span {
    match op {
        BinOp::Less | BinOp::Greater | BinOp::LessEqual | BinOp::GreaterEqual => {
            compared(op, left, right.converted(ty))
        }
        BinOp::Equal | BinOp::NotEqual => compared(op, left, right.converted(ty)),
        BinOp::BitAnd => left.masked(right.converted(ty), ty),
        BinOp::Shl | BinOp::Shr => Span::of_type(ty),
        _ => left.operated(op, right.converted(ty), ty),
    }
}

/// The result that a comparison in a type has for all values of its operands that are not both constant; `None` where it may have both results, or is none.
pub(crate) fn constant_result(op: BinOp, ty: IntType, left: &Value, right: &Value) -> Option<bool> {
    let left = span_of(left).converted(ty);
    let right = span_of(right).converted(ty);
    if left.is_one() && right.is_one() {
        return None;
    }
    match op {
        BinOp::Less => ordered(left, right),
        BinOp::Greater => ordered(right, left),
        BinOp::LessEqual => not(ordered(right, left)),
        BinOp::GreaterEqual => not(ordered(left, right)),
        BinOp::Equal => if_apart(left, right, false),
        BinOp::NotEqual => if_apart(left, right, true),
        _ => None,
    }
}

/// Whether each of the first values is less than each of the second, or none is.
fn ordered(left: Span, right: Span) -> Option<bool> {
    if left.greatest < right.least {
        Some(true)
    } else if left.least >= right.greatest {
        Some(false)
    } else {
        None
    }
}

fn not(known: Option<bool>) -> Option<bool> {
    match known {
        Some(holds) => Some(!holds),
        None => None,
    }
}

/// A result, where no value is one of both.
fn if_apart(left: Span, right: Span, holds: bool) -> Option<bool> {
    if left.greatest < right.least || right.greatest < left.least {
        Some(holds)
    } else {
        None
    }
}
