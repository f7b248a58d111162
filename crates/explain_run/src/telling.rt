//! The values of undefined behaviour in words.

use crate::refusals::{Operands, Values};
use ctypes::BinOp;
use std::alloc::{AllocError, Global};

/// The least and the greatest `int`.
const LEAST: i64 = -2147483648;

const GREATEST: i64 = 2147483647;

/// The reason why the values make the operation of this number undefined; `None` where they do not.
pub(crate) fn values_text(
    alloc: Global,
    act: u32,
    values: &Values,
) -> Result<Option<String>, AllocError> {
    match values {
        Values::Operands(operands) => operands_text(alloc, act, *operands),
        Values::Negated(value) => negation_text(alloc, *value),
        Values::Index(name, index, count) => {
            let (index, count) = (*index, *count);
            Ok(Some(format!(in alloc; "index {index} of {count} elements of `{name}`")?))
        }
        Values::Element(name, index) => element_text(alloc, act, name.as_str(), *index),
        Values::Whole(name) => whole_text(alloc, act, name.as_str()),
    }
}

/// The result of an operation where that is out of range for a signed one (6.5p5), of `%` the quotient (6.5.5p6); `None` where it is not.
fn out_of_range(op: BinOp, left: i64, right: i64) -> Option<i64> {
    let value = match op {
        BinOp::Add => left.checked_add(right)?,
        BinOp::Sub => left.checked_sub(right)?,
        BinOp::Mul => left.checked_mul(right)?,
        BinOp::Div | BinOp::Rem => left.checked_div(right)?,
        BinOp::Shl => shifted(left, right)?,
        _ => return None,
    };
    if value < LEAST || value > GREATEST {
        Some(value)
    } else {
        None
    }
}

/// A number times 2 to the power of another.
fn shifted(left: i64, right: i64) -> Option<i64> {
    let count = u32::try_from(right).ok()?;
    if count > 31 {
        return None;
    }
    left.checked_mul(1i64 << count)
}

/// The operator of an operation that may be undefined.
fn shown(op: BinOp) -> &'static str {
    match op {
        BinOp::Add => "+",
        BinOp::Sub => "-",
        BinOp::Mul => "*",
        BinOp::Div => "/",
        BinOp::Rem => "%",
        BinOp::Shl => "<<",
        BinOp::Shr => ">>",
        _ => "",
    }
}

/// The reason why two operands make the operation of this number undefined; `None` where they do not.
fn operands_text(
    alloc: Global,
    act: u32,
    operands: Operands,
) -> Result<Option<String>, AllocError> {
    let (a, b, sign) = (operands.left, operands.right, shown(operands.op));
    match act {
        1 => range_text(alloc, operands),
        2 if b == 0 => Ok(Some(format!(in alloc; "{a} {sign} 0")?)),
        3 if b < 0 || b > 31 => {
            let kind = if operands.is_unsigned {
                "unsigned int"
            } else {
                "int"
            };
            Ok(Some(format!(in alloc; "shift by {b} of a 32-bit {kind}")?))
        }
        4 if a < 0 => Ok(Some(format!(in alloc; "{a} {sign} {b}: the left operand is negative")?)),
        4 => range_text(alloc, operands),
        _ => Ok(None),
    }
}

/// The words between an operation and the number that is out of range: its result, or the quotient.
fn result_words(op: BinOp) -> &'static str {
    match op {
        BinOp::Rem => ": the quotient is",
        _ => " is",
    }
}

/// The reason why a result out of range is undefined.
fn range_text(alloc: Global, operands: Operands) -> Result<Option<String>, AllocError> {
    let (a, b, sign) = (operands.left, operands.right, shown(operands.op));
    match out_of_range(operands.op, a, b) {
        Some(value) => {
            let words = result_words(operands.op);
            Ok(Some(format!(in alloc;
                "{a} {sign} {b}{words} {value}, and an int holds {LEAST} to {GREATEST}"
            )?))
        }
        None => Ok(None),
    }
}

/// The reason why a negated operand is undefined.
fn negation_text(alloc: Global, value: i64) -> Result<Option<String>, AllocError> {
    if value != LEAST {
        return Ok(None);
    }
    Ok(Some(format!(in alloc; "-({LEAST}) is 2147483648, and an int holds {LEAST} to {GREATEST}")?))
}

/// The reason why an access to an element of the array of this name is undefined.
fn element_text(
    alloc: Global,
    act: u32,
    name: &str,
    index: usize,
) -> Result<Option<String>, AllocError> {
    match act {
        6 => Ok(Some(format!(in alloc; "element {index} of `{name}` has no value")?)),
        7 => Ok(Some(format!(in alloc; "element {index} of `{name}` is of a string literal")?)),
        _ => Ok(None),
    }
}

/// The reason why an access to an object that is no array is undefined.
fn whole_text(alloc: Global, act: u32, name: &str) -> Result<Option<String>, AllocError> {
    match act {
        6 => Ok(Some(format!(in alloc; "`{name}` has no value")?)),
        _ => Ok(None),
    }
}
