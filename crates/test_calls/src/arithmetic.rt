//! The types of C and their arithmetic.

use ctypes::{BinOp, IntType, Undef, binary, compatible, convert, promote, size_of, usual};
use test_rows::{Answer, Fields};

/// The type that a letter denotes.
pub fn int_type(letter: u8) -> IntType {
    match letter {
        b'b' => IntType::Bool,
        b'c' => IntType::Char,
        b'a' => IntType::SChar,
        b'h' => IntType::UChar,
        b's' => IntType::Short,
        b't' => IntType::UShort,
        b'j' => IntType::UInt,
        b'l' => IntType::Long,
        b'm' => IntType::ULong,
        _ => IntType::Int,
    }
}

/// The operator of a letter: its sign where that is one character, `L` and `R` for shifts, `l` and `g` for `<=` and `>=`.
fn operator(letter: u8) -> BinOp {
    match letter {
        b'*' => BinOp::Mul,
        b'/' => BinOp::Div,
        b'%' => BinOp::Rem,
        b'+' => BinOp::Add,
        b'-' => BinOp::Sub,
        b'L' => BinOp::Shl,
        b'R' => BinOp::Shr,
        b'<' => BinOp::Less,
        b'>' => BinOp::Greater,
        b'l' => BinOp::LessEqual,
        b'g' => BinOp::GreaterEqual,
        b'=' => BinOp::Equal,
        b'!' => BinOp::NotEqual,
        b'&' => BinOp::BitAnd,
        b'^' => BinOp::BitXor,
        _ => BinOp::BitOr,
    }
}

/// An operand, with its type before any conversion.
#[derive(Clone, Copy)]
struct Operand {
    of: IntType,
    value: i64,
}

/// The type and the value of an expression with one operator, by its operands before any conversion.
#[tactic(auto, using(ctypes::proofs::Uses::right_fits))]
fn evaluate(left: Operand, op: BinOp, right: Operand) -> (IntType, Result<i64, Undef>) {
    match op {
        BinOp::Shl | BinOp::Shr => {
            let of = promote(left.of);
            let count = convert(promote(right.of), right.value);
            (
                op.result_type(of),
                binary(op, of, convert(of, left.value), count),
            )
        }
        _ => {
            let of = usual(left.of, right.of);
            let left = convert(of, left.value);
            let right = convert(of, right.value);
            (op.result_type(of), binary(op, of, left, right))
        }
    }
}

fn operand_at(row: &Fields, at: usize) -> Operand {
    Operand {
        of: int_type(row.letter(at)),
        value: row.number(at.saturating_add(1)),
    }
}

/// `operation LEFT VALUE OPERATOR RIGHT VALUE`: the type and the value, or the undefined behaviour.
pub fn operation(row: &Fields, answer: &mut Answer) {
    let (of, value) = evaluate(
        operand_at(row, 1),
        operator(row.letter(3)),
        operand_at(row, 4),
    );
    answer.debug(&of);
    match value {
        Ok(value) => {
            answer.write(b" ");
            answer.show(&value);
        }
        Err(act) => {
            answer.write(b" U");
            answer.show(&act.number());
        }
    }
}

/// `conversion TYPE VALUE`: the number converted to the type, and whether the type has the number.
pub fn conversion(row: &Fields, answer: &mut Answer) {
    let Operand { of, value } = operand_at(row, 1);
    answer.show(&convert(of, value));
    answer.write(b" ");
    answer.show(&of.contains(value));
}

/// `type TYPE`: its size, limits, width and signedness.
pub fn type_of(row: &Fields, answer: &mut Answer) {
    let of = int_type(row.letter(1));
    answer.show(&size_of(of));
    answer.write(b" ");
    answer.show(&of.min());
    answer.write(b" ");
    answer.show(&of.max());
    answer.write(b" ");
    answer.show(&of.width());
    answer.write(b" ");
    answer.show(&of.is_signed());
}

/// `pair TYPE TYPE`: whether they are compatible, whether the second has the greater rank, whether the first has, and their common type.
pub fn pair(row: &Fields, answer: &mut Answer) {
    let left = int_type(row.letter(1));
    let right = int_type(row.letter(2));
    answer.show(&compatible(left, right));
    answer.write(b" ");
    answer.show(&(left.rank() < right.rank()));
    answer.write(b" ");
    answer.show(&(right.rank() < left.rank()));
    answer.write(b" ");
    answer.debug(&usual(left, right));
}
