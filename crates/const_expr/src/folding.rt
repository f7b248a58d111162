//! The value of a typed expression that is constant (6.6p4).
#![tactic(auto)]

ghost use Rattle.std.specs.Prelude.{◌≡◌, ℤ, IfErr, IfOk};
ghost use Rattle.ctypes.specs.Arithmetic.{RightIsValueOf};
ghost use Rattle.ctypes.specs.Types as ctype;
ghost use Rattle.typing_spec.specs.Verdict.{fine, breaks};
ghost use Rattle.srcset.specs.declared.code.Code.TheVariants as code;
ghost use Rattle.typing_spec.specs.Constants as typed;
ghost use Rattle.typing_spec.specs.Operators as operators;
ghost use Rattle.typed_ast.specs.View.{value_of, place_of};
ghost use Rattle.typing_expressions.specs.Refused.{IsOf};

use ctypes::{BinOp, IntType, Undef, binary, complement, convert, is_zero, negate};
use srcset::{Code, Pos, Refusal};
use tree::PrefixOp;
use typed_ast::{Place, Value};

/// The result of a sign on a value (6.5.3.3).
fn sign_of(op: PrefixOp, ty: IntType, value: i64) -> Result<i64, Undef>
    ensures { result ≡ operators.sign_of op ty value }
{
    let value = convert(ty, value);
    match op {
        PrefixOp::Plus => Ok(value),
        PrefixOp::Minus => negate(ty, value),
        PrefixOp::Complement => Ok(complement(ty, value)),
        PrefixOp::Not => Ok(is_zero(value)),
    }
}

/// The right operand as it is computed with: a shift's keeps its own type (6.5.7p3).
fn right_operand(op: BinOp, ty: IntType, value: i64) -> i64
    ensures value { result ≡ operators.right_operand op ty value }
    ensures fits { RightIsValueOf op ty result }
{
    match op {
        BinOp::Shl | BinOp::Shr => value,
        _ => convert(ty, value),
    }
}

/// An operation on the values of its operands, each of its own type.
fn operated(op: BinOp, ty: IntType, a: i64, b: i64) -> Result<i64, Undef>
    ensures { result ≡ operators.operated op ty a b }
{
    binary(op, ty, convert(ty, a), right_operand(op, ty, b))
}

/// The value of an operation that is evaluated: 503 of a zero divisor, 502 of another one without a value.
fn present(pos: Pos, value: Result<i64, Undef>) -> Result<i64, Refusal>
    ensures ok { IfOk result (λ v. typed.present pos value ≡ fine v) }
    ensures err { IfErr result (λ r. IsOf r (typed.present pos value)) }
{
    match value {
        Ok(value) => Ok(value),
        Err(Undef::U2) => Err(Refusal::At {
            code: Code::ConstantDivisionByZero,
            pos,
        }),
        Err(_) => Err(Refusal::At {
            code: Code::ConstantExpressionOutOfRange,
            pos,
        }),
    }
}

fn place_position(place: &Place) -> Pos
    ensures { result ≡ typed.place_position (place_of place.now) }
{
    match place {
        Place::Named(pos, _) => *pos,
        Place::Element(pos, _, _) => *pos,
    }
}

fn to_arm(ty: Option<IntType>, value: i64) -> i64
    ensures { typed.to_arm ty (fine value) ≡ fine result }
{
    match ty {
        Some(ty) => convert(ty, value),
        None => value,
    }
}

fn truth_of(value: i64) -> i64
    ensures { typed.truth_of (fine value) ≡ fine result }
{
    i64::from(value != 0)
}

fn is_true(value: i64) -> bool
    ensures { result ≡ ctype.truth value }
{
    value != 0
}

fn not_constant(pos: Pos) -> Refusal
    ensures { IsOf {A = ℤ} result (breaks code.NotConstantExpression pos) }
{
    Refusal::At {
        code: Code::NotConstantExpression,
        pos,
    }
}

/// The value of a typed expression as far as it is evaluated, operands from the left. Else it fails with 501 at an operand that has no constant value, 503 at
/// the first division by zero that is evaluated, or 502 at the first other operation without a value.
///
/// Its recursion is no deeper than the expression.
pub fn folded(e: &Value) -> Result<i64, Refusal>
    ensures ok { IfOk result (λ v. typed.folded (value_of e.now) ≡ fine v) }
    ensures err { IfErr result (λ r. IsOf r (typed.folded (value_of e.now))) }
{
    match e {
        Value::Constant(_, value) => Ok(*value),
        Value::Cast(ty, e) => Ok(convert(*ty, folded(e)?)),
        Value::Discarded(e) => folded(e),
        Value::Unary(pos, op, ty, e) => {
            let value = folded(e)?;
            present(*pos, sign_of(*op, *ty, value))
        }
        Value::Binary(pos, op, ty, a, b) => {
            let a = folded(a)?;
            let b = folded(b)?;
            present(*pos, operated(*op, *ty, a, b))
        }
        Value::BothTrue(a, b) => {
            if !is_true(folded(a)?) {
                return Ok(0);
            }
            Ok(truth_of(folded(b)?))
        }
        Value::OneTrue(a, b) => {
            if is_true(folded(a)?) {
                return Ok(1);
            }
            Ok(truth_of(folded(b)?))
        }
        Value::Chosen(ty, c, a, b) => {
            if is_true(folded(c)?) {
                return Ok(to_arm(*ty, folded(a)?));
            }
            Ok(to_arm(*ty, folded(b)?))
        }
        Value::Sequence(a, b) => {
            folded(a)?;
            folded(b)
        }
        Value::Read(_, place) => Err(not_constant(place_position(place))),
        Value::Assigned(pos, ..) | Value::Compound(pos, ..) => Err(not_constant(*pos)),
        Value::Stepped(pos, ..) | Value::Call(pos, ..) => Err(not_constant(*pos)),
    }
}
