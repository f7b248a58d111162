//! Constants: those of the source (6.4.4), and the values of constant expressions (6.6).
#![tactic(auto, using(typing_expressions::proofs::Verdicts::tells_then, typing_expressions::proofs::Verdicts::tells_of))]

ghost use Rattle.std.specs.Prelude.{◌≡◌, IfErr, IfOk};
ghost use Rattle.ctypes.specs.Types.{converted};
ghost use Rattle.typing_spec.specs.Verdict.{fine, then_check};
ghost use Rattle.typing_spec.specs.Expressions as typed;
ghost use Rattle.typing_spec.specs.Program as program_typed;
ghost use Rattle.typing_expressions.specs.Refused.{Tells};
ghost use Rattle.typing_expressions.specs.Forms.{checked_of, worth_of};
ghost use Rattle.const_expr.specs.Typings.{constant_of, natural};

use crate::folding::folded;
use crate::type_names::positive;
use ctypes::{IntType, convert};
use srcset::{Code, Pos, Refusal};
use std::alloc::Global;
use typed_ast::Value;
use typing_expressions::{Checked, Worth, valued};

/// The type and the value of a constant expression.
#[derive(Clone, Copy)]
pub struct Constant {
    pub ty: IntType,
    pub value: i64,
}

/// A constant of the source (6.4.4).
#[inline(never)]
pub(crate) fn source_constant<'s>(pos: Pos, ty: IntType, value: u32) -> Checked<'s>
    ensures { typed.value pos ty (program_typed.constant ty (converted ty (natural value))) ≡ checked_of result }
{
    let value = convert(ty, i64::from(value));
    Checked::Value(pos, ty, Value::Constant(ty, value))
}

fn position(x: &Checked) -> Pos
    ensures { result ≡ typed.position (checked_of x.now) }
{
    match x {
        Checked::Value(pos, _, _) => *pos,
        Checked::Object(pos, _, _, _) => *pos,
        Checked::Array(pos, _, _, _) => *pos,
        Checked::Unsized(pos, _, _) => *pos,
        Checked::Reference(pos, _, _) => *pos,
        Checked::Nothing(pos, _) => *pos,
        Checked::Designator(pos) => *pos,
    }
}

/// An expression of integer type (6.6p6).
pub(crate) fn integer(alloc: Global, x: Checked) -> Result<Worth, Refusal>
    ensures ok { IfOk result (λ w. typed.integer (checked_of x.entry) ≡ fine (worth_of w)) }
    ensures err { IfErr result (λ r. Tells r (typed.integer (checked_of x.entry))) }
{
    let pos = position(&x);
    valued(alloc, Code::NotConstantExpression, pos, x)
}

/// The type and the value of an expression that is constant.
pub(crate) fn constant_in(x: &Worth) -> Result<Constant, Refusal>
    ensures ok { IfOk result (λ c. typed.constant_in (worth_of x.now) ≡ fine (constant_of c)) }
    ensures err { IfErr result (λ r. Tells r (typed.constant_in (worth_of x.now))) }
{
    match folded(&x.value) {
        Ok(value) => Ok(Constant { ty: x.ty, value }),
        Err(refusal) => Err(refusal),
    }
}

/// The type and the value of an expression that is typed.
pub(crate) fn constant_worth(alloc: Global, x: Checked) -> Result<Constant, Refusal>
    ensures ok { IfOk result (λ c. then_check (typed.integer (checked_of x.entry)) typed.constant_in ≡ fine (constant_of c)) }
    ensures err { IfErr result (λ r. Tells r (then_check (typed.integer (checked_of x.entry)) typed.constant_in)) }
{
    match integer(alloc, x) {
        Ok(x) => constant_in(&x),
        Err(refusal) => Err(refusal),
    }
}

/// A size in the name of a type (6.7.6.2p1).
#[inline(never)]
pub(crate) fn size_in(alloc: Global, pos: Pos, x: Checked) -> Result<u64, Refusal>
    ensures ok { IfOk result (λ n. typed.size_in pos (checked_of x.entry) ≡ fine n) }
    ensures err { IfErr result (λ r. Tells r (typed.size_in pos (checked_of x.entry))) }
{
    let x = match integer(alloc, x) {
        Ok(x) => x,
        Err(refusal) => return Err(refusal),
    };
    let size = match constant_in(&x) {
        Ok(size) => size,
        Err(refusal) => return Err(refusal),
    };
    positive(pos, size.value)
}
