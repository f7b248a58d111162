//! Casts (6.5.4): to `void`, or to a type of numbers.
#![tactic(auto, using(typing_expressions::proofs::Verdicts::tells_then))]

ghost use Rattle.std.specs.Prelude.{◌≡◌, IfErr, IfOk, None};
ghost use Rattle.typing_spec.specs.Verdict.{fine};
ghost use Rattle.typing_spec.specs.Expressions as typed;
ghost use Rattle.typing_spec.specs.Program as program_typed;
ghost use Rattle.srcset.specs.declared.refusal.Refusal.TheVariants.{Memory};
ghost use Rattle.typed_ast.specs.View.{value_of};
ghost use Rattle.typing_expressions.specs.Refused.{Tells};
ghost use Rattle.typing_expressions.specs.Forms.{checked_of, worth_of};
ghost use Rattle.const_expr.specs.Typings.{named_of, option_named};

use crate::type_names::NamedType;
use ctypes::IntType;
use srcset::{Code, Pos, Refusal};
use std::alloc::Global;
use typed_ast::Value;
use typing_expressions::{Checked, Worth, boxed, broken, effect, valued};

/// A value as one of another type.
fn converted(alloc: Global, ty: IntType, x: Worth) -> Result<Value, Refusal>
    ensures ok { IfOk result (λ e. value_of e ≡ program_typed.cast ty (value_of x.value)) }
    ensures err { IfErr result (λ r. r ≡ Memory) }
{
    match boxed(alloc, x.value) {
        Ok(value) => Ok(Value::Cast(ty, value)),
        Err(_) => Err(Refusal::Memory),
    }
}

/// A cast to a type of objects, which is no array (6.5.4p2).
fn cast_to_object<'s>(
    alloc: Global,
    pos: Pos,
    named: NamedType,
    x: Checked,
) -> Result<Checked<'s>, Refusal>
    ensures ok { IfOk result (λ c. typed.cast_to_object pos (named_of named) named.lengths.items (checked_of x.entry) ≡ fine (checked_of c)) }
    ensures err { IfErr result (λ r. Tells r (typed.cast_to_object pos (named_of named) named.lengths.items (checked_of x.entry))) }
{
    if !named.lengths.is_empty() {
        return Err(broken(Code::BadCast, pos));
    }
    let x = match valued(alloc, Code::VoidOperand, pos, x) {
        Ok(x) => x,
        Err(refusal) => return Err(refusal),
    };
    match converted(alloc, named.element, x) {
        Ok(value) => Ok(Checked::Value(pos, named.element, value)),
        Err(_) => Err(Refusal::Memory),
    }
}

/// A cast to `void` (6.3.2.2).
fn cast_to_void<'s>(alloc: Global, pos: Pos, x: Checked) -> Result<Checked<'s>, Refusal>
    ensures ok { IfOk result (λ c. typed.cast_to pos None (checked_of x.entry) ≡ fine (checked_of c)) }
    ensures err { IfErr result (λ r. Tells r (typed.cast_to pos None (checked_of x.entry))) }
{
    let value = match effect(alloc, x) {
        Ok(value) => value,
        Err(refusal) => return Err(refusal),
    };
    match boxed(alloc, value) {
        Ok(value) => Ok(Checked::Nothing(pos, Value::Discarded(value))),
        Err(_) => Err(Refusal::Memory),
    }
}

/// A cast to the type that is named (6.5.4).
#[inline(never)]
pub(crate) fn cast_to<'s>(
    alloc: Global,
    pos: Pos,
    named: Option<NamedType>,
    x: Checked,
) -> Result<Checked<'s>, Refusal>
    ensures ok { IfOk result (λ c. typed.cast_to pos (option_named named) (checked_of x.entry) ≡ fine (checked_of c)) }
    ensures err { IfErr result (λ r. Tells r (typed.cast_to pos (option_named named) (checked_of x.entry))) }
{
    match named {
        None => cast_to_void(alloc, pos, x),
        Some(named) => cast_to_object(alloc, pos, named, x),
    }
}
