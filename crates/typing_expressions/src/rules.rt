//! The typing rules of expressions, one a form (6.5), over parts that are typed.
#![tactic(auto, using(crate::proofs::Verdicts::tells_then))]

ghost use Rattle.std.specs.Prelude.{◌≡◌, IfErr, IfOk};
ghost use Rattle.std.specs.Prelude.{Some};
ghost use Rattle.typing_spec.specs.Verdict.{fine, then_check};
ghost use Rattle.typing_spec.specs.Operators as operators;
ghost use Rattle.typing_spec.specs.Program as program_typed;
ghost use Rattle.srcset.specs.declared.refusal.Refusal.TheVariants.{Memory};
ghost use Rattle.srcset.specs.declared.code.Code.TheVariants as code;
ghost use Rattle.typing_spec.specs.Expressions as typed;
ghost use Rattle.typed_ast.specs.View.{value_of, place_of};
ghost use Rattle.typing_expressions.specs.Refused.{Tells};
ghost use Rattle.typing_scopes.specs.Scopes.{meaning_of, option_binding};
ghost use Rattle.typing_expressions.specs.Forms.{checked_of, worth_of, elements_of};

use crate::forms::{
    Checked, Elements, Worth, boxed, broken, designated, elements_in, index, left_out, read, valued,
};
use ctypes::{BinOp, IntType, promote, usual};
use srcset::{Code, Pos, Refusal};
use std::alloc::Global;
use tree::PrefixOp;
use typed_ast::{DeclaredType, Place, Storage, Value};
use typing_scopes::{Binding, Meaning};

fn meant<'s>(pos: Pos, meaning: &'s Meaning) -> Checked<'s>
    ensures { typed.meant pos (meaning_of meaning.now) ≡ fine (checked_of result) }
{
    match meaning {
        Meaning::Object(what, DeclaredType::Complete(object)) => {
            designated(pos, elements_in(object), Place::Named(pos, *what))
        }
        Meaning::Object(what, DeclaredType::UnknownSize(elements)) => {
            Checked::Unsized(pos, elements_in(elements), Place::Named(pos, *what))
        }
        Meaning::ArrayParameter(n, elements) => {
            Checked::Reference(
                pos,
                elements_in(elements),
                Place::Named(pos, Storage::Parameter(*n)),
            )
        }
        Meaning::Function(_) => Checked::Designator(pos),
        Meaning::Enumerator(value) => {
            Checked::Value(pos, IntType::Int, Value::Constant(IntType::Int, *value))
        }
    }
}

/// A name (6.5.1).
#[inline(never)]
pub fn named<'s>(pos: Pos, binding: Option<&'s Binding>) -> Result<Checked<'s>, Refusal>
    ensures ok { IfOk result (λ x. typed.named pos (option_binding binding.entry) ≡ fine (checked_of x)) }
    ensures err { IfErr result (λ r. Tells r (typed.named pos (option_binding binding.entry))) }
{
    match binding {
        None => Err(broken(Code::UndeclaredName, pos)),
        Some(binding) => Ok(meant(pos, &binding.meaning)),
    }
}

fn element(alloc: Global, pos: Pos, array: Place, index: Worth) -> Result<Place, Refusal>
    ensures ok { IfOk result (λ p. place_of p ≡ program_typed.element pos (place_of array) (value_of index.value)) }
    ensures err { IfErr result (λ r. r ≡ Memory) }
{
    let Ok(array) = Box::new(alloc, array) else {
        return Err(Refusal::Memory);
    };
    let Ok(index) = Box::new(alloc, index.value) else {
        return Err(Refusal::Memory);
    };
    Ok(Place::Element(pos, array, index))
}

/// An element or a row of an array (6.5.2.1).
fn element_at<'s>(
    alloc: Global,
    pos: Pos,
    elements: Elements<'s>,
    array: Place,
    i: Checked,
) -> Result<Checked<'s>, Refusal>
    ensures ok { IfOk result (λ x. then_check (typed.index pos (checked_of i.entry)) (typed.element_at pos (Some (elements_of elements.entry)) (place_of array)) ≡ fine (checked_of x)) }
    ensures err { IfErr result (λ r. Tells r (then_check (typed.index pos (checked_of i.entry)) (typed.element_at pos (Some (elements_of elements.entry)) (place_of array)))) }
{
    let i = match index(alloc, pos, i) {
        Ok(i) => i,
        Err(refusal) => return Err(refusal),
    };
    match element(alloc, pos, array, i) {
        Ok(place) => Ok(designated(pos, elements, place)),
        Err(_) => Err(Refusal::Memory),
    }
}

/// A number has no elements; with an array as its index it is a subscript the other way round, which the profile leaves out.
fn no_array(pos: Pos, i: Checked) -> Refusal
    ensures { Tells result (typed.no_array pos (checked_of i.entry)) }
{
    match i {
        Checked::Value(_, _, _) => broken(Code::BadSubscript, pos),
        Checked::Object(_, _, _, _) => broken(Code::BadSubscript, pos),
        Checked::Array(_, _, _, _) => broken(Code::LeftOutReversedSubscript, pos),
        Checked::Unsized(_, _, _) => broken(Code::LeftOutReversedSubscript, pos),
        Checked::Reference(_, _, _) => broken(Code::LeftOutReversedSubscript, pos),
        Checked::Nothing(_, _) => broken(Code::BadSubscript, pos),
        Checked::Designator(_) => broken(Code::BadSubscript, pos),
    }
}

/// A subscript (6.5.2.1): an array and an index of integer type.
#[inline(never)]
pub fn subscripted<'s>(
    alloc: Global,
    pos: Pos,
    a: Checked<'s>,
    i: Checked,
) -> Result<Checked<'s>, Refusal>
    ensures ok { IfOk result (λ x. typed.subscripted pos (checked_of a.entry) (checked_of i.entry) ≡ fine (checked_of x)) }
    ensures err { IfErr result (λ r. Tells r (typed.subscripted pos (checked_of a.entry) (checked_of i.entry))) }
{
    match a {
        Checked::Array(_, _, elements, place) => element_at(alloc, pos, elements, place, i),
        Checked::Unsized(_, elements, place) => element_at(alloc, pos, elements, place, i),
        Checked::Reference(_, elements, place) => element_at(alloc, pos, elements, place, i),
        Checked::Value(_, _, _) => Err(no_array(pos, i)),
        Checked::Object(_, _, _, _) => Err(no_array(pos, i)),
        Checked::Nothing(_, _) => Err(broken(Code::BadSubscript, pos)),
        Checked::Designator(_) => Err(broken(Code::BadSubscript, pos)),
    }
}

fn signed_type(op: PrefixOp, ty: IntType) -> IntType
    ensures { result ≡ operators.signed_type op ty }
{
    match op {
        PrefixOp::Plus => ty,
        PrefixOp::Minus => ty,
        PrefixOp::Complement => ty,
        PrefixOp::Not => IntType::Int,
    }
}

/// A sign (6.5.3.3).
pub(crate) fn signed_value<'s>(
    alloc: Global,
    pos: Pos,
    op: PrefixOp,
    x: Worth,
) -> Result<Checked<'s>, Refusal>
    ensures ok { IfOk result (λ c. typed.signed_value pos op (worth_of x) ≡ fine (checked_of c)) }
    ensures err { IfErr result (λ r. r ≡ Memory) }
{
    let ty = promote(x.ty);
    match boxed(alloc, x.value) {
        Ok(value) => Ok(Checked::Value(pos, signed_type(op, ty), Value::Unary(pos, op, ty, value))),
        Err(_) => Err(Refusal::Memory),
    }
}

/// A sign and its operand (6.5.3.3).
#[inline(never)]
pub fn signed<'s>(alloc: Global, pos: Pos, op: PrefixOp, x: Checked) -> Result<Checked<'s>, Refusal>
    ensures ok { IfOk result (λ c. then_check (typed.worth code.VoidOperand pos (checked_of x.entry)) (typed.signed_value pos op) ≡ fine (checked_of c)) }
    ensures err { IfErr result (λ r. Tells r (then_check (typed.worth code.VoidOperand pos (checked_of x.entry)) (typed.signed_value pos op))) }
{
    let x = match valued(alloc, Code::VoidOperand, pos, x) {
        Ok(x) => x,
        Err(refusal) => return Err(refusal),
    };
    match signed_value(alloc, pos, op, x) {
        Ok(c) => Ok(c),
        Err(_) => Err(Refusal::Memory),
    }
}

/// The type to which the operands are converted.
pub(crate) fn operands_type(op: BinOp, a: IntType, b: IntType) -> IntType
    ensures { result ≡ operators.operands_type op a b }
{
    match op {
        BinOp::Shl | BinOp::Shr => promote(a),
        _ => usual(a, b),
    }
}

pub(crate) fn computed_by<'s>(
    alloc: Global,
    pos: Pos,
    op: BinOp,
    a: Worth,
    b: Worth,
) -> Result<Checked<'s>, Refusal>
    ensures ok { IfOk result (λ c. typed.computed_by pos op (worth_of a) (worth_of b) ≡ fine (checked_of c)) }
    ensures err { IfErr result (λ r. r ≡ Memory) }
{
    let ty = operands_type(op, a.ty, b.ty);
    let Ok(a) = boxed(alloc, a.value) else {
        return Err(Refusal::Memory);
    };
    let Ok(b) = boxed(alloc, b.value) else {
        return Err(Refusal::Memory);
    };
    Ok(Checked::Value(pos, op.result_type(ty), Value::Binary(pos, op, ty, a, b)))
}

pub(crate) fn conjunction<'s>(
    alloc: Global,
    pos: Pos,
    a: Worth,
    b: Worth,
) -> Result<Checked<'s>, Refusal>
    ensures ok { IfOk result (λ c. typed.conjunction pos (worth_of a) (worth_of b) ≡ fine (checked_of c)) }
    ensures err { IfErr result (λ r. r ≡ Memory) }
{
    let Ok(a) = boxed(alloc, a.value) else {
        return Err(Refusal::Memory);
    };
    let Ok(b) = boxed(alloc, b.value) else {
        return Err(Refusal::Memory);
    };
    Ok(Checked::Value(pos, IntType::Int, Value::BothTrue(a, b)))
}

pub(crate) fn disjunction<'s>(
    alloc: Global,
    pos: Pos,
    a: Worth,
    b: Worth,
) -> Result<Checked<'s>, Refusal>
    ensures ok { IfOk result (λ c. typed.disjunction pos (worth_of a) (worth_of b) ≡ fine (checked_of c)) }
    ensures err { IfErr result (λ r. r ≡ Memory) }
{
    let Ok(a) = boxed(alloc, a.value) else {
        return Err(Refusal::Memory);
    };
    let Ok(b) = boxed(alloc, b.value) else {
        return Err(Refusal::Memory);
    };
    Ok(Checked::Value(pos, IntType::Int, Value::OneTrue(a, b)))
}

pub(crate) fn common_type<'s>(
    alloc: Global,
    pos: Pos,
    test: Value,
    a: Worth,
    b: Worth,
) -> Result<Checked<'s>, Refusal>
    ensures ok { IfOk result (λ c. typed.common_type pos (value_of test) (worth_of a) (worth_of b) ≡ fine (checked_of c)) }
    ensures err { IfErr result (λ r. r ≡ Memory) }
{
    let ty = usual(a.ty, b.ty);
    let Ok(test) = boxed(alloc, test) else {
        return Err(Refusal::Memory);
    };
    let Ok(a) = boxed(alloc, a.value) else {
        return Err(Refusal::Memory);
    };
    let Ok(b) = boxed(alloc, b.value) else {
        return Err(Refusal::Memory);
    };
    Ok(Checked::Value(pos, ty, Value::Chosen(Some(ty), test, a, b)))
}

fn pair(alloc: Global, a: Value, b: Value) -> Result<Value, Refusal>
    ensures ok { IfOk result (λ e. value_of e ≡ program_typed.sequence (value_of a) (value_of b)) }
    ensures err { IfErr result (λ r. r ≡ Memory) }
{
    let Ok(a) = boxed(alloc, a) else {
        return Err(Refusal::Memory);
    };
    let Ok(b) = boxed(alloc, b) else {
        return Err(Refusal::Memory);
    };
    Ok(Value::Sequence(a, b))
}

/// The right operand of a comma, which is its value (6.5.17p2).
pub(crate) fn last<'s>(
    alloc: Global,
    pos: Pos,
    a: Value,
    b: Checked,
) -> Result<Checked<'s>, Refusal>
    ensures ok { IfOk result (λ c. typed.last pos (value_of a) (checked_of b.entry) ≡ fine (checked_of c)) }
    ensures err { IfErr result (λ r. Tells r (typed.last pos (value_of a) (checked_of b.entry))) }
{
    match b {
        Checked::Value(_, ty, b) => match pair(alloc, a, b) {
            Ok(value) => Ok(Checked::Value(pos, ty, value)),
            Err(_) => Err(Refusal::Memory),
        },
        Checked::Object(_, ty, _, place) => match read(alloc, ty, place) {
            Ok(b) => match pair(alloc, a, b.value) {
                Ok(value) => Ok(Checked::Value(pos, ty, value)),
                Err(_) => Err(Refusal::Memory),
            },
            Err(_) => Err(Refusal::Memory),
        },
        Checked::Nothing(_, b) => match pair(alloc, a, b) {
            Ok(value) => Ok(Checked::Nothing(pos, value)),
            Err(_) => Err(Refusal::Memory),
        },
        Checked::Array(pos, _, _, _) => Err(left_out(pos)),
        Checked::Unsized(pos, _, _) => Err(left_out(pos)),
        Checked::Reference(pos, _, _) => Err(left_out(pos)),
        Checked::Designator(pos) => Err(left_out(pos)),
    }
}
