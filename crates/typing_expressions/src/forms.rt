//! The kind of an expression, with its typed form.
#![tactic(auto)]

ghost use Rattle.std.specs.Prelude.{◌≡◌, IfErr, IfOk, OnOk};
ghost use Rattle.typing_spec.specs.Verdict.{fine};
ghost use Rattle.typing_spec.specs.Expressions as typed;
ghost use Rattle.srcset.specs.declared.code.Code.TheVariants as code;
ghost use Rattle.typing_spec.specs.Program as program_value;
ghost use Rattle.srcset.specs.declared.refusal.Refusal.TheVariants.{Memory};
ghost use Rattle.typed_ast.specs.View.{value_of, place_of, object_type_of};
ghost use Rattle.typing_expressions.specs.Refused.{Tells, refused};
ghost use Rattle.typing_expressions.specs.Forms.{checked_of, worth_of, elements_of};

use ctypes::IntType;
use srcset::{Code, Pos, Refusal};
use std::alloc::Global;
use typed_ast::{ObjectType, Place, Value};

/// The type of the elements of an array.
#[derive(Clone, Copy)]
pub struct Elements<'s> {
    pub element: IntType,
    pub constant: bool,
    /// The length of each array within, from the outermost.
    pub lengths: &'s [u32],
}

/// The kind of an expression, and its place.
#[derive(Drop)]
pub enum Checked<'s> {
    Value(Pos, IntType, Value),
    /// An element, and whether it is `const`.
    Object(Pos, IntType, bool, Place),
    /// An array of this number of such elements.
    Array(Pos, u32, Elements<'s>, Place),
    /// An array of unknown size.
    Unsized(Pos, Elements<'s>, Place),
    /// An array parameter.
    Reference(Pos, Elements<'s>, Place),
    /// An expression of type `void`.
    Nothing(Pos, Value),
    /// A function designator.
    Designator(Pos),
}

/// A value with its type.
#[derive(Drop)]
pub struct Worth {
    pub ty: IntType,
    pub value: Value,
}

/// The constraint with this code is broken here.
pub fn broken(code: Code, pos: Pos) -> Refusal
    ensures { result ≡ refused code pos }
{
    Refusal::At { code, pos }
}

pub(crate) fn left_out(pos: Pos) -> Refusal
    ensures { result ≡ refused code.LeftOutArrayValue pos }
{
    broken(Code::LeftOutArrayValue, pos)
}

/// The elements of an object.
pub(crate) fn elements_in<'s>(object: &'s ObjectType) -> Elements<'s>
    ensures { elements_of result ≡ object_type_of object.now }
{
    Elements {
        element: object.element,
        constant: object.constant,
        lengths: object.lengths.as_slice(),
    }
}

/// A value in memory of its own.
///
/// Errors: `Memory`.
pub fn boxed(alloc: Global, value: Value) -> Result<Box<Value>, Refusal>
    ensures ok { IfOk result (λ b. b.value ≡ value) }
    ensures err { IfErr result (λ r. r ≡ Memory) }
{
    match Box::new(alloc, value) {
        Ok(value) => Ok(value),
        Err(_) => Err(Refusal::Memory),
    }
}

/// The value that is read at a place.
pub(crate) fn read(alloc: Global, ty: IntType, place: Place) -> Result<Worth, Refusal>
    ensures ok { IfOk result (λ w. typed.worth_of ty (program_value.read ty (place_of place)) ≡ fine (worth_of w)) }
    ensures err { IfErr result (λ r. r ≡ Memory) }
{
    let Ok(place) = Box::new(alloc, place) else {
        return Err(Refusal::Memory);
    };
    Ok(Worth {
        ty,
        value: Value::Read(ty, place),
    })
}

/// The value of an expression (6.3.2.1p2): a `void` expression is refused with this code at this place. An array or a function has
/// no value in this profile.
#[inline(never)]
pub fn valued(alloc: Global, code: Code, at: Pos, x: Checked) -> Result<Worth, Refusal>
    ensures ok { IfOk result (λ w. typed.worth code at (checked_of x.entry) ≡ fine (worth_of w)) }
    ensures err { IfErr result (λ r. Tells r (typed.worth code at (checked_of x.entry))) }
{
    match x {
        Checked::Value(_, ty, value) => Ok(Worth { ty, value }),
        Checked::Object(_, ty, _, place) => read(alloc, ty, place),
        Checked::Array(pos, _, _, _) => Err(left_out(pos)),
        Checked::Unsized(pos, _, _) => Err(left_out(pos)),
        Checked::Reference(pos, _, _) => Err(left_out(pos)),
        Checked::Nothing(_, _) => Err(broken(code, at)),
        Checked::Designator(pos) => Err(left_out(pos)),
    }
}

/// An index (6.5.2.1p1).
pub(crate) fn index(alloc: Global, at: Pos, x: Checked) -> Result<Worth, Refusal>
    ensures ok { IfOk result (λ w. typed.index at (checked_of x.entry) ≡ fine (worth_of w)) }
    ensures err { IfErr result (λ r. Tells r (typed.index at (checked_of x.entry))) }
{
    match x {
        Checked::Value(_, ty, value) => Ok(Worth { ty, value }),
        Checked::Object(_, ty, _, place) => read(alloc, ty, place),
        Checked::Array(_, _, _, _) => Err(broken(Code::BadSubscript, at)),
        Checked::Unsized(_, _, _) => Err(broken(Code::BadSubscript, at)),
        Checked::Reference(_, _, _) => Err(broken(Code::BadSubscript, at)),
        Checked::Nothing(_, _) => Err(broken(Code::BadSubscript, at)),
        Checked::Designator(_) => Err(broken(Code::BadSubscript, at)),
    }
}

/// A call whose value goes unused: that of a whole expression, of a comma's right operand, of an arm.
fn unused(alloc: Global, value: Value) -> Result<Value, Refusal>
    ensures ok { IfOk result (λ e. value_of e ≡ typed.unused (value_of value)) }
    ensures err { IfErr result (λ r. r ≡ Memory) }
{
    match value {
        Value::Call(pos, callee, ty, _, arguments) => {
            Ok(Value::Call(pos, callee, ty, false, arguments))
        }
        Value::Sequence(first, last) => {
            let last = boxed(alloc, unused(alloc, Box::into_inner(last))?)?;
            Ok(Value::Sequence(first, last))
        }
        Value::Chosen(ty, test, first, second) => {
            let first = boxed(alloc, unused(alloc, Box::into_inner(first))?)?;
            let second = boxed(alloc, unused(alloc, Box::into_inner(second))?)?;
            Ok(Value::Chosen(ty, test, first, second))
        }
        other => Ok(other),
    }
}

/// An expression for its side effects (6.8.3p2).
#[inline(never)]
pub fn effect(alloc: Global, x: Checked) -> Result<Value, Refusal>
    ensures ok { IfOk result (λ e. typed.effect (checked_of x.entry) ≡ fine (value_of e)) }
    ensures err { IfErr result (λ r. Tells r (typed.effect (checked_of x.entry))) }
{
    match x {
        Checked::Value(_, _, value) => unused(alloc, value),
        Checked::Object(_, ty, _, place) => Ok(read(alloc, ty, place)?.value),
        Checked::Array(pos, _, _, _) => Err(left_out(pos)),
        Checked::Unsized(pos, _, _) => Err(left_out(pos)),
        Checked::Reference(pos, _, _) => Err(left_out(pos)),
        Checked::Nothing(_, value) => unused(alloc, value),
        Checked::Designator(pos) => Err(left_out(pos)),
    }
}

/// An element, or an array.
pub(crate) fn designated<'s>(pos: Pos, object: Elements<'s>, place: Place) -> Checked<'s>
    ensures { checked_of result ≡ typed.designated pos (elements_of object.entry) (place_of place) }
{
    match object.lengths.split_first() {
        None => Checked::Object(pos, object.element, object.constant, place),
        Some((first, rest)) => {
            let elements = Elements {
                element: object.element,
                constant: object.constant,
                lengths: rest,
            };
            Checked::Array(pos, *first, elements, place)
        }
    }
}
