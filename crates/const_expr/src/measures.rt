//! Sizes (6.5.3.4).
#![tactic(auto)]

ghost use Rattle.std.specs.Prelude.{◌≡◌, ◌*◌, ◌%◌, ◌^◌, ℕ, IfErr, IfOk};
ghost use Rattle.ctypes.specs.Types.{bytes_of};
ghost use Rattle.typing_spec.specs.Verdict.{fine};
ghost use Rattle.typing_spec.specs.Types as type;
ghost use Rattle.typing_spec.specs.Expressions as typed;
ghost use Rattle.typing_expressions.specs.Refused.{Tells};
ghost use Rattle.typing_expressions.specs.Forms.{checked_of, elements_of};
ghost use Rattle.const_expr.specs.Typings.{natural, option_named};

use crate::type_names::NamedType;
use ctypes::{IntType, size_of};
use srcset::{Code, Pos, Refusal};
use typed_ast::Value;
use typing_expressions::{Checked, Elements, broken};

/// The bytes of an array of these lengths, modulo 2^64.
fn bytes_within(element: IntType, lengths: &[u32]) -> u64
    ensures { result ≡ (bytes_of element * type.elements_in lengths.now) % 2 ^ 64 }
{
    let mut bytes = u64::from(size_of(element));
    for length in lengths {
        bytes = u64::from(*length).wrapping_mul(bytes);
    }
    bytes
}

/// The same of an array of `length` such arrays.
fn bytes_of_array(length: u32, elements: Elements) -> u64
    ensures { result ≡ type.size_of_object (type.array_of length (elements_of elements.entry)) % 2 ^ 64 }
{
    let within = bytes_within(elements.element, elements.lengths);
    u64::from(length).wrapping_mul(within)
}

/// The bytes of an object of a named type, modulo 2^64.
fn bytes_named(element: IntType, lengths: &[u64]) -> u64
    ensures { result ≡ (bytes_of element * type.elements_in lengths.now) % 2 ^ 64 }
{
    let mut bytes = u64::from(size_of(element));
    for length in lengths {
        bytes = length.wrapping_mul(bytes);
    }
    bytes
}

fn size_constant<'s>(pos: Pos, size: i64) -> Checked<'s>
    ensures { (n : ℕ) → size ≡ natural (n % 2 ^ 32) → typed.size_is pos n ≡ fine (checked_of result) }
{
    Checked::Value(pos, IntType::UInt, Value::Constant(IntType::UInt, size))
}

/// A size of so many bytes, which are known modulo 2^64 (6.5.3.4p2): `size_t` has 32 bits, so that no more of it counts.
fn size_is<'s>(pos: Pos, bytes: u64) -> Checked<'s>
    ensures { (size : ℕ) → bytes ≡ size % 2 ^ 64 → typed.size_is pos size ≡ fine (checked_of result) }
{
    size_constant(pos, i64::from((bytes % 0x1_0000_0000) as u32))
}

fn size_of_number<'s>(pos: Pos, ty: IntType) -> Checked<'s>
    ensures { typed.size_is pos (bytes_of ty) ≡ fine (checked_of result) }
{
    size_is(pos, u64::from(size_of(ty)))
}

/// `sizeof` of an expression (6.5.3.4): no function, nothing incomplete.
#[inline(never)]
pub(crate) fn measured<'s>(pos: Pos, x: &Checked) -> Result<Checked<'s>, Refusal>
    ensures ok { IfOk result (λ c. typed.measured pos (checked_of x.now) ≡ fine (checked_of c)) }
    ensures err { IfErr result (λ r. Tells r (typed.measured pos (checked_of x.now))) }
{
    match x {
        Checked::Value(_, ty, _) => Ok(size_of_number(pos, *ty)),
        Checked::Object(_, ty, _, _) => Ok(size_of_number(pos, *ty)),
        Checked::Array(_, length, elements, _) => {
            Ok(size_is(pos, bytes_of_array(*length, *elements)))
        }
        Checked::Reference(_, _, _) => {
            Ok(Checked::Value(pos, IntType::UInt, Value::Constant(IntType::UInt, 4)))
        }
        Checked::Unsized(_, _, _) => Err(broken(Code::BadSizeofOperand, pos)),
        Checked::Nothing(_, _) => Err(broken(Code::BadSizeofOperand, pos)),
        Checked::Designator(_) => Err(broken(Code::BadSizeofOperand, pos)),
    }
}

/// `sizeof` of a named type (6.5.3.4), which is not `void`.
#[inline(never)]
pub(crate) fn type_measured<'s>(pos: Pos, named: &Option<NamedType>) -> Result<Checked<'s>, Refusal>
    ensures ok { IfOk result (λ c. typed.type_measured pos (option_named named.now) ≡ fine (checked_of c)) }
    ensures err { IfErr result (λ r. Tells r (typed.type_measured pos (option_named named.now))) }
{
    match named {
        None => Err(broken(Code::BadSizeofOperand, pos)),
        Some(named) => Ok(size_is(pos, bytes_named(named.element, &named.lengths))),
    }
}
