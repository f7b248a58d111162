//! The types that names of types name (6.7.7), and the sizes of objects (6.5.3.4).
#![tactic(auto, using(crate::proofs::Sizes::capped_product, crate::proofs::Sizes::capped_one, crate::proofs::Sizes::limit_of_capped))]

ghost use Rattle.std.specs.Prelude.{◌≡◌, Bool, IfErr, IfOk, OnOk, Some, None};
ghost use Rattle.typing_spec.specs.Types as type;
ghost use Rattle.typing_spec.specs.Verdict.{fine};
ghost use Rattle.typing_spec.specs.Expressions as typed;
ghost use Rattle.tree.specs.Capped.{capped};
ghost use Rattle.typing_expressions.specs.Refused.{Tells};
ghost use Rattle.const_expr.specs.Typings.{named_of, option_named};
ghost use Rattle.const_expr.specs.Typings.{base_type_of};

use crate::specifiers::BaseType;
use ctypes::{IntType, size_of};
use srcset::{Code, Pos, Refusal};
use typing_expressions::{OBJECT_LIMIT, broken};

/// A type of objects that is named.
#[derive(Drop)]
pub(crate) struct NamedType {
    pub(crate) element: IntType,
    pub(crate) constant: bool,
    /// The length of each array, from the outermost.
    pub(crate) lengths: Vec<u64>,
}

/// How many elements arrays of these lengths have, or 2^64 - 1 where that is less.
fn elements_in(lengths: &[u64]) -> u64
    ensures { result ≡ capped (type.elements_in lengths.now) }
{
    let mut count = 1;
    for length in lengths {
        count = length.saturating_mul(count);
    }
    count
}

/// The bytes of such an object, or 2^64 - 1 where that is less.
pub fn bytes_in(element: IntType, lengths: &[u64]) -> u64
    ensures { (k : Bool) → result ≡ capped (type.size_of_object (record { element = element; constant = k; lengths = lengths.now })) }
{
    let count = elements_in(lengths);
    u64::from(size_of(element)).saturating_mul(count)
}

/// The size of an array is greater than zero (6.7.6.2p1).
pub fn positive(pos: Pos, size: i64) -> Result<u64, Refusal>
    ensures ok { IfOk result (λ n. typed.positive pos size ≡ fine n) }
    ensures err { IfErr result (λ r. Tells r (typed.positive pos size)) }
{
    if size <= 0 {
        return Err(broken(Code::BadArrayType, pos));
    }
    Ok(size.cast_unsigned())
}

/// A type of objects within the limit.
fn with_lengths(
    pos: Pos,
    element: IntType,
    constant: bool,
    lengths: Vec<u64>,
) -> Result<NamedType, Refusal>
    ensures ok { IfOk result (λ n. typed.with_lengths pos element constant lengths.items ≡ fine (Some (named_of n))) }
    ensures err { IfErr result (λ r. Tells r (typed.with_lengths pos element constant lengths.items)) }
{
    if bytes_in(element, &lengths) > OBJECT_LIMIT {
        return Err(broken(Code::ObjectSizeLimit, pos));
    }
    Ok(NamedType {
        element,
        constant,
        lengths,
    })
}

/// `void` alone, no array of it (6.7.6.2p1).
fn void_type(pos: Pos, lengths: &[u64]) -> Result<(), Refusal>
    ensures ok { OnOk result (typed.void_type pos lengths.now ≡ fine None) }
    ensures err { IfErr result (λ r. Tells r (typed.void_type pos lengths.now)) }
{
    if lengths.is_empty() {
        return Ok(());
    }
    Err(broken(Code::BadArrayType, pos))
}

/// The type that is named (6.7.7), none for `void`.
#[inline(never)]
pub(crate) fn type_of(
    pos: Pos,
    base: BaseType,
    lengths: Vec<u64>,
) -> Result<Option<NamedType>, Refusal>
    ensures ok { IfOk result (λ n. typed.type_of pos (base_type_of base) lengths.items ≡ fine (option_named n)) }
    ensures err { IfErr result (λ r. Tells r (typed.type_of pos (base_type_of base) lengths.items)) }
{
    match base.named {
        Some(element) => match with_lengths(pos, element, base.constant, lengths) {
            Ok(named) => Ok(Some(named)),
            Err(refusal) => Err(refusal),
        },
        None => match void_type(pos, &lengths) {
            Ok(()) => Ok(None),
            Err(refusal) => Err(refusal),
        },
    }
}
