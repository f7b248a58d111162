//! The limits of a program: the bytes of its objects with static storage and of its string literals, and its functions.
#![tactic(auto, using(crate::proofs::Sums::capped32_none))]

ghost use Rattle.std.specs.Prelude.{◌≡◌, ℕ, List, map, OnOk, IfErr};
ghost use Rattle.tree.specs.Capped.{capped32};
ghost use Rattle.typing_scopes.specs.Scopes.{static_of};
ghost use Rattle.typing_spec.specs.Verdict.{fine};
ghost use Rattle.typing_spec.specs.Scope.{Scope};
ghost use Rattle.typing_spec.specs.Units as typed;
ghost use Rattle.typing_expressions.specs.Refused.{IsOf};
ghost use Rattle.typing_units.specs.declared.first_values.Initial.{Initial};
ghost use Rattle.typing_units.specs.Views.{unit_scope, built_of};
ghost use Rattle.typing_units.specs.inside.Parts.{static_bytes};

use crate::literals::bytes_of_literals;
use crate::sizes::{in_words, object_size, sum};
use srcset::{Code, Names, Pos, Refusal};
use typed_ast::Function;
use typing_expressions::broken;
use typing_scopes::StaticObject;

/// The bytes that objects with static storage and string literals may take.
const STATIC_LIMIT: u32 = 16_777_216;

/// The functions that a unit may define.
const FUNCTION_LIMIT: usize = 16_384;

/// The bytes of an object, in whole words: none where it is only declared.
fn static_size(object: &StaticObject) -> u32
    ensures { result ≡ capped32 (static_bytes (static_of object.now)) }
{
    if object.defined {
        in_words(object_size(&object.object_type))
    } else {
        0
    }
}

/// The bytes of objects with static storage, or 2^32 - 1 where they are more.
pub fn bytes_of_statics(statics: &[StaticObject]) -> u32
    ensures { result ≡ capped32 (typed.bytes_of_statics (map static_of statics.now)) }
{
    let mut total = 0;
    for object in statics {
        total = sum(total, static_size(object));
    }
    total
}

/// The bytes that the objects with static storage and the string literals of a unit take, or 2^32 - 1 where they are more.
pub fn static_bytes(names: &Names, literals: &[usize], statics: &[StaticObject]) -> u32
    ensures { (s : Scope) → result ≡ capped32 (typed.static_bytes (unit_scope names.now literals.now statics.now s)) }
{
    sum(
        bytes_of_statics(statics),
        bytes_of_literals(names, literals),
    )
}

/// A unit is within the limits, else reports 713 or 715 at this place.
pub fn within_limits(
    names: &Names,
    whole: Pos,
    literals: &[usize],
    statics: &[StaticObject],
    functions: &[Function],
) -> Result<(), Refusal>
    ensures ok { (stack : ℕ) (s : Scope) (initial : List Initial) → OnOk result (typed.within_limits whole (built_of stack (unit_scope names.now literals.now statics.now s) functions.now initial) ≡ fine tt) }
    ensures err { (stack : ℕ) (s : Scope) (initial : List Initial) → IfErr result (λ r. IsOf r (typed.within_limits whole (built_of stack (unit_scope names.now literals.now statics.now s) functions.now initial))) }
{
    if static_bytes(names, literals, statics) > STATIC_LIMIT {
        return Err(broken(Code::StaticSizeLimit, whole));
    }
    if functions.len() > FUNCTION_LIMIT {
        return Err(broken(Code::FunctionLimit, whole));
    }
    Ok(())
}
