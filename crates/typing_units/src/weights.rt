//! The weight of a function: the stack that a call of it may take, by its source alone.
#![tactic(auto)]

ghost use Rattle.std.specs.Prelude.{◌≡◌, ◌^◌, ℕ, min, map, nat_lt, OnOk, IfErr};
ghost use Rattle.srcset.specs.declared.code.Code.TheVariants as code;
ghost use Rattle.tree.specs.View.{function_of};
ghost use Rattle.typed_ast.specs.View.{object_type_of, parameter_type_of};
ghost use Rattle.typing_spec.specs.Verdict.{fine, refuse_if};
ghost use Rattle.typing_spec.specs.Units as typed;
ghost use Rattle.typing_expressions.specs.Refused.{IsOf};

use crate::sizes::{bytes_of_objects, bytes_of_references, narrowed, sum};
use srcset::{Code, Pos, Refusal};
use tree::Function;
use typed_ast::{ObjectType, ParameterType};
use typing_expressions::broken;

/// More bytes than any stack has.
const PAST_ALL: u64 = 4_294_967_296;

/// The weight of a function with these parameters and objects, or 2^32 where it is greater.
pub fn weight(function: &Function, parameters: &[ParameterType], objects: &[ObjectType]) -> u64
    ensures { result ≡ min (typed.weight (function_of function.now) (map parameter_type_of parameters.now) (map object_type_of objects.now)) (2 ^ 32) }
{
    let bytes = sum(bytes_of_references(parameters), bytes_of_objects(objects));
    let weight = tree::weight(narrowed(function.nodes()), bytes);
    weight.min(PAST_ALL)
}

/// A weight is no more than the bytes of the stack, else reports 714 there.
pub fn within_weight(pos: Pos, weight: u64, stack: u32) -> Result<(), Refusal>
    ensures ok { (x : ℕ) → weight ≡ min x (2 ^ 32) → OnOk result (refuse_if (nat_lt stack x) code.WeightLimit pos ≡ fine tt) }
    ensures err { (x : ℕ) → weight ≡ min x (2 ^ 32) → IfErr result (λ r. IsOf r (refuse_if (nat_lt stack x) code.WeightLimit pos)) }
{
    if weight > u64::from(stack) {
        return Err(broken(Code::WeightLimit, pos));
    }
    Ok(())
}
