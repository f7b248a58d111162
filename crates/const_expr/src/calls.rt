//! Calls, with their arguments for their parameters (6.5.2.2).
#![tactic(auto)]

ghost use Rattle.std.specs.Prelude.{◌≡◌, length, map, reverse, IfErr, IfOk};
ghost use Rattle.typed_ast.specs.View.{parameter_type_of, arguments_of, argument_of};
ghost use Rattle.typing_spec.specs.Verdict.{fine, then_check};
ghost use Rattle.typing_spec.specs.Expressions as typed;
ghost use Rattle.typing_expressions.specs.Refused.{Tells};
ghost use Rattle.typing_expressions.specs.Forms.{checked_of};
ghost use Rattle.typing_expressions.specs.Calls.{called_of};
ghost use Rattle.const_expr.specs.Given.{given_for};

use srcset::{Code, Pos, Refusal};
use std::alloc::Global;
use typed_ast::{Argument, ParameterType};
use typing_expressions::{Called, Checked, argument, broken, called_value, push_argument};

/// As many arguments as parameters (6.5.2.2p2), each assigned to its own, the last one first.
fn assigned_to(
    alloc: Global,
    pos: Pos,
    parameters: &[ParameterType],
    mut xs: Vec<Checked>,
) -> Result<Vec<Argument>, Refusal>
    ensures ok { IfOk result (λ all. given_for pos (map parameter_type_of parameters.now) (map checked_of xs.entry.items) ≡ fine (arguments_of (map argument_of (reverse all.items)))) }
    ensures err { IfErr result (λ r. Tells r (given_for pos (map parameter_type_of parameters.now) (map checked_of xs.entry.items))) }
{
    if xs.len() != parameters.len() {
        return Err(broken(Code::ArgumentCount, pos));
    }
    let mut all = Vec::new(alloc);
    while let Some(x) = xs.pop() {
        let x = match argument(alloc, pos, &parameters[xs.len()], x) {
            Ok(x) => x,
            Err(refusal) => return Err(refusal),
        };
        match push_argument(&mut all, x) {
            Ok(()) => {}
            Err(refusal) => return Err(refusal),
        }
    }
    Ok(all)
}

/// A call with arguments that are typed.
#[inline(never)]
pub(crate) fn called_with<'s>(
    alloc: Global,
    pos: Pos,
    called: Called,
    xs: Vec<Checked>,
) -> Result<Checked<'s>, Refusal>
    ensures ok { IfOk result (λ c. then_check (given_for pos (called_of called.entry).type.parameters (map checked_of xs.entry.items)) (typed.call_of pos (called_of called.entry)) ≡ fine (checked_of c)) }
    ensures err { IfErr result (λ r. Tells r (then_check (given_for pos (called_of called.entry).type.parameters (map checked_of xs.entry.items)) (typed.call_of pos (called_of called.entry)))) }
{
    match assigned_to(alloc, pos, &called.function.parameters, xs) {
        Ok(all) => Ok(called_value(pos, called, all)),
        Err(refusal) => Err(refusal),
    }
}
