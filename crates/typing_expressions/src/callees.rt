//! The callee of a call (6.5.2.2), and the built-in functions.
#![tactic(auto)]

ghost use Rattle.std.specs.Prelude.{◌≡◌, ◌++◌, ◌∷◌, [], ℕ, map, reverse, IfErr, IfOk, OnOk};
ghost use Rattle.srcset.specs.declared.refusal.Refusal.TheVariants.{Memory};
ghost use Rattle.typed_ast.specs.View.{callee_of, arguments_of, argument_of};
ghost use Rattle.typing_spec.specs.Verdict.{fine};
ghost use Rattle.typing_spec.specs.Scope as typed;
ghost use Rattle.typing_spec.specs.Expressions as rules;
ghost use Rattle.typing_expressions.specs.Refused.{Tells};
ghost use Rattle.typing_expressions.specs.Numbered.{numbered};
ghost use Rattle.typing_expressions.specs.Calls.{called_of};
ghost use Rattle.typing_expressions.specs.Forms.{checked_of};
ghost use Rattle.typing_scopes.specs.Scopes.{option_binding, meaning_of};

use crate::forms::{Checked, broken};
use srcset::{Code, Names, Pos, Refusal};
use typed_ast::{Argument, Callee, FunctionType, Value};
use typing_scopes::{Binding, Meaning, Scope, built_in};

/// A function that is called, and its type.
#[derive(Clone, Copy)]
pub struct Called<'s> {
    pub callee: Callee,
    pub function: &'s FunctionType,
}

/// The callee for a function with a definition, or without one.
fn defined_callee(scope: &Scope, name: usize) -> Callee
    ensures { callee_of result ≡ typed.by_definition name (typed.place_from 0 scope.now.definitions name) }
{
    match scope.definition(name) {
        Some(place) => Callee::Function(place),
        None => Callee::Missing(name),
    }
}

/// The callee of a call of the function with this name.
fn callee(names: &Names, scope: &Scope, name: usize) -> Callee
    ensures { (n : ℕ) → callee_of result ≡ typed.callee_of (numbered names.now n scope.now) name }
{
    match built_in(names, name) {
        Some(function) => function.callee(),
        None => defined_callee(scope, name),
    }
}

fn function_meant<'s>(
    names: &Names,
    scope: &Scope,
    pos: Pos,
    name: usize,
    meaning: &'s Meaning,
) -> Result<Called<'s>, Refusal>
    ensures ok { (n : ℕ) → IfOk result (λ f. rules.function_meant (numbered names.now n scope.now) pos name (meaning_of meaning.now) ≡ fine (called_of f)) }
    ensures err { (n : ℕ) → IfErr result (λ r. Tells r (rules.function_meant (numbered names.now n scope.now) pos name (meaning_of meaning.now))) }
{
    match meaning {
        Meaning::Function(function) => Ok(Called {
            callee: callee(names, scope, name),
            function,
        }),
        Meaning::Object(_, _) => Err(broken(Code::CalledNoFunction, pos)),
        Meaning::ArrayParameter(_, _) => Err(broken(Code::CalledNoFunction, pos)),
        Meaning::Enumerator(_) => Err(broken(Code::CalledNoFunction, pos)),
    }
}

/// The function with this name.
#[inline(never)]
pub fn function_named<'s>(
    names: &Names,
    scope: &Scope,
    pos: Pos,
    name: usize,
    binding: Option<&'s Binding>,
) -> Result<Called<'s>, Refusal>
    ensures ok { (n : ℕ) → IfOk result (λ f. rules.function_named (numbered names.now n scope.now) pos name (option_binding binding.entry) ≡ fine (called_of f)) }
    ensures err { (n : ℕ) → IfErr result (λ r. Tells r (rules.function_named (numbered names.now n scope.now) pos name (option_binding binding.entry))) }
{
    match binding {
        None => Err(broken(Code::UndeclaredName, pos)),
        Some(binding) => function_meant(names, scope, pos, name, &binding.meaning),
    }
}

/// One more argument.
pub fn push_argument(all: &mut Vec<Argument>, argument: Argument) -> Result<(), Refusal>
    ensures ok { OnOk result (all.new.items ≡ all.old.items ++ argument ∷ []) }
    ensures err { IfErr result (λ r. r ≡ Memory) }
{
    match all.push(argument) {
        Ok(()) => Ok(()),
        Err(_) => Err(Refusal::Memory),
    }
}

/// A call with its arguments, the last one first (6.5.2.2p5).
pub fn called_value<'s>(pos: Pos, called: Called, mut all: Vec<Argument>) -> Checked<'s>
    ensures { rules.call_of pos (called_of called.entry) (arguments_of (map argument_of (reverse all.items))) ≡ fine (checked_of result) }
{
    all.reverse();
    match called.function.result {
        Some(ty) => {
            let value = Value::Call(pos, called.callee, Some(ty), true, all);
            Checked::Value(pos, ty, value)
        }
        None => Checked::Nothing(pos, Value::Call(pos, called.callee, None, true, all)),
    }
}
