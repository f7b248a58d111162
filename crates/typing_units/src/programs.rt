//! The typed program of a unit (6.9), once each external declaration has been typed.
#![tactic(auto)]

ghost use Rattle.std.specs.Prelude.{◌≡◌, ℕ, IfOk, IfErr};
ghost use Rattle.srcset.specs.declared.refusal.Refusal.TheVariants.{Memory};
ghost use Rattle.typed_ast.specs.View as view;
ghost use Rattle.typing_scopes.specs.Scopes.{with_texts};
ghost use Rattle.typing_spec.specs.Verdict.{fine};
ghost use Rattle.typing_spec.specs.Scope as scope_typed;
ghost use Rattle.typing_spec.specs.Units as typed;
ghost use Rattle.typing_expressions.specs.Refused.{Tells};
ghost use Rattle.typing_units.specs.Views.{unit_scope, built_of};

use crate::entries::main_from;
use crate::first_values::{Initial, statics_of};
use crate::limits::within_limits;
use crate::literals::literals_of;
use crate::uses::all_defined;
use srcset::{Code, Names, Pos, Refusal};
use std::alloc::Global;
use typed_ast::{Function, Program};
use typing_expressions::broken;
use typing_scopes::{Scope, StaticObject};

/// The program of these string literals, objects with static storage, functions and first values. It fails where memory runs out.
pub fn program_of(
    alloc: Global,
    names: &Names,
    literals: &[usize],
    statics: Vec<StaticObject>,
    functions: Vec<Function>,
    initial: Vec<Initial>,
    main: usize,
) -> Result<Program, Refusal>
    ensures ok { (stack : ℕ) (s : scope_typed.Scope) → IfOk result (λ p. view.program_of p ≡ typed.program_of (built_of stack (unit_scope names.now literals.now statics.items s) functions.items initial.items) main) }
    ensures err { IfErr result (λ r. r ≡ Memory) }
{
    let literals = match literals_of(alloc, names, literals) {
        Ok(literals) => literals,
        Err(refusal) => return Err(refusal),
    };
    let statics = match statics_of(alloc, statics, initial) {
        Ok(statics) => statics,
        Err(refusal) => return Err(refusal),
    };
    Ok(Program {
        literals,
        statics,
        functions,
        main,
    })
}

/// The program of a unit with these string literals and objects with static storage, whose names are those of a scope. Faults
/// that concern the whole unit have the place `whole`.
///
/// Fails
/// - with 713 where its static objects and string literals take too many bytes, with 715 where it has too many functions;
/// - with 552 at the first use of an object or a function that has no definition;
/// - with 551 where no function is `int main(void)` with external linkage;
/// - with 801 where memory runs out.
pub fn whole_program(
    alloc: Global,
    names: &Names,
    whole: Pos,
    scope: &Scope,
    literals: &[usize],
    statics: Vec<StaticObject>,
    functions: Vec<Function>,
    initial: Vec<Initial>,
) -> Result<Program, Refusal>
    ensures ok { (stack : ℕ) → IfOk result (λ p. typed.whole_program whole (built_of stack (unit_scope names.now literals.now statics.items scope.now) functions.items initial.items) ≡ fine (view.program_of p)) }
    ensures err { (stack : ℕ) → IfErr result (λ r. Tells r (typed.whole_program whole (built_of stack (unit_scope names.now literals.now statics.items scope.now) functions.items initial.items))) }
{
    match within_limits(names, whole, literals, &statics, &functions) {
        Ok(()) => {}
        Err(refusal) => return Err(refusal),
    }
    match all_defined(&statics, &functions) {
        Ok(()) => {}
        Err(refusal) => return Err(refusal),
    }
    match main_from(names, scope, &functions) {
        Some(main) => program_of(alloc, names, literals, statics, functions, initial, main),
        None => Err(broken(Code::NoMain, whole)),
    }
}

/// The program of a unit, whose external declarations have been typed. It fails as `whole_program` does.
pub fn unit_program(
    alloc: Global,
    names: &Names,
    whole: Pos,
    mut scope: Scope,
    functions: Vec<Function>,
    initial: Vec<Initial>,
) -> Result<Program, Refusal>
    ensures ok { (stack : ℕ) → IfOk result (λ p. typed.whole_program whole (built_of stack (with_texts names.now scope) functions.items initial.items) ≡ fine (view.program_of p)) }
    ensures err { (stack : ℕ) → IfErr result (λ r. Tells r (typed.whole_program whole (built_of stack (with_texts names.now scope) functions.items initial.items))) }
{
    let statics = scope.change_statics(Vec::new(alloc));
    let literals = scope.literals();
    whole_program(
        alloc, names, whole, &scope, literals, statics, functions, initial,
    )
}
