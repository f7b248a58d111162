//! Translation units (6.9).
#![tactic(auto, using(decls_declarators::proofs::Verdicts::told))]

ghost use Rattle.std.specs.Prelude.{◌≡◌, map, IfErr, IfOk};
ghost use Rattle.tree.specs.View.{external_of, unit_of};
ghost use Rattle.typed_ast.specs.View as view;
ghost use Rattle.typing_spec.specs.Verdict.{fine};
ghost use Rattle.typing_spec.specs.Units as typed;
ghost use Rattle.typing_expressions.specs.Refused.{Tells};
ghost use Rattle.typing.specs.Told.{IsFaultOfVerdict};

use crate::externals::externals_typed;
use srcset::{Fault, Names, Pos, Refusal};
use std::alloc::Global;
use tree::{External, Unit};
use typed_ast::Program;
use typing_scopes::Scope;
use typing_units::{definitions_in, unit_program};

/// The typed program of external declarations.
fn unit_typed(
    alloc: Global,
    names: &Names,
    whole: Pos,
    externals: Vec<External>,
    stack: u32,
) -> Result<Program, Refusal>
    ensures ok { IfOk result (λ p. typed.unit_typed stack names.now whole (map external_of externals.items) ≡ fine (view.program_of p)) }
    ensures err { IfErr result (λ r. Tells r (typed.unit_typed stack names.now whole (map external_of externals.items))) }
{
    let definitions = match definitions_in(alloc, externals.as_slice()) {
        Ok(definitions) => definitions,
        Err(_) => return Err(Refusal::Memory),
    };
    let Ok(mut functions) = Vec::with_capacity(alloc, definitions.len()) else {
        return Err(Refusal::Memory);
    };
    let mut scope = match Scope::file(alloc, definitions) {
        Ok(scope) => scope,
        Err(refusal) => return Err(refusal),
    };
    let mut initial = Vec::new(alloc);
    match externals_typed(
        alloc,
        names,
        &mut scope,
        &mut functions,
        &mut initial,
        externals,
        stack,
    ) {
        Ok(()) => {}
        Err(refusal) => return Err(refusal),
    }
    match unit_program(alloc, names, whole, scope, functions, initial) {
        Ok(program) => Ok(program),
        Err(refusal) => Err(refusal),
    }
}

/// The typed program of a translation unit (6.9), whose names and literals have the texts of `names`, for a stack of `stack` bytes. Faults that
/// concern the whole unit have the place `whole`. Each external declaration is freed once it has been typed: tree and program
/// are never both whole in memory.
///
/// Fails
/// - with the violations of a declaration, as `typing_declarations::declaration_typed` does;
/// - with 527 where a parameter of a function definition has no name (6.9.1p5), and with the violations of its specifiers, parameters and name;
/// - with the violations of a body, as `typing_statements::pieces` does, and with 714 where a function weighs more than the stack has bytes;
/// - with 713 where static objects and string literals take too many bytes, with 715 where there are too many functions;
/// - with 552 at the first use of an object or a function that has no definition (6.9p3, p5);
/// - with 551 where no function is `int main(void)` with external linkage (5.1.2.2.1);
/// - with 801 where memory runs out.
///
/// The fault is of a violated constraint, at its place. The recursion is as deep as the tree is.
pub fn check(
    alloc: Global,
    unit: Unit,
    names: &Names,
    whole: Pos,
    stack: u32,
) -> Result<Program, Fault>
    ensures ok { IfOk result (λ p. typed.unit_typed stack names.now whole (unit_of unit) ≡ fine (view.program_of p)) }
    ensures err { IfErr result (λ fault. IsFaultOfVerdict fault names.now (typed.unit_typed stack names.now whole (unit_of unit))) }
{
    match unit_typed(alloc, names, whole, unit.externals, stack) {
        Ok(program) => Ok(program),
        Err(refusal) => Err(refusal.to_fault(alloc, names)),
    }
}
