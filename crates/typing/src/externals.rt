//! External declarations (6.9).
#![tactic(auto, using(decls_declarators::proofs::Verdicts::told))]

ghost use Rattle.std.specs.Prelude.{◌≡◌, ℕ, List, map, IfErr, OnOk};
ghost use Rattle.typed_ast.specs.declared.units.Function.{Function};
ghost use Rattle.tree.specs.Tree as tree;
ghost use Rattle.tree.specs.View.{declaration_of, external_of};
ghost use Rattle.typing_spec.specs.Verdict.{fine};
ghost use Rattle.typing_spec.specs.Units as typed;
ghost use Rattle.typing_expressions.specs.Refused.{Tells};
ghost use Rattle.typing_scopes.specs.Scopes.{with_texts};
ghost use Rattle.typing_units.specs.Views.{built_of};

use crate::functions::function_typed;
use srcset::{Names, Refusal};
use std::alloc::Global;
use tree::{Declaration, External};
use typed_ast::Function;
use typing_declarations::declaration_typed;
use typing_scopes::Scope;
use typing_units::Initial;

/// A declaration at file scope, whose objects take no statements.
fn external_declaration(
    alloc: Global,
    names: &Names,
    scope: &mut Scope,
    initial: &mut Vec<Initial>,
    declaration: &Declaration,
) -> Result<(), Refusal>
    ensures ok { (stack : ℕ) (fs : List Function) → OnOk result (typed.external_typed (built_of stack (with_texts names.now scope.old) fs initial.old.items) (tree.declaration (declaration_of declaration.now)) ≡ fine (built_of stack (with_texts names.now scope.new) fs initial.new.items)) }
    ensures err { (stack : ℕ) (fs : List Function) → IfErr result (λ r. Tells r (typed.external_typed (built_of stack (with_texts names.now scope.old) fs initial.old.items) (tree.declaration (declaration_of declaration.now)))) }
{
    let mut statements = Vec::new(alloc);
    match declaration_typed(alloc, names, scope, &mut statements, initial, declaration) {
        Ok(()) => Ok(()),
        Err(refusal) => Err(refusal),
    }
}

fn external_typed(
    alloc: Global,
    names: &Names,
    scope: &mut Scope,
    functions: &mut Vec<Function>,
    initial: &mut Vec<Initial>,
    external: &External,
    stack: u32,
) -> Result<(), Refusal>
    ensures ok { OnOk result (typed.external_typed (built_of stack (with_texts names.now scope.old) functions.old.items initial.old.items) (external_of external.now) ≡ fine (built_of stack (with_texts names.now scope.new) functions.new.items initial.new.items)) }
    ensures err { IfErr result (λ r. Tells r (typed.external_typed (built_of stack (with_texts names.now scope.old) functions.old.items initial.old.items) (external_of external.now))) }
{
    match external {
        External::Function(function) => {
            function_typed(alloc, names, scope, functions, initial, function, stack)
        }
        External::Declaration(declaration) => {
            external_declaration(alloc, names, scope, initial, declaration)
        }
    }
}

/// External declarations in order. Each is freed once it has been typed, so that the next one can reuse its memory.
pub(crate) fn externals_typed(
    alloc: Global,
    names: &Names,
    scope: &mut Scope,
    functions: &mut Vec<Function>,
    initial: &mut Vec<Initial>,
    externals: Vec<External>,
    stack: u32,
) -> Result<(), Refusal>
    ensures ok { OnOk result (typed.externals_typed (built_of stack (with_texts names.now scope.old) functions.old.items initial.old.items) (map external_of externals.items) ≡ fine (built_of stack (with_texts names.now scope.new) functions.new.items initial.new.items)) }
    ensures err { IfErr result (λ r. Tells r (typed.externals_typed (built_of stack (with_texts names.now scope.old) functions.old.items initial.old.items) (map external_of externals.items))) }
{
    for external in externals {
        match external_typed(alloc, names, scope, functions, initial, &external, stack) {
            Ok(()) => {}
            Err(refusal) => return Err(refusal),
        }
    }
    Ok(())
}
