//! The part before the body of a function (6.9.1).
#![tactic(auto, using(decls_declarators::proofs::Verdicts::told, decls_declarators::proofs::Verdicts::provided_fine, decls_declarators::proofs::Verdicts::provided_left, decls_declarators::proofs::Verdicts::provided_right, typing_expressions::proofs::Verdicts::tells_of))]

ghost use Rattle.std.specs.Prelude.{◌≡◌, List, map, IfErr, IfOk};
ghost use Rattle.srcset.specs.NameTable.{Texts};
ghost use Rattle.tree.specs.Tree.{ParameterTree};
ghost use Rattle.tree.specs.View.{parameter_of};
ghost use Rattle.typed_ast.specs.View.{object_type_of, parameter_type_of};
ghost use Rattle.typing_spec.specs.Verdict.{fine, provided};
ghost use Rattle.typing_spec.specs.Types as type;
ghost use Rattle.typing_spec.specs.Scope as scope_typed;
ghost use Rattle.typing_spec.specs.Declarators as declarator;
ghost use Rattle.typing_spec.specs.Units as typed;
ghost use Rattle.typing_expressions.specs.Refused.{Tells};
ghost use Rattle.typing_scopes.specs.Scopes.{with_texts, block_of};

use decls_declarators::{Entered, parameters_in};
use srcset::{Names, Refusal};
use std::alloc::Global;
use tree::Parameter;
use typed_ast::ObjectType;
use typing_scopes::{Block, Scope};
use typing_units::all_named;

/// The parameters of a definition, each of which has a name, in a scope of their own.
pub(crate) fn named_parameters(
    alloc: Global,
    names: &Names,
    scope: &mut Scope,
    parameters: &[Parameter],
) -> Result<Entered, Refusal>
    ensures ok { IfOk result (λ e. declarator.parameters_in (with_texts names.now scope.old) (map parameter_of parameters.now) ≡ fine (record { types = map parameter_type_of e.types.items; scope = with_texts names.now scope.new })) }
    ensures named { IfOk result (λ e. typed.all_named (map parameter_of parameters.now) ≡ fine tt) }
    ensures before { IfOk result (λ e. (e.block ≡ block_of scope.old) × (map object_type_of e.objects.items ≡ scope.old.objects)) }
    ensures err { IfErr result (λ r. Tells r (provided (typed.all_named (map parameter_of parameters.now)) (declarator.parameters_in (with_texts names.now scope.old) (map parameter_of parameters.now)))) }
{
    match all_named(parameters) {
        Ok(()) => {}
        Err(refusal) => return Err(refusal),
    }
    match parameters_in(alloc, names, scope, parameters) {
        Ok(entered) => Ok(entered),
        Err(refusal) => Err(refusal),
    }
}

/// Restores the scope to its state around parameters. Returns those objects of the function that are parameters.
pub(crate) fn leave_parameters(
    scope: &mut Scope,
    block: Block,
    objects: Vec<ObjectType>,
) -> Vec<ObjectType>
    ensures { (t : Texts) (outer : scope_typed.Scope) (ps : List ParameterTree) (types : List type.ParameterType) → declarator.parameters_in (with_texts t outer) ps ≡ fine (record { types = types; scope = with_texts t scope.old }) → block ≡ block_of outer → map object_type_of objects.items ≡ outer.objects → (with_texts t scope.new ≡ declarator.behind_parameters (with_texts t outer) (with_texts t scope.old)) × (map object_type_of result.items ≡ scope.old.objects) }
{
    scope.outside(block);
    scope.change_objects(objects)
}
