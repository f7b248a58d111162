//! Bodies of functions (6.9.1).
#![tactic(auto)]

ghost use Rattle.std.specs.Prelude.{◌≡◌, ◌++◌, List, None, map, IfErr, IfOk, OnOk};
ghost use Rattle.srcset.specs.declared.refusal.Refusal.TheVariants.{Memory};
ghost use Rattle.tree.specs.View as tree_view;
ghost use Rattle.tree.specs.View.{parameter_of, piece_of, pieces_of};
ghost use Rattle.typed_ast.specs.View.{object_type_of, parameter_type_of, function_type_of};
ghost use Rattle.typing_spec.specs.Verdict.{fine};
ghost use Rattle.typing_spec.specs.Units as typed;
ghost use Rattle.typing_spec.specs.Statements as statements_typed;
ghost use Rattle.typing_expressions.specs.Refused.{Tells};
ghost use Rattle.typing_scopes.specs.Scopes.{with_texts, block_of};
ghost use Rattle.typing_units.specs.declared.first_values.Initial.{Initial};
ghost use Rattle.typing_statements.specs.declared.labels.Label.{Label};
ghost use Rattle.typing_statements.specs.Views.{around_of, all_done_of};
ghost use Rattle.typing.specs.inside.Names.{names_of};
ghost use Rattle.typing.specs.inside.Bodies.{entered, body_read, one_more};

use crate::parameter_names::parameters_again;
use srcset::{Names, Refusal};
use std::alloc::Global;
use tree::{BlockItem, Parameter};
use typed_ast::{Function, FunctionType, ObjectType, ParameterType, Statement};
use typing_scopes::{Block, Scope};
use typing_statements::{Around, pieces};
use typing_units::{Initial, function_of};

/// The scope of a body begins, with the names of the parameters and with those objects that are parameters.
fn enter_body(
    alloc: Global,
    scope: &mut Scope,
    parameters: &[Parameter],
    types: &[ParameterType],
    own: Vec<ObjectType>,
) -> Result<Block, Refusal>
    ensures ok { IfOk result (λ b. (b ≡ block_of scope.old) × (scope.new ≡ entered (names_of (map parameter_of parameters.now)) (map parameter_type_of types.now) (map object_type_of own.items) scope.old)) }
    ensures err { IfErr result (λ r. r ≡ Memory) }
{
    let Ok(block) = scope.inside() else {
        return Err(Refusal::Memory);
    };
    match parameters_again(alloc, scope, parameters, types, &own) {
        Ok(()) => {}
        Err(refusal) => return Err(refusal),
    }
    scope.change_objects(own);
    Ok(block)
}

/// The statements of a body.
fn body_statements(
    alloc: Global,
    names: &Names,
    scope: &mut Scope,
    initial: &mut Vec<Initial>,
    function_type: &FunctionType,
    items: &[BlockItem],
) -> Result<Vec<Statement>, Refusal>
    ensures ok { IfOk result (λ xs. (ms : List Label) × (js : List Initial) × (initial.new.items ≡ initial.old.items ++ js) × (statements_typed.pieces (typed.around_of (function_type_of function_type.now)) None (with_texts names.now scope.old) (pieces_of (map piece_of items.now)) ≡ fine (all_done_of (with_texts names.now scope.new) ms js xs.items))) }
    ensures err { IfErr result (λ r. Tells r (statements_typed.pieces (typed.around_of (function_type_of function_type.now)) None (with_texts names.now scope.old) (pieces_of (map piece_of items.now)))) }
{
    let around = Around {
        result: function_type.result,
        in_loop: false,
        in_switch: false,
    };
    let mut labels = Vec::new(alloc);
    let Ok(mut all) = Vec::with_capacity(alloc, items.len()) else {
        return Err(Refusal::Memory);
    };
    match pieces(
        alloc,
        names,
        around,
        None,
        items,
        scope,
        &mut labels,
        initial,
        &mut all,
    ) {
        Ok(()) => Ok(all),
        Err(refusal) => Err(refusal),
    }
}

/// A function of this type, whose name is in scope and whose parameters are not yet. After it the scope is that of the unit, without
/// objects of a function.
pub(crate) fn function_body(
    alloc: Global,
    names: &Names,
    scope: &mut Scope,
    initial: &mut Vec<Initial>,
    function: &tree::Function,
    function_type: FunctionType,
    own: Vec<ObjectType>,
    stack: u32,
) -> Result<Function, Refusal>
    ensures ok { IfOk result (λ g. (js : List Initial) × (initial.new.items ≡ initial.old.items ++ js) × ((b : typed.Built) → b.stack ≡ stack → body_read b (tree_view.function_of function.now) (function_type_of function_type) (with_texts names.now scope.old) (with_texts names.now (entered (names_of (map parameter_of function.now.declarator.parameters.items)) (map parameter_type_of function_type.parameters.items) (map object_type_of own.items) scope.old)) ≡ fine (one_more b (with_texts names.now scope.new) g js))) }
    ensures err { IfErr result (λ r. (b : typed.Built) → b.stack ≡ stack → Tells r (body_read b (tree_view.function_of function.now) (function_type_of function_type) (with_texts names.now scope.old) (with_texts names.now (entered (names_of (map parameter_of function.now.declarator.parameters.items)) (map parameter_type_of function_type.parameters.items) (map object_type_of own.items) scope.old)))) }
{
    let parameters = &function.declarator.parameters;
    let block = match enter_body(alloc, scope, parameters, &function_type.parameters, own) {
        Ok(block) => block,
        Err(_) => return Err(Refusal::Memory),
    };
    let statements = match body_statements(
        alloc,
        names,
        scope,
        initial,
        &function_type,
        &function.body,
    ) {
        Ok(statements) => statements,
        Err(refusal) => return Err(refusal),
    };
    scope.outside(block);
    let objects = scope.change_objects(Vec::new(alloc));
    match function_of(function, function_type, objects, statements, stack) {
        Ok(done) => Ok(done),
        Err(refusal) => Err(refusal),
    }
}
