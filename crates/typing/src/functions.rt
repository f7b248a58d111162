//! Function definitions (6.9.1).
#![tactic(auto, using(decls_declarators::proofs::Verdicts::told))]

ghost use Rattle.std.specs.Prelude.{◌≡◌, ◌++◌, List, map, IfErr, IfOk, OnOk};
ghost use Rattle.tree.specs.View as tree_view;
ghost use Rattle.tree.specs.View.{parameter_of};
ghost use Rattle.typed_ast.specs.View.{object_type_of, parameter_type_of, function_type_of};
ghost use Rattle.typing_spec.specs.Verdict.{fine};
ghost use Rattle.typing_spec.specs.Scope as scope_typed;
ghost use Rattle.typing_spec.specs.Declarators as declarator;
ghost use Rattle.typing_spec.specs.Linkage as linkage_typed;
ghost use Rattle.decls_linkage.specs.Views.{class_of};
ghost use Rattle.typing_spec.specs.Units as typed;
ghost use Rattle.typing_expressions.specs.Refused.{Tells};
ghost use Rattle.const_expr.specs.Typings.{base_type_of};
ghost use Rattle.decls_specifiers.specs.Views.{specified_of};
ghost use Rattle.typing_scopes.specs.Scopes.{with_texts, block_of};
ghost use Rattle.typing_units.specs.declared.first_values.Initial.{Initial};
ghost use Rattle.typing_units.specs.Views.{built_of};
ghost use Rattle.typing.specs.inside.Bodies.{one_more, with_parameters};

use crate::bodies::function_body;
use crate::copies::copied_function;
use crate::heads::{leave_parameters, named_parameters};
use decls_declarators::Entered;
use decls_linkage::file_function;
use decls_specifiers::{SpecifiedBase, specified};
use srcset::{Names, Refusal};
use std::alloc::Global;
use typed_ast::{Function, FunctionType};
use typing_scopes::{Scope, State};
use typing_units::Initial;

/// Declares the name of a function, whose scope begins after its parameters.
fn declare_function(
    alloc: Global,
    names: &Names,
    scope: &mut Scope,
    said: SpecifiedBase,
    function: &tree::Function,
    function_type: &FunctionType,
) -> Result<(), Refusal>
    ensures ok { OnOk result (linkage_typed.file_function (with_texts names.now scope.old) function.now.declarator.pos function.now.declarator.name (class_of said.class) (function_type_of function_type.now) scope_typed.defined ≡ fine (with_texts names.now scope.new)) }
    ensures err { IfErr result (λ r. Tells r (linkage_typed.file_function (with_texts names.now scope.old) function.now.declarator.pos function.now.declarator.name (class_of said.class) (function_type_of function_type.now) scope_typed.defined)) }
{
    let Ok(copy) = copied_function(alloc, function_type) else {
        return Err(Refusal::Memory);
    };
    match file_function(
        alloc,
        names,
        scope,
        function.declarator.pos,
        function.declarator.name,
        said.class,
        copy,
        State::Defined,
    ) {
        Ok(()) => Ok(()),
        Err(refusal) => Err(refusal),
    }
}

/// A function whose parameters have been typed.
fn with_type(
    alloc: Global,
    names: &Names,
    scope: &mut Scope,
    initial: &mut Vec<Initial>,
    function: &tree::Function,
    said: SpecifiedBase,
    entered: Entered,
    stack: u32,
) -> Result<Function, Refusal>
    ensures ok { (outer : scope_typed.Scope) → declarator.parameters_in (with_texts names.now outer) (map parameter_of function.now.declarator.parameters.items) ≡ fine (record { types = map parameter_type_of entered.types.items; scope = with_texts names.now scope.old }) → entered.block ≡ block_of outer → map object_type_of entered.objects.items ≡ outer.objects → IfOk result (λ g. (js : List Initial) × (initial.new.items ≡ initial.old.items ++ js) × ((b : typed.Built) → b.stack ≡ stack → with_parameters b (tree_view.function_of function.now) (specified_of said (with_texts names.now outer)) (record { types = map parameter_type_of entered.types.items; scope = with_texts names.now scope.old }) ≡ fine (one_more b (with_texts names.now scope.new) g js))) }
    ensures err { (outer : scope_typed.Scope) → declarator.parameters_in (with_texts names.now outer) (map parameter_of function.now.declarator.parameters.items) ≡ fine (record { types = map parameter_type_of entered.types.items; scope = with_texts names.now scope.old }) → entered.block ≡ block_of outer → map object_type_of entered.objects.items ≡ outer.objects → IfErr result (λ r. (b : typed.Built) → b.stack ≡ stack → Tells r (with_parameters b (tree_view.function_of function.now) (specified_of said (with_texts names.now outer)) (record { types = map parameter_type_of entered.types.items; scope = with_texts names.now scope.old }))) }
{
    let own = leave_parameters(scope, entered.block, entered.objects);
    let function_type = FunctionType {
        result: said.base.named,
        constant: said.base.constant,
        parameters: entered.types,
    };
    match declare_function(alloc, names, scope, said, function, &function_type) {
        Ok(()) => {}
        Err(refusal) => return Err(refusal),
    }
    match function_body(
        alloc,
        names,
        scope,
        initial,
        function,
        function_type,
        own,
        stack,
    ) {
        Ok(done) => Ok(done),
        Err(refusal) => Err(refusal),
    }
}

/// A function definition, after those before.
pub(crate) fn function_typed(
    alloc: Global,
    names: &Names,
    scope: &mut Scope,
    functions: &mut Vec<Function>,
    initial: &mut Vec<Initial>,
    function: &tree::Function,
    stack: u32,
) -> Result<(), Refusal>
    ensures ok { OnOk result (typed.function_typed (built_of stack (with_texts names.now scope.old) functions.old.items initial.old.items) (tree_view.function_of function.now) ≡ fine (built_of stack (with_texts names.now scope.new) functions.new.items initial.new.items)) }
    ensures err { IfErr result (λ r. Tells r (typed.function_typed (built_of stack (with_texts names.now scope.old) functions.old.items initial.old.items) (tree_view.function_of function.now))) }
{
    let said = match specified(alloc, names, scope, &function.specifiers) {
        Ok(said) => said,
        Err(refusal) => return Err(refusal),
    };
    let parameters = &function.declarator.parameters;
    let entered = match named_parameters(alloc, names, scope, parameters) {
        Ok(entered) => entered,
        Err(refusal) => return Err(refusal),
    };
    let done = match with_type(alloc, names, scope, initial, function, said, entered, stack) {
        Ok(done) => done,
        Err(refusal) => return Err(refusal),
    };
    let Ok(()) = functions.push(done) else {
        return Err(Refusal::Memory);
    };
    Ok(())
}
