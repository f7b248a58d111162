//! Function definitions (6.9.1).
#![tactic(auto)]

ghost use Rattle.std.specs.Prelude.{◌≡◌, map, not, nat_lt, OnOk, IfOk, IfErr};
ghost use Rattle.srcset.specs.declared.code.Code.TheVariants as code;
ghost use Rattle.tree.specs.View.{parameter_of, function_of};
ghost use Rattle.typed_ast.specs.View as view;
ghost use Rattle.typing_spec.specs.Verdict.{fine, refuse_if};
ghost use Rattle.typing_spec.specs.Program as program_typed;
ghost use Rattle.typing_spec.specs.Statements.{AllDone};
ghost use Rattle.typing_spec.specs.Units as typed;
ghost use Rattle.typing_expressions.specs.Refused.{IsOf};
ghost use Rattle.typing_units.specs.inside.Parts.{is_number};

use crate::weights::{weight, within_weight};
use srcset::{Code, Pos, Refusal};
use tree::Parameter;
use typed_ast::{Function, FunctionType, ObjectType, ParameterType, Statement};
use typing_expressions::broken;

fn named(parameter: &Parameter) -> Result<(), Refusal>
    ensures ok { OnOk result (refuse_if (not (typed.has_name (parameter_of parameter.now).name)) code.UnnamedParameter (parameter_of parameter.now).at ≡ fine tt) }
    ensures err { IfErr result (λ r. IsOf r (refuse_if (not (typed.has_name (parameter_of parameter.now).name)) code.UnnamedParameter (parameter_of parameter.now).at)) }
{
    match parameter.name {
        Some(_) => Ok(()),
        None => Err(broken(Code::UnnamedParameter, parameter.pos)),
    }
}

/// Each parameter of a definition has a name (6.9.1p5). Else reports 527 at the first that has none.
pub fn all_named(parameters: &[Parameter]) -> Result<(), Refusal>
    ensures ok { OnOk result (typed.all_named (map parameter_of parameters.now) ≡ fine tt) }
    ensures err { IfErr result (λ r. IsOf r (typed.all_named (map parameter_of parameters.now))) }
{
    for parameter in parameters {
        match named(parameter) {
            Ok(()) => {}
            Err(refusal) => return Err(refusal),
        }
    }
    Ok(())
}

fn is_number(parameter: &ParameterType) -> bool
    ensures { result ≡ is_number (view.parameter_type_of parameter.now) }
{
    match parameter {
        ParameterType::Number(_) => true,
        ParameterType::Elements(_) => false,
    }
}

/// How many parameters are numbers.
pub fn numbers_in(parameters: &[ParameterType]) -> usize
    ensures { result ≡ typed.numbers_in (map view.parameter_type_of parameters.now) }
{
    let mut count = 0;
    for parameter in parameters {
        if is_number(parameter) {
            count += 1;
        }
    }
    count
}

/// A body with these statements.
fn block(at: Pos, first: usize, count: usize, statements: Vec<Statement>) -> Statement
    ensures { view.statement_of result ≡ program_typed.block first count (view.statements_of (map view.statement_of statements.items)) }
{
    Statement::Block(at, first, count, statements)
}

/// A function of this type, whose definition has these objects and whose body these statements. Where it weighs more than the bytes of the
/// stack, reports 714 at its name.
pub fn function_of(
    function: &tree::Function,
    function_type: FunctionType,
    objects: Vec<ObjectType>,
    statements: Vec<Statement>,
    stack: u32,
) -> Result<Function, Refusal>
    ensures ok { (all : AllDone) → all.scope.objects ≡ map view.object_type_of objects.items → all.statements ≡ view.statements_of (map view.statement_of statements.items) → IfOk result (λ f. view.function_of f ≡ typed.function_of (function_of function.now) (view.function_type_of function_type) all) }
    ensures within { OnOk result (refuse_if (nat_lt stack (typed.weight (function_of function.now) (view.function_type_of function_type).parameters (map view.object_type_of objects.items))) code.WeightLimit (function_of function.now).at ≡ fine tt) }
    ensures err { IfErr result (λ r. IsOf r (refuse_if (nat_lt stack (typed.weight (function_of function.now) (view.function_type_of function_type).parameters (map view.object_type_of objects.items))) code.WeightLimit (function_of function.now).at)) }
{
    let weight = weight(function, &function_type.parameters, &objects);
    match within_weight(function.declarator.pos, weight, stack) {
        Ok(()) => {}
        Err(refusal) => return Err(refusal),
    }
    let numbers = numbers_in(&function_type.parameters);
    let others = objects.len().saturating_sub(numbers);
    Ok(Function {
        name: function.declarator.name,
        function_type,
        objects,
        body: block(function.declarator.pos, numbers, others, statements),
        nodes: function.nodes(),
        weight,
    })
}
