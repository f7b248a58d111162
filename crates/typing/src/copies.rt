//! Cloning of function types.
#![tactic(auto)]

ghost use Rattle.std.specs.Prelude.{◌≡◌, map, IfErr, IfOk};
ghost use Rattle.srcset.specs.declared.refusal.Refusal.TheVariants.{Memory};
ghost use Rattle.typed_ast.specs.View.{parameter_type_of, function_type_of};

use decls_linkage::copied;
use srcset::Refusal;
use std::alloc::Global;
use typed_ast::{FunctionType, ParameterType};

fn copied_parameter(alloc: Global, parameter: &ParameterType) -> Result<ParameterType, Refusal>
    ensures ok { IfOk result (λ t. parameter_type_of t ≡ parameter_type_of parameter.now) }
    ensures err { IfErr result (λ r. r ≡ Memory) }
{
    match parameter {
        ParameterType::Number(ty) => Ok(ParameterType::Number(*ty)),
        ParameterType::Elements(element) => match copied(alloc, element) {
            Ok(element) => Ok(ParameterType::Elements(element)),
            Err(refusal) => Err(refusal),
        },
    }
}

fn copied_parameters(
    alloc: Global,
    parameters: &[ParameterType],
) -> Result<Vec<ParameterType>, Refusal>
    ensures ok { IfOk result (λ ts. map parameter_type_of ts.items ≡ map parameter_type_of parameters.now) }
    ensures err { IfErr result (λ r. r ≡ Memory) }
{
    let Ok(mut copies) = Vec::with_capacity(alloc, parameters.len()) else {
        return Err(Refusal::Memory);
    };
    for parameter in parameters {
        let Ok(copy) = copied_parameter(alloc, parameter) else {
            return Err(Refusal::Memory);
        };
        match copies.push(copy) {
            Ok(()) => {}
            Err(_) => return Err(Refusal::Memory),
        }
    }
    Ok(copies)
}

/// A copy of the function's type.
pub(crate) fn copied_function(
    alloc: Global,
    function: &FunctionType,
) -> Result<FunctionType, Refusal>
    ensures ok { IfOk result (λ f. function_type_of f ≡ function_type_of function.now) }
    ensures err { IfErr result (λ r. r ≡ Memory) }
{
    match copied_parameters(alloc, &function.parameters) {
        Ok(parameters) => Ok(FunctionType {
            result: function.result,
            constant: function.constant,
            parameters,
        }),
        Err(refusal) => Err(refusal),
    }
}
