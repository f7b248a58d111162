//! Where a program begins (5.1.2.2.1): `int main(void)`, with external linkage.
#![tactic(auto)]

ghost use Rattle.std.specs.Prelude.{◌≡◌, false, [], Some, map};
ghost use Rattle.ctypes.specs.declared.types.IntType.TheVariants as ty;
ghost use Rattle.typed_ast.specs.View.{parameter_type_of, function_type_of, function_of};
ghost use Rattle.typing_scopes.specs.Scopes.{option_binding, linkage_of, with_texts};
ghost use Rattle.typing_spec.specs.Types as type;
ghost use Rattle.typing_spec.specs.Scope as scope_typed;
ghost use Rattle.typing_spec.specs.Units as typed;

use ctypes::IntType;
use srcset::Names;
use typed_ast::{Function, FunctionType, ParameterType};
use typing_scopes::{Binding, Linkage, Scope, is_called};

fn is_int(given: Option<IntType>) -> bool
    ensures { result ≡ type.same_result given (Some ty.Int) }
{
    match given {
        Some(ty) => ty == IntType::Int,
        None => false,
    }
}

/// Whether a result is not `const`.
fn is_variable(constant: bool) -> bool
    ensures { result ≡ type.same_truth constant false }
{
    !constant
}

fn is_without_parameters(parameters: &[ParameterType]) -> bool
    ensures { result ≡ type.same_parameters (map parameter_type_of parameters.now) [] }
{
    parameters.is_empty()
}

/// Whether this is the type of `main`.
fn is_type_of_main(function: &FunctionType) -> bool
    ensures { result ≡ type.same_function (function_type_of function.now) typed.main_type }
{
    is_int(function.result)
        && (is_variable(function.constant) && is_without_parameters(&function.parameters))
}

fn has_external(linkage: Linkage) -> bool
    ensures { (b : scope_typed.Binding) → b.linkage ≡ linkage_of linkage → result ≡ typed.is_external (Some b) }
{
    match linkage {
        Linkage::None => false,
        Linkage::Internal => false,
        Linkage::External => true,
    }
}

fn is_external(binding: Option<&Binding>) -> bool
    ensures { result ≡ typed.is_external (option_binding binding.entry) }
{
    match binding {
        None => false,
        Some(binding) => has_external(binding.linkage),
    }
}

fn is_main(names: &Names, scope: &Scope, function: &Function) -> bool
    ensures { result ≡ typed.is_main (with_texts names.now scope.now) (function_of function.now) }
{
    is_called(names, function.name, b"main")
        && (is_type_of_main(&function.function_type) && is_external(scope.lookup(function.name)))
}

/// The number of the first function that is `main`, if one is.
pub fn main_from(names: &Names, scope: &Scope, functions: &[Function]) -> Option<usize>
    ensures { result ≡ typed.main_from (with_texts names.now scope.now) 0 (map function_of functions.now) }
{
    for (number, function) in functions.iter().enumerate() {
        if is_main(names, scope, function) {
            return Some(number);
        }
    }
    None
}
