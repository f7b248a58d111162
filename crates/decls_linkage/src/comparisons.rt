//! The same types, which are the compatible ones (6.2.7p1, 6.7.3p10, 6.7.6.2p6, 6.7.6.3p15).
#![tactic(auto)]

ghost use Rattle.std.specs.Prelude.{◌≡◌, false, map};
ghost use Rattle.typing_spec.specs.Types as typed;
ghost use Rattle.typed_ast.specs.View.{object_type_of, parameter_type_of, function_type_of};
ghost use Rattle.decls_linkage.specs.Views.{has_elements};

use ctypes::IntType;
use typed_ast::{FunctionType, ObjectType, ParameterType};

fn same_lengths(a: &[u32], b: &[u32]) -> bool
    ensures { result ≡ typed.same_lengths a.now b.now }
{
    match a.split_first() {
        None => b.is_empty(),
        Some((m, ms)) => match b.split_first() {
            None => false,
            Some((n, ns)) => *m == *n && same_lengths(ms, ns),
        },
    }
}

fn same_type(a: IntType, b: IntType) -> bool
    ensures { result ≡ typed.same_type a b }
{
    a == b
}

fn same_truth(a: bool, b: bool) -> bool
    ensures { result ≡ typed.same_truth a b }
{
    a == b
}

pub(crate) fn same_object(a: &ObjectType, b: &ObjectType) -> bool
    ensures { result ≡ typed.same_object (object_type_of a.now) (object_type_of b.now) }
{
    (same_type(a.element, b.element) && same_lengths(&a.lengths, &b.lengths))
        && same_truth(a.constant, b.constant)
}

/// Whether the one is an array of such elements.
pub(crate) fn is_array_of(array: &ObjectType, element: &ObjectType) -> bool
    ensures { result ≡ has_elements (object_type_of array.now) (object_type_of element.now) }
{
    match array.lengths.split_first() {
        None => false,
        Some((_, lengths)) => {
            (same_type(array.element, element.element) && same_lengths(lengths, &element.lengths))
                && same_truth(array.constant, element.constant)
        }
    }
}

fn same_parameter(a: &ParameterType, b: &ParameterType) -> bool
    ensures { result ≡ typed.same_parameter (parameter_type_of a.now) (parameter_type_of b.now) }
{
    match a {
        ParameterType::Number(a) => match b {
            ParameterType::Number(b) => same_type(*a, *b),
            ParameterType::Elements(_) => false,
        },
        ParameterType::Elements(a) => match b {
            ParameterType::Number(_) => false,
            ParameterType::Elements(b) => same_object(a, b),
        },
    }
}

fn same_parameters(a: &[ParameterType], b: &[ParameterType]) -> bool
    ensures { result ≡ typed.same_parameters (map parameter_type_of a.now) (map parameter_type_of b.now) }
{
    for (index, parameter) in a.iter().enumerate() {
        let Some(other) = b.get(index) else {
            return false;
        };
        if !same_parameter(parameter, other) {
            return false;
        }
    }
    a.len() == b.len()
}

fn same_result(a: Option<IntType>, b: Option<IntType>) -> bool
    ensures { result ≡ typed.same_result a b }
{
    match a {
        None => match b {
            None => true,
            Some(_) => false,
        },
        Some(a) => match b {
            None => false,
            Some(b) => same_type(a, b),
        },
    }
}

pub(crate) fn same_function(a: &FunctionType, b: &FunctionType) -> bool
    ensures { result ≡ typed.same_function (function_type_of a.now) (function_type_of b.now) }
{
    same_result(a.result, b.result)
        && (same_truth(a.constant, b.constant) && same_parameters(&a.parameters, &b.parameters))
}

/// Whether this is the function's type, whose result is not `const`.
pub(crate) fn has_type(
    result_type: Option<IntType>,
    parameters: &[ParameterType],
    function: &FunctionType,
) -> bool
    ensures { result ≡ typed.same_function (record { result = result_type; constant = false; parameters = map parameter_type_of parameters.now }) (function_type_of function.now) }
{
    same_result(result_type, function.result)
        && (same_truth(false, function.constant)
            && same_parameters(parameters, &function.parameters))
}
