//! The variables and the parameters of functions, with their types and where they live.

use cc::{FunctionCode, ObjectHome, ScopeCode};
use ctypes::IntType;
use object_names::{FunctionNames, ProgramNames};
use std::alloc::{AllocError, Global};
use typed_ast::{ObjectType, ParameterType, Program};

/// The type of a variable: elements of an integer type, in arrays of these lengths, from the outermost. A reference is the type of a
/// parameter that is an array: a pointer to this type (6.7.6.3p7).
#[derive(Drop)]
pub struct VariableType {
    pub element: IntType,
    pub is_const: bool,
    pub lengths: Vec<u32>,
    pub is_reference: bool,
}

/// A variable or a parameter.
#[derive(Drop)]
pub struct Variable {
    pub name: String,
    pub variable_type: VariableType,
    pub home: ObjectHome,
}

/// The variables of a block, or of a `for` with its declarations, without those of blocks within it.
#[derive(Drop)]
pub struct Block {
    /// The address of its first instruction, and the one after its last.
    pub start: u32,
    pub end: u32,
    pub variables: Vec<Variable>,
}

/// The debug information on a function apart from its lines.
#[derive(Drop)]
pub struct FunctionVariables {
    /// The type of its result; none of a function without one.
    pub result: Option<IntType>,
    pub parameters: Vec<Variable>,
    /// Those of its body, without those of blocks within it.
    pub variables: Vec<Variable>,
    /// The blocks within its body that have variables, each before those within it.
    pub blocks: Vec<Block>,
}

/// The type of an object.
pub(crate) fn object_type(
    alloc: Global,
    object: &ObjectType,
    is_reference: bool,
) -> Result<VariableType, AllocError> {
    Ok(VariableType {
        element: object.element,
        is_const: object.constant,
        lengths: Vec::from_slice(alloc, object.lengths.as_slice())?,
        is_reference,
    })
}

/// Appends a variable, if its name and its place are known.
fn put_variable(
    alloc: Global,
    name: &str,
    variable_type: VariableType,
    home: Option<&ObjectHome>,
    variables: &mut Vec<Variable>,
) -> Result<(), AllocError> {
    if let Some(home) = home {
        if !name.is_empty() {
            variables.push(Variable {
                name: String::from_str(alloc, name)?,
                variable_type,
                home: *home,
            })?;
        }
    }
    Ok(())
}

/// The parameters of a function, in their order.
fn parameters(
    alloc: Global,
    function: &typed_ast::Function,
    code: &FunctionCode,
    names: &FunctionNames,
) -> Result<Vec<Variable>, AllocError> {
    let mut variables = Vec::new(alloc);
    let mut number: usize = 0;
    let mut array: usize = 0;
    for parameter in &function.function_type.parameters {
        match parameter {
            ParameterType::Number(_) => {
                put_object(alloc, function, code, names, number, &mut variables)?;
                number = number.saturating_add(1);
            }
            ParameterType::Elements(row) => {
                let name = names.arrays.get(array).map_or("", |name| name.as_str());
                let referred = object_type(alloc, row, true)?;
                let home = code.homes.arrays.get(array);
                put_variable(alloc, name, referred, home, &mut variables)?;
                array = array.saturating_add(1);
            }
        }
    }
    Ok(variables)
}

/// Appends the object with this number.
fn put_object(
    alloc: Global,
    function: &typed_ast::Function,
    code: &FunctionCode,
    names: &FunctionNames,
    number: usize,
    variables: &mut Vec<Variable>,
) -> Result<(), AllocError> {
    let (Some(object), Some(named)) = (function.objects.get(number), names.objects.get(number))
    else {
        return Ok(());
    };
    let variable_type = object_type(alloc, object, false)?;
    let home = code.homes.objects.get(number);
    put_variable(alloc, named.name.as_str(), variable_type, home, variables)
}

/// For each object of a function the number of the innermost scope that has it, and one more; 0 for a parameter.
fn innermost(
    alloc: Global,
    objects: usize,
    scopes: &[ScopeCode],
) -> Result<Vec<usize>, AllocError> {
    let mut found = vec![in alloc; 0usize; objects]?;
    for (number, scope) in scopes.iter().enumerate() {
        let end = scope.first.saturating_add(scope.count);
        for object in scope.first..end.min(objects) {
            if let Some(inner) = found.get_mut(object) {
                *inner = number.saturating_add(1);
            }
        }
    }
    Ok(found)
}

/// The variables that are in the scope with this number, and in no scope within it.
fn variables_of(
    alloc: Global,
    function: &typed_ast::Function,
    code: &FunctionCode,
    names: &FunctionNames,
    inner: &[usize],
    number: usize,
) -> Result<Vec<Variable>, AllocError> {
    let mut variables = Vec::new(alloc);
    if let Some(scope) = code.scopes.get(number) {
        let end = scope.first.saturating_add(scope.count);
        for object in scope.first..end.min(inner.len()) {
            if inner.get(object).copied() == Some(number.saturating_add(1)) {
                put_object(alloc, function, code, names, object, &mut variables)?;
            }
        }
    }
    Ok(variables)
}

/// Adds the blocks after the first one, the body, that have variables.
fn put_blocks(
    alloc: Global,
    function: &typed_ast::Function,
    code: &FunctionCode,
    names: &FunctionNames,
    inner: &[usize],
    blocks: &mut Vec<Block>,
) -> Result<(), AllocError> {
    for (number, scope) in code.scopes.iter().enumerate() {
        let variables = variables_of(alloc, function, code, names, inner, number)?;
        if number != 0 && !variables.is_empty() {
            blocks.push(Block {
                start: scope.start,
                end: scope.end,
                variables,
            })?;
        }
    }
    Ok(())
}

/// The variables of a function. Its first scope is its body.
fn found_variables(
    alloc: Global,
    function: &typed_ast::Function,
    code: &FunctionCode,
    names: &FunctionNames,
) -> Result<FunctionVariables, AllocError> {
    let inner = innermost(alloc, function.objects.len(), code.scopes.as_slice())?;
    let inner = inner.as_slice();
    let mut blocks = Vec::new(alloc);
    put_blocks(alloc, function, code, names, inner, &mut blocks)?;
    Ok(FunctionVariables {
        result: function.function_type.result,
        parameters: parameters(alloc, function, code, names)?,
        variables: variables_of(alloc, function, code, names, inner, 0)?,
        blocks,
    })
}

/// The variables of the function with this number. Where a name is not known, the variable is left out.
pub(crate) fn function_variables(
    alloc: Global,
    program: &Program,
    names: &ProgramNames,
    number: usize,
    code: &FunctionCode,
) -> Result<FunctionVariables, AllocError> {
    match (program.functions.get(number), names.functions.get(number)) {
        (Some(function), Some(named)) => found_variables(alloc, function, code, named),
        _ => Ok(FunctionVariables {
            result: None,
            parameters: Vec::new(alloc),
            variables: Vec::new(alloc),
            blocks: Vec::new(alloc),
        }),
    }
}
