//! The names of a program's functions and objects.

use crate::declarations::{Declared, put_declared};
use crate::declarators::{Declarator, put_items};
use srcset::Names;
use std::alloc::{AllocError, Global};
use tree::{External, Function, Unit};
use typed_ast::{ObjectType, ParameterType, Program};

/// An object of a function.
#[derive(Drop)]
pub struct ObjectName {
    /// Its name; empty where that is not known.
    pub name: String,
    /// The length of each array, from the outermost.
    pub lengths: Vec<u32>,
}

/// The names of a function.
#[derive(Drop)]
pub struct FunctionNames {
    pub name: String,
    /// The names of its parameters that are arrays, in their order; empty where a name is not known.
    pub arrays: Vec<String>,
    /// Its objects by number, the parameters that are numbers first.
    pub objects: Vec<ObjectName>,
}

/// The names of a program.
#[derive(Drop)]
pub struct ProgramNames {
    /// How many string literals there are, whose objects have the first numbers.
    pub literals: usize,
    /// The names of the objects with static storage, which have the next numbers.
    pub statics: Vec<String>,
    /// The functions by number.
    pub functions: Vec<FunctionNames>,
}

/// The names of a program that was made of this syntax tree. The numbers of names in both are those of `names`.
///
/// Errors: memory ran out.
pub fn program_names(
    alloc: Global,
    unit: &Unit,
    program: &Program,
    names: &Names,
) -> Result<ProgramNames, AllocError> {
    let mut statics = Vec::new(alloc);
    for object in &program.statics {
        statics.push(String::from_str(alloc, names.shown_text(object.name))?)?;
    }
    let mut functions = Vec::new(alloc);
    for function in &program.functions {
        functions.push(unnamed(alloc, function, names)?)?;
    }
    put_names(alloc, unit, program, names, functions.as_mut_slice())?;
    Ok(ProgramNames {
        literals: program.literals.len(),
        statics,
        functions,
    })
}

/// A function whose objects have no names yet.
fn unnamed(
    alloc: Global,
    function: &typed_ast::Function,
    names: &Names,
) -> Result<FunctionNames, AllocError> {
    let mut objects = Vec::new(alloc);
    for object in &function.objects {
        objects.push(nameless(alloc, object)?)?;
    }
    Ok(FunctionNames {
        name: String::from_str(alloc, names.shown_text(function.name))?,
        arrays: Vec::new(alloc),
        objects,
    })
}

fn nameless(alloc: Global, object: &ObjectType) -> Result<ObjectName, AllocError> {
    Ok(ObjectName {
        name: String::new(alloc),
        lengths: Vec::from_slice(alloc, object.lengths.as_slice())?,
    })
}

/// Stores the names of the functions' objects. The definitions of the tree are the functions of the program, in order (6.9.1).
fn put_names(
    alloc: Global,
    unit: &Unit,
    program: &Program,
    names: &Names,
    functions: &mut [FunctionNames],
) -> Result<(), AllocError> {
    let mut number: usize = 0;
    for external in &unit.externals {
        if let External::Function(defined) = external {
            put_function(alloc, defined, program, number, names, functions)?;
            number = number.saturating_add(1);
        }
    }
    Ok(())
}

/// Stores the names of the objects of the function with this number, where this is its definition.
fn put_function(
    alloc: Global,
    defined: &Function,
    program: &Program,
    number: usize,
    names: &Names,
    functions: &mut [FunctionNames],
) -> Result<(), AllocError> {
    let Some(function) = program.functions.get(number) else {
        return Ok(());
    };
    let Some(put) = functions.get_mut(number) else {
        return Ok(());
    };
    if defined.declarator.name != function.name {
        return Ok(());
    }
    put_parameters(alloc, defined, function, names, put)?;
    let mut declarators = Vec::new(alloc);
    put_items(defined.body.as_slice(), &mut declarators)?;
    let mut declared = Vec::new(alloc);
    put_declared(&function.body, &mut declared)?;
    if are_same(declarators.as_slice(), declared.as_slice()) {
        put_objects(
            alloc,
            declarators.as_slice(),
            declared.as_slice(),
            names,
            put,
        )?;
    }
    Ok(())
}

/// Stores the names of the parameters, where there are as many as the function's type has.
fn put_parameters(
    alloc: Global,
    defined: &Function,
    function: &typed_ast::Function,
    names: &Names,
    put: &mut FunctionNames,
) -> Result<(), AllocError> {
    let types = function.function_type.parameters.as_slice();
    if types.len() != defined.declarator.parameters.len() {
        return Ok(());
    }
    let mut numbers: usize = 0;
    for (place, parameter) in defined.declarator.parameters.iter().enumerate() {
        let text = match parameter.name {
            Some(name) => names.shown_text(name),
            None => "",
        };
        let name = String::from_str(alloc, text)?;
        if is_array(types.get(place)) {
            put.arrays.push(name)?;
        } else {
            put_name(&mut put.objects, numbers, name);
            numbers = numbers.saturating_add(1);
        }
    }
    Ok(())
}

/// Whether a parameter refers to an array.
fn is_array(parameter: Option<&ParameterType>) -> bool {
    match parameter {
        Some(ParameterType::Elements(_)) => true,
        Some(ParameterType::Number(_)) => false,
        None => false,
    }
}

fn put_name(objects: &mut [ObjectName], number: usize, name: String) {
    if let Some(object) = objects.get_mut(number) {
        object.name = name;
    }
}

/// Whether these are at the same places, in this order.
fn are_same(declarators: &[Declarator], declared: &[Declared]) -> bool {
    if declarators.len() != declared.len() {
        return false;
    }
    for (number, one) in declarators.iter().enumerate() {
        match declared.get(number) {
            Some(other) => if one.pos != other.pos {
                return false;
            },
            None => return false,
        }
    }
    true
}

/// Gives each declared object the name of its declarator.
fn put_objects(
    alloc: Global,
    declarators: &[Declarator],
    declared: &[Declared],
    names: &Names,
    put: &mut FunctionNames,
) -> Result<(), AllocError> {
    for (number, one) in declarators.iter().enumerate() {
        if let Some(other) = declared.get(number) {
            let name = String::from_str(alloc, names.shown_text(one.name))?;
            put_name(&mut put.objects, other.object, name);
        }
    }
    Ok(())
}
