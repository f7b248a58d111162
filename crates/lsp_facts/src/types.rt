//! Types as C spells them (ISO/IEC 9899:2011 6.7.7).

use ctypes::IntType;
use std::alloc::{AllocError, Global};
use typed_ast::{FunctionType, ObjectType, ParameterType};

/// The type of an object: `const int [3][4]`.
pub(crate) fn object_text(alloc: Global, ty: &ObjectType) -> Result<String, AllocError> {
    let mut text = String::new(alloc);
    put_element(ty.constant, ty.element, &mut text)?;
    if !ty.lengths.is_empty() {
        text.push(' ')?;
    }
    put_lengths(alloc, ty.lengths.as_slice(), &mut text)?;
    Ok(text)
}

/// The type of a parameter: `int`, or `const int [][4]` of one that refers to an array.
pub(crate) fn parameter_text(alloc: Global, ty: &ParameterType) -> Result<String, AllocError> {
    match ty {
        ParameterType::Number(number) => String::from_str(alloc, type_word(*number)),
        ParameterType::Elements(elements) => elements_text(alloc, elements),
    }
}

fn elements_text(alloc: Global, elements: &ObjectType) -> Result<String, AllocError> {
    let mut text = String::new(alloc);
    put_element(elements.constant, elements.element, &mut text)?;
    text.push_str(" []")?;
    put_lengths(alloc, elements.lengths.as_slice(), &mut text)?;
    Ok(text)
}

/// The type of a function: `int (const int [], int)`.
pub(crate) fn function_text(alloc: Global, ty: &FunctionType) -> Result<String, AllocError> {
    let mut text = String::new(alloc);
    match ty.result {
        Some(result) => put_element(ty.constant, result, &mut text)?,
        None => text.push_str("void")?,
    }
    text.push_str(" (")?;
    put_parameters(alloc, ty.parameters.as_slice(), &mut text)?;
    text.push_str(")")?;
    Ok(text)
}

fn put_parameters(
    alloc: Global,
    parameters: &[ParameterType],
    text: &mut String,
) -> Result<(), AllocError> {
    if parameters.is_empty() {
        return text.push_str("void");
    }
    for (number, parameter) in parameters.iter().enumerate() {
        text.push_str(if number == 0 { "" } else { ", " })?;
        text.push_str(parameter_text(alloc, parameter)?.as_str())?;
    }
    Ok(())
}

fn put_element(is_constant: bool, ty: IntType, text: &mut String) -> Result<(), AllocError> {
    text.push_str(if is_constant { "const " } else { "" })?;
    text.push_str(type_word(ty))
}

fn put_lengths(alloc: Global, lengths: &[u32], text: &mut String) -> Result<(), AllocError> {
    for length in lengths {
        text.push_str(format!(in alloc; "[{length}]")?.as_str())?;
    }
    Ok(())
}

fn type_word(ty: IntType) -> &'static str {
    match ty {
        IntType::Bool => "_Bool",
        IntType::Char => "char",
        IntType::SChar => "signed char",
        IntType::UChar => "unsigned char",
        IntType::Short => "short",
        IntType::UShort => "unsigned short",
        IntType::Int => "int",
        IntType::UInt => "unsigned int",
        IntType::Long => "long",
        IntType::ULong => "unsigned long",
    }
}
