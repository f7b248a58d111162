//! Objects and parameters: their types, and the values of those that are constant.

use crate::checking::{Checked, check_program};
use crate::declarators::declarators;
use crate::insertions::{Insertion, set_with};
use crate::sources::{files_of, stack_of};
use crate::types::{object_text, parameter_text};
use lint_report::Files;
use lsp_program::{Declared, ObjectFact, Part, Unit};
use srcset::Pos;
use std::alloc::{AllocError, Global};
use typed_ast::{Function, ObjectType, ParameterType, Static};

/// The name of an object that is declared like another one.
const OBJECT: &str = "zkc_like_object";

/// The compiler's facts about an object or a parameter; `None` where it rejects the program, or where the declaration is not sure. That of an automatic
/// object is found by its token, and one of the whole unit by its name, if no other object with static storage has it. For another one, a like object is
/// declared after it.
pub fn object_fact(
    alloc: Global,
    unit: Unit<'_>,
    declared: Declared<'_>,
) -> Result<Option<ObjectFact>, AllocError> {
    let files = files_of(alloc, unit)?;
    let Some(set) = files.laid_set(alloc)? else {
        return Ok(None);
    };
    let Some(whole) = check_program(alloc, &set, unit.main, stack_of(unit))? else {
        return Ok(None);
    };
    if let Some((function, number)) = declared.parameter {
        return parameter_fact(alloc, &whole, function, number);
    }
    let found = if declared.is_global {
        static_fact(alloc, &whole, declared.name)?
    } else {
        local_fact(alloc, &files, &whole, declared.at)?
    };
    if found.is_some() || !files.is_laid {
        return Ok(found);
    }
    like_fact(alloc, unit, declared)
}

/// Of an object with static storage that is declared in a block, or has not its name alone: of one more with a like declarator and initialiser directly
/// after its own.
fn like_fact(
    alloc: Global,
    unit: Unit<'_>,
    declared: Declared<'_>,
) -> Result<Option<ObjectFact>, AllocError> {
    let file = declared.at.file;
    let bytes = unit.set.get(file).unwrap_or_default();
    let end = declarator_end(bytes, declared.end);
    let mut like = format!(in alloc; ", {OBJECT}")?.into_bytes();
    like.extend_from_slice(bytes.get(declared.at.end..end).unwrap_or_default())?;
    let mut insertions = Vec::new(alloc);
    insertions.push(Insertion {
        at: end,
        bytes: like,
    })?;
    let Some(set) = set_with(alloc, unit, file, insertions.as_slice())? else {
        return Ok(None);
    };
    match check_program(alloc, &set, unit.main, stack_of(unit))? {
        Some(whole) => static_fact(alloc, &whole, OBJECT),
        None => Ok(None),
    }
}

/// Where a declarator with its initialiser ends, where the `;` may follow it.
fn declarator_end(bytes: &[u8], end: usize) -> usize {
    let last = end.saturating_sub(1);
    if bytes.get(last).copied() == Some(b';') {
        last
    } else {
        end
    }
}

/// Of the automatic object whose declarator has its name at this place.
fn local_fact(
    alloc: Global,
    files: &Files<'_>,
    whole: &Checked,
    at: Part<'_>,
) -> Result<Option<ObjectFact>, AllocError> {
    for function in &whole.program.functions {
        if let Some(fact) = automatic_fact(alloc, files, whole, function, at)? {
            return Ok(Some(fact));
        }
    }
    Ok(None)
}

/// Of that of this function.
fn automatic_fact(
    alloc: Global,
    files: &Files<'_>,
    whole: &Checked,
    function: &Function,
    at: Part<'_>,
) -> Result<Option<ObjectFact>, AllocError> {
    for declarator in declarators(alloc, function)? {
        if stands_at(files, whole, declarator.at, at) {
            return match function.objects.get(declarator.object) {
                Some(ty) => Ok(Some(fact_of(alloc, ty, declarator.value)?)),
                None => Ok(None),
            };
        }
    }
    Ok(None)
}

/// Whether the token on a line of the files as they are laid out is this one.
fn stands_at(files: &Files<'_>, whole: &Checked, pos: Pos, at: Part<'_>) -> bool {
    let name = whole.names.file_name(pos.file);
    if name != at.file {
        return false;
    }
    let place = files.place(name, pos.line);
    place.start == at.start && place.end == at.end
}

fn fact_of(alloc: Global, ty: &ObjectType, value: Option<i64>) -> Result<ObjectFact, AllocError> {
    let is_constant = ty.constant && ty.lengths.is_empty();
    Ok(ObjectFact {
        type_text: object_text(alloc, ty)?,
        value: if is_constant { value } else { None },
    })
}

/// Of the only object with static storage that has this name.
fn static_fact(
    alloc: Global,
    whole: &Checked,
    name: &str,
) -> Result<Option<ObjectFact>, AllocError> {
    match whole.only_static(name) {
        Some(object) if is_sure(object) => {
            Ok(Some(fact_of(alloc, &object.object_type, first_value(object))?))
        }
        Some(_) => Ok(None),
        None => Ok(None),
    }
}

/// Whether the type is that of the declarations: an array that is only declared, and without a size, has one element in a typed program.
fn is_sure(object: &Static) -> bool {
    object.defined || object.object_type.lengths.first().copied() != Some(1)
}

/// The value of the first element; 0 where none is written, but none of an object that is only declared.
fn first_value(object: &Static) -> Option<i64> {
    if !object.defined {
        return None;
    }
    Some(object.values.first().copied().unwrap_or(0))
}

/// Of the parameter of this number.
fn parameter_fact(
    alloc: Global,
    whole: &Checked,
    function: &str,
    number: usize,
) -> Result<Option<ObjectFact>, AllocError> {
    let Some(function) = whole.function(function) else {
        return Ok(None);
    };
    let Some(ty) = function.function_type.parameters.get(number) else {
        return Ok(None);
    };
    let type_text = match own_type(function, number) {
        Some(own) => object_text(alloc, own)?,
        None => parameter_text(alloc, ty)?,
    };
    Ok(Some(ObjectFact {
        type_text,
        value: None,
    }))
}

/// The type of the object that a parameter of this number is; `None` of one that refers to an array.
fn own_type(function: &Function, number: usize) -> Option<&ObjectType> {
    let parameters = function.function_type.parameters.as_slice();
    match parameters.get(number)? {
        ParameterType::Number(_) => {}
        ParameterType::Elements(_) => return None,
    }
    let before = numbers_in(parameters.get(..number)?);
    function.objects.get(before)
}

/// How many of these parameters are numbers.
fn numbers_in(parameters: &[ParameterType]) -> usize {
    let mut count: usize = 0;
    for parameter in parameters {
        if matches!(parameter, ParameterType::Number(_)) {
            count = count.saturating_add(1);
        }
    }
    count
}
