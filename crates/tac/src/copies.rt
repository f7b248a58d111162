//! Copies of types of objects, string literals and objects with static storage.

ghost use Rattle.std.specs.Prelude.{◌≡◌, map, IfOk};
ghost use Rattle.typed_ast.specs.View.{object_type_of, static_of};

use std::alloc::{AllocError, Global};
use typed_ast::{ObjectType, Static};

fn copied_object(alloc: Global, object: &ObjectType) -> Result<ObjectType, AllocError>
    ensures { IfOk result (λ t. object_type_of t ≡ object_type_of object.now) }
{
    let mut lengths = Vec::new(alloc);
    lengths.extend_from_slice(&object.lengths)?;
    Ok(ObjectType {
        element: object.element,
        constant: object.constant,
        lengths,
    })
}

/// The types of the objects of a function.
pub(crate) fn copied_objects(
    alloc: Global,
    objects: &[ObjectType],
) -> Result<Vec<ObjectType>, AllocError>
    ensures { IfOk result (λ ts. map object_type_of ts.items ≡ map object_type_of objects.now) }
{
    let mut copies = Vec::new(alloc);
    for object in objects {
        copies.push(copied_object(alloc, object)?)?;
    }
    Ok(copies)
}

fn copied_static(alloc: Global, object: &Static) -> Result<Static, AllocError>
    ensures { IfOk result (λ o. static_of o ≡ static_of object.now) }
{
    let mut values = Vec::new(alloc);
    values.extend_from_slice(&object.values)?;
    Ok(Static {
        name: object.name,
        object_type: copied_object(alloc, &object.object_type)?,
        defined: object.defined,
        values,
    })
}

pub(crate) fn copied_statics(alloc: Global, statics: &[Static]) -> Result<Vec<Static>, AllocError>
    ensures { IfOk result (λ os. map static_of os.items ≡ map static_of statics.now) }
{
    let mut copies = Vec::new(alloc);
    for object in statics {
        copies.push(copied_static(alloc, object)?)?;
    }
    Ok(copies)
}

fn copied_text(alloc: Global, text: &[u8]) -> Result<Vec<u8>, AllocError>
    ensures { IfOk result (λ copy. copy.items ≡ text.now) }
{
    let mut copy = Vec::new(alloc);
    copy.extend_from_slice(text)?;
    Ok(copy)
}

pub(crate) fn copied_literals(
    alloc: Global,
    literals: &[Vec<u8>],
) -> Result<Vec<Vec<u8>>, AllocError>
    ensures { IfOk result (λ copies. map (λ text. text.items) copies.items ≡ map (λ text. text.items) literals.now) }
{
    let mut copies = Vec::new(alloc);
    for text in literals {
        copies.push(copied_text(alloc, text)?)?;
    }
    Ok(copies)
}
