//! Composite types (6.2.7p3), and the types of objects whose size stays unknown (6.9.2p5).
#![tactic(auto, using(crate::proofs::Same::same_object_is, crate::proofs::Same::fits_by))]

ghost use Rattle.std.specs.Prelude.{◌≡◌, if◌then◌else◌, Some, None, IfErr, IfOk};
ghost use Rattle.srcset.specs.declared.refusal.Refusal.TheVariants.{Memory};
ghost use Rattle.typing_spec.specs.Types as typed;
ghost use Rattle.typing_spec.specs.Linkage as linkage_typed;
ghost use Rattle.typed_ast.specs.View.{object_type_of, declared_type_of};
ghost use Rattle.decls_linkage.specs.Views.{option_object, option_declared};

use crate::comparisons::{is_array_of, same_object};
use srcset::Refusal;
use std::alloc::Global;
use typed_ast::{DeclaredType, ObjectType};

/// A copy of the type.
pub fn copied(alloc: Global, object: &ObjectType) -> Result<ObjectType, Refusal>
    ensures ok { IfOk result (λ t. object_type_of t ≡ object_type_of object.now) }
    ensures err { IfErr result (λ r. r ≡ Memory) }
{
    let mut lengths = Vec::new(alloc);
    match lengths.extend_from_slice(&object.lengths) {
        Ok(()) => Ok(ObjectType {
            element: object.element,
            constant: object.constant,
            lengths,
        }),
        Err(_) => Err(Refusal::Memory),
    }
}

/// An array of `length` such objects.
pub fn array_of(alloc: Global, length: u32, object: &ObjectType) -> Result<ObjectType, Refusal>
    ensures ok { IfOk result (λ t. object_type_of t ≡ typed.array_of length (object_type_of object.now)) }
    ensures err { IfErr result (λ r. r ≡ Memory) }
{
    let mut lengths = Vec::new(alloc);
    let Ok(()) = lengths.push(length) else {
        return Err(Refusal::Memory);
    };
    match lengths.extend_from_slice(&object.lengths) {
        Ok(()) => Ok(ObjectType {
            element: object.element,
            constant: object.constant,
            lengths,
        }),
        Err(_) => Err(Refusal::Memory),
    }
}

/// A size that stays unknown is 1 (6.9.2p5).
pub fn completed(alloc: Global, declared: &DeclaredType) -> Result<ObjectType, Refusal>
    ensures ok { IfOk result (λ t. object_type_of t ≡ linkage_typed.completed (declared_type_of declared.now)) }
    ensures err { IfErr result (λ r. r ≡ Memory) }
{
    match declared {
        DeclaredType::Complete(object) => copied(alloc, object),
        DeclaredType::UnknownSize(element) => array_of(alloc, 1, element),
    }
}

/// The new one of two types, where they are the same.
fn agreeing(old: &ObjectType, new: ObjectType) -> Option<ObjectType>
    ensures { option_object result ≡ if typed.same_object (object_type_of old.now) (object_type_of new) then Some (object_type_of old.now) else None }
{
    if same_object(old, &new) {
        return Some(new);
    }
    None
}

/// The old one of two types, which is an array of the size that the other leaves open.
fn sized_before(
    alloc: Global,
    old: &ObjectType,
    element: &ObjectType,
) -> Result<Option<DeclaredType>, Refusal>
    ensures ok { IfOk result (λ t. option_declared t ≡ typed.composite (typed.complete (object_type_of old.now)) (typed.unknown_size (object_type_of element.now))) }
    ensures err { IfErr result (λ r. r ≡ Memory) }
{
    if !is_array_of(old, element) {
        return Ok(None);
    }
    match copied(alloc, old) {
        Ok(object) => Ok(Some(DeclaredType::Complete(object))),
        Err(refusal) => Err(refusal),
    }
}

/// The new one of two types, which is an array of the size that the other leaves open.
fn sized_now(element: &ObjectType, new: ObjectType) -> Option<DeclaredType>
    ensures { option_declared result ≡ typed.composite (typed.unknown_size (object_type_of element.now)) (typed.complete (object_type_of new)) }
{
    if is_array_of(&new, element) {
        return Some(DeclaredType::Complete(new));
    }
    None
}

fn both_complete(old: &ObjectType, new: ObjectType) -> Option<DeclaredType>
    ensures { option_declared result ≡ typed.composite (typed.complete (object_type_of old.now)) (typed.complete (object_type_of new)) }
{
    match agreeing(old, new) {
        Some(object) => Some(DeclaredType::Complete(object)),
        None => None,
    }
}

fn both_unknown(old: &ObjectType, new: ObjectType) -> Option<DeclaredType>
    ensures { option_declared result ≡ typed.composite (typed.unknown_size (object_type_of old.now)) (typed.unknown_size (object_type_of new)) }
{
    match agreeing(old, new) {
        Some(element) => Some(DeclaredType::UnknownSize(element)),
        None => None,
    }
}

/// The composite type, where the types are compatible: a size that is known is kept.
pub fn composite(
    alloc: Global,
    old: &DeclaredType,
    new: DeclaredType,
) -> Result<Option<DeclaredType>, Refusal>
    ensures ok { IfOk result (λ t. option_declared t ≡ typed.composite (declared_type_of old.now) (declared_type_of new)) }
    ensures err { IfErr result (λ r. r ≡ Memory) }
{
    match old {
        DeclaredType::Complete(old) => match new {
            DeclaredType::Complete(new) => Ok(both_complete(old, new)),
            DeclaredType::UnknownSize(new) => sized_before(alloc, old, &new),
        },
        DeclaredType::UnknownSize(old) => match new {
            DeclaredType::Complete(new) => Ok(sized_now(old, new)),
            DeclaredType::UnknownSize(new) => Ok(both_unknown(old, new)),
        },
    }
}
