//! Whether the next result is undefined.

use ctypes::{BinOp, IntType};
use interp_store::Reference;
use interp_store::operators::{operated, sign_of, step_operation};
use interp_store::scene::Scene;
use tree::{PrefixOp, StepOp};

/// The values with which an operation is undefined.
#[derive(Drop)]
pub(crate) enum Values {
    Operands(Operands),
    /// Of the operand of a minus sign.
    Negated(i64),
    /// An index outside the array of this name, which has this number of elements.
    Index(String, i64, usize),
    /// An element of the array of this name.
    Element(String, usize),
    /// An object of this name that is no array.
    Whole(String),
}

/// The operands of an operation.
#[derive(Clone, Copy)]
pub(crate) struct Operands {
    pub op: BinOp,
    pub left: i64,
    pub right: i64,
    /// Whether the left one is computed with in an unsigned type.
    pub is_unsigned: bool,
}

/// The operands of an operation in this type where it is undefined for them.
pub(crate) fn refused(op: BinOp, ty: IntType, left: i64, right: i64) -> Option<Operands> {
    match operated(op, ty, left, right) {
        Ok(_) => None,
        Err(_) => Some(Operands {
            op,
            left,
            right,
            is_unsigned: !ty.is_signed(),
        }),
    }
}

/// The operands of `++` or `--` in this type where it is undefined for them.
pub(crate) fn refused_step(op: StepOp, ty: IntType, old: i64) -> Option<Operands> {
    refused(step_operation(op), ty, old, 1)
}

/// Whether a sign operator is undefined for its operand.
pub(crate) fn is_refused_sign(op: PrefixOp, ty: IntType, value: i64) -> bool {
    sign_of(op, ty, value).is_err()
}

/// Whether an index is none of the array at a reference.
pub(crate) fn is_outside(scene: &Scene, array: &Reference, index: i64) -> bool {
    match usize::try_from(index) {
        Ok(index) => index >= scene.store.length(array),
        Err(_) => true,
    }
}
