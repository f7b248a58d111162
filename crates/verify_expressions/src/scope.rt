//! The call that an expression is in.

use crate::memory::Memory;
use crate::state::Known;
use srcset::Pos;
use std::alloc::Global;
use typed_ast::{ObjectType, Program};
use verify_logic::{AbsValue, ArrayArgument};

/// What was shown of a function's body: entered with these objects, it ends with such a value and leaves such objects.
#[derive(Drop)]
pub struct Summary {
    /// The number of the function.
    pub function: usize,
    /// The lengths of each object that lives before the call.
    pub outer: Vec<Vec<u32>>,
    /// The referents of the array parameters.
    pub arrays: Vec<ArrayArgument>,
    /// The facts about all objects as the call begins.
    pub entry: Known,
    pub value: AbsValue,
    /// The facts about all objects as it ends.
    pub left: Option<Known>,
}

/// A call.
#[derive(Clone, Copy)]
pub struct Scope<'a> {
    pub alloc: Global,
    pub program: &'a Program,
    /// The places at which undefined behaviour is allowed.
    pub listed: &'a [Pos],
    pub summaries: &'a [Summary],
    /// The lengths of each object that lived before the call.
    pub outer: &'a [Vec<u32>],
    /// The objects of the call.
    pub objects: &'a [ObjectType],
    /// The referents of the call's array parameters.
    pub arrays: &'a [ArrayArgument],
    pub memory: &'a Memory,
}
