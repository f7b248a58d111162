//! Functions, objects with static storage, and programs.

use crate::statements::Statement;
use crate::types::{FunctionType, ObjectType};

/// A function definition (6.9.1).
#[derive(Drop)]
pub struct Function {
    /// The number of its name.
    pub name: usize,
    pub function_type: FunctionType,
    /// Its objects, the parameters that are numbers first.
    pub objects: Vec<ObjectType>,
    pub body: Statement,
    /// How many nodes its tree has.
    pub nodes: u64,
    pub weight: u64,
}

/// An object with static storage (6.2.4p3): the values of its first elements, the others being zero. One that is only declared takes no bytes. Its name is for
/// tools, and nothing that a program does depends on it.
#[derive(Drop)]
pub struct Static {
    /// The number of its name.
    pub name: usize,
    pub object_type: ObjectType,
    pub defined: bool,
    pub values: Vec<i64>,
}

/// A program.
#[derive(Drop)]
pub struct Program {
    /// The characters of each string literal, with the terminating zero (6.4.5p6).
    pub literals: Vec<Vec<u8>>,
    pub statics: Vec<Static>,
    /// The functions, in the order of their definitions.
    pub functions: Vec<Function>,
    /// The number of `main`.
    pub main: usize,
}
