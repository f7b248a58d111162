//! Types of objects and functions.

use ctypes::IntType;

/// The type of an object (6.2.5p20): that of its elements, whether these are `const`, and the length of each array, from the
/// outermost. An object that is no array is its only element.
#[derive(Drop)]
pub struct ObjectType {
    pub element: IntType,
    pub constant: bool,
    pub lengths: Vec<u32>,
}

/// A type, or an array of unknown size of such elements (6.2.5p22).
#[derive(Drop)]
pub enum DeclaredType {
    Complete(ObjectType),
    UnknownSize(ObjectType),
}

/// A parameter of a function's type (6.7.6.3p7, p15): a number, or a reference to an array's elements.
#[derive(Drop)]
pub enum ParameterType {
    Number(IntType),
    Elements(ObjectType),
}

/// A function's type (6.2.5p20). No result is `void`; a result may be `const` (6.7.6.3p15).
#[derive(Drop)]
pub struct FunctionType {
    pub result: Option<IntType>,
    pub constant: bool,
    pub parameters: Vec<ParameterType>,
}
