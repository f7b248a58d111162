//! Initialisers.

use crate::expressions::Value;
use ctypes::IntType;

/// An initialiser (6.7.9).
#[derive(Drop)]
pub enum Initialiser {
    /// Of one element, converted to its type.
    One(IntType, Value),
    /// The characters of a string literal, by its number.
    Text(usize),
    /// One of these in braces.
    InBraces(Box<Initialiser>),
    /// A braced list for an array.
    List(Vec<Initialiser>),
}
