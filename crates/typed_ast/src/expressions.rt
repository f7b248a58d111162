//! Expressions with their types.

use crate::storage_places::{Callee, Moment, Storage};
use ctypes::{BinOp, IntType};
use srcset::Pos;
use tree::{PrefixOp, StepOp};

/// An element, a row or an array (6.3.2.1p1).
#[cycle(values)]
#[derive(Drop)]
pub enum Place {
    Named(Pos, Storage),
    /// An element of an array, and its index.
    Element(Pos, Box<Place>, Box<Value>),
}

/// An expression. One of type `void` has no value.
#[cycle(values)]
#[derive(Drop)]
pub enum Value {
    /// A value of the type (6.4.4, 6.5.3.4).
    Constant(IntType, i64),
    /// The value of an element of the type (6.3.2.1p2).
    Read(IntType, Box<Place>),
    /// The value, converted to the type of the element, is stored (6.5.16.1).
    Assigned(Pos, IntType, Box<Place>, Box<Value>),
    /// The old value converted to the second type, the operation, the value converted to it too (a shift's is not), all
    /// converted to the first type, that of the element (6.5.16.2).
    Compound(Pos, BinOp, IntType, IntType, Box<Place>, Box<Value>),
    /// The old value converted to the second type, one more or less, converted to the first (6.5.2.4, 6.5.3.1).
    Stepped(Pos, Moment, StepOp, IntType, IntType, Box<Place>),
    /// Of the operand converted to the type (6.5.3.3).
    Unary(Pos, PrefixOp, IntType, Box<Value>),
    /// Of both operands converted to the type, but a shift's right one is not (6.5.5 to 6.5.12).
    Binary(Pos, BinOp, IntType, Box<Value>, Box<Value>),
    /// `&&` (6.5.13).
    BothTrue(Box<Value>, Box<Value>),
    /// `||` (6.5.14).
    OneTrue(Box<Value>, Box<Value>),
    /// The second or the third, converted to the type, or both of type `void` (6.5.15).
    Chosen(Option<IntType>, Box<Value>, Box<Value>, Box<Value>),
    /// The comma operator (6.5.17).
    Sequence(Box<Value>, Box<Value>),
    /// A cast (6.5.4).
    Cast(IntType, Box<Value>),
    /// A cast to `void` (6.3.2.2).
    Discarded(Box<Value>),
    /// A call (6.5.2.2): its result's type, none for `void`, and whether its value is used.
    Call(Pos, Callee, Option<IntType>, bool, Vec<Argument>),
}

/// An argument of a call: converted to its parameter's type, or a reference to an array.
#[cycle(values)]
#[derive(Drop)]
pub enum Argument {
    Number(IntType, Value),
    Array(Place),
}
