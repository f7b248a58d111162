//! Three-address code.

use ctypes::IntType;
use typed_ast::{ObjectType, Static};

/// An operand of an instruction.
#[derive(Clone, Copy, Debug, PartialEq, Eq)]
pub enum Operand {
    /// A temporary, which a call loses.
    Temporary(usize),
    /// A slot of the call, which other calls leave.
    Kept(usize),
    /// An object of the present call that is no array.
    Object(usize),
    /// The array that an array parameter refers to, these numbered apart.
    Parameter(usize),
    Constant(u32),
}

/// Where a result goes.
#[derive(Clone, Copy, Debug, PartialEq, Eq)]
pub enum Target {
    Temporary(usize),
    Kept(usize),
    /// An object of the present call that is no array. It takes only words that are values of its type.
    Object(usize),
}

/// An object, row or element in memory.
#[derive(Clone, Copy, Debug, PartialEq, Eq)]
pub enum Place {
    Literal(usize),
    Static(usize),
    /// An array of the present call.
    Array(usize),
    /// One of its elements, counted from 0 in memory order (6.5.2.1p3), and their type.
    Element {
        array: usize,
        number: usize,
        element: IntType,
    },
    /// Where a reference leads.
    At(Operand),
}

/// How a word is taken as a number.
#[derive(Clone, Copy, Debug, PartialEq, Eq)]
pub enum Reading {
    Signed,
    Unsigned,
}

/// An operation on two words (6.5.5 to 6.5.12).
#[derive(Clone, Copy, Debug, PartialEq, Eq)]
pub enum Operation {
    Multiply,
    Divide,
    Remainder,
    Add,
    Subtract,
    ShiftLeft,
    ShiftRight,
    And,
    ExclusiveOr,
    Or,
    Less,
    Equal,
    NotEqual,
}

/// A comparison of two words.
#[derive(Clone, Copy, Debug, PartialEq, Eq)]
pub enum Comparison {
    Equal,
    NotEqual,
    Less,
    GreaterEqual,
}

/// An instruction. Jumps lead to an instruction of the same function, counted from 0.
///
/// The arguments of a call are in the temporaries from 0 on; its result, a byte that is put or got, and the status of `Exit` are in
/// temporary 0.
#[derive(Clone, Copy, Debug)]
pub enum Instruction {
    Nothing,
    Move {
        target: Target,
        source: Operand,
    },
    Compute {
        operation: Operation,
        reading: Reading,
        target: Target,
        left: Operand,
        right: Operand,
    },
    /// A conversion to a type (6.3.1.2, 6.3.1.3).
    Convert {
        to: IntType,
        target: Target,
        source: Operand,
    },
    /// Reads an element of this type.
    Load {
        element: IntType,
        target: Target,
        from: Place,
    },
    /// Writes an element of this type: the low bytes of the word; of `_Bool` the word has to be 0 or 1.
    Store {
        element: IntType,
        source: Operand,
        to: Place,
    },
    /// A reference to the place.
    Address {
        target: Target,
        of: Place,
    },
    /// A reference to a part of an array, a row or element of `size` bytes.
    Part {
        target: Target,
        array: Operand,
        index: Operand,
        size: usize,
    },
    /// A reference to the element that is `count` elements after the one that `from` leads to, or after the first one there, in the same object.
    Element {
        element: IntType,
        target: Target,
        from: Operand,
        count: Operand,
    },
    /// `count` objects of the call, from number `first` on, become indeterminate (6.2.4p6), and no temporary has a value.
    Forget {
        first: usize,
        count: usize,
    },
    Jump(usize),
    /// A jump where the comparison holds.
    Branch {
        comparison: Comparison,
        reading: Reading,
        left: Operand,
        right: Operand,
        to: usize,
    },
    /// A call of the function with this number.
    Call(usize),
    PutByte,
    GetByte,
    Exit,
    Return,
}

/// The value that a call passes for a parameter (6.9.1p10): a number, which becomes an object, or a reference to an array.
#[derive(Clone, Copy, Debug, PartialEq, Eq)]
pub enum Parameter {
    Number,
    Array,
}

/// A function.
#[derive(Drop)]
pub struct Function {
    pub code: Vec<Instruction>,
    pub parameters: Vec<Parameter>,
    /// Its objects, the parameters that are numbers first.
    pub objects: Vec<ObjectType>,
    /// The type of the number that it returns, if any.
    pub result: Option<IntType>,
    /// How many temporaries and how many slots it has.
    pub temporaries: usize,
    pub kept: usize,
}

/// A program: its functions, its string literals with their terminating zero, its objects with static storage, and the number of `main`.
#[derive(Drop)]
pub struct TacProgram {
    pub functions: Vec<Function>,
    pub literals: Vec<Vec<u8>>,
    pub statics: Vec<Static>,
    pub main: usize,
}
