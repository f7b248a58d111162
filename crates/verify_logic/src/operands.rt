//! The operands and the relations of comparisons.

/// A constant, or the value of a scalar object by its number in the store.
#[derive(Clone, Copy, PartialEq, Eq, Debug)]
pub enum Operand {
    Number(i64),
    Object(usize),
}

/// How two numbers compare.
#[derive(Clone, Copy, PartialEq, Eq, Debug)]
pub enum Relation {
    /// The first is below the second.
    Less,
    /// The first is at most the second.
    AtMost,
    /// They are equal.
    Same,
    /// They differ.
    Other,
}
