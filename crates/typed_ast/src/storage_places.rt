//! The objects that names designate, and callees.

/// The object that a name or a string literal designates (6.2.4), each kind numbered apart.
#[derive(Clone, Copy, PartialEq, Eq, Debug)]
pub enum Storage {
    /// A string literal.
    Literal(usize),
    /// An object with static storage.
    Static(usize),
    /// An object of the present call, its parameters that are numbers first.
    Automatic(usize),
    /// The array that an array parameter refers to.
    Parameter(usize),
}

/// The callee of a call (6.5.2.2).
#[derive(Clone, Copy, PartialEq, Eq, Debug)]
pub enum Callee {
    /// A function, by the number of its definition.
    Function(usize),
    /// `rv_getbyte`
    GetByte,
    /// `rv_putbyte`
    PutByte,
    /// `rv_exit`
    Exit,
    /// A function with this name and no definition, which nothing evaluated calls.
    Missing(usize),
}

/// Whether a step gives the old value (6.5.2.4) or the new one (6.5.3.1).
#[derive(Clone, Copy, PartialEq, Eq, Debug)]
pub enum Moment {
    After,
    Before,
}
