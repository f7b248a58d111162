//! Abstract values.

/// The numbers from `low` to `high`, both included. There are none where `high` is below `low`.
#[derive(Clone, Copy, PartialEq, Eq, Debug)]
pub struct Interval {
    pub low: i64,
    pub high: i64,
}

/// The target of an array parameter: object `object`, or a row of it after a number of subscripts.
#[derive(Clone, Copy, PartialEq, Eq, Debug)]
pub struct ArrayArgument {
    /// The number of the object in the store.
    pub object: usize,
    /// How many subscripts lead to the row, 0 for the whole object.
    pub depth: usize,
}

/// The abstract value of each element of an object.
#[derive(Clone, Copy, PartialEq, Eq, Debug)]
pub struct AbsValue {
    /// Each element has a value. Where this is false, elements may be indeterminate (3.19.2).
    pub initialised: bool,
    /// A value that an element has lies in it.
    pub interval: Interval,
}

/// A fact on one element of an array of one row: it has a value in the interval.
#[derive(Clone, Copy, PartialEq, Eq, Debug)]
pub struct Fact {
    /// The number of the object in the store.
    pub object: usize,
    /// The subscript of the element.
    pub index: u32,
    pub interval: Interval,
}
