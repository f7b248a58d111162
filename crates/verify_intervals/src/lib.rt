//! Intervals of 64-bit numbers, and the results of C's operators on them.
#![tactic(auto)]

mod abstract_values;
mod divisions;
mod intervals;
mod operations;
mod relations;

pub use abstract_values::{either, entails, initialised, uninitialised};
pub use intervals::{
    add, add_usize, greater, hull, is_empty, is_nonzero, is_zero, lesser, lies_in, multiply,
    nothing, single, subtract,
};
pub use operations::{all_of, conversion, operation, sign, step, truths};
pub use relations::{Pair, Told, narrowed, tell};
