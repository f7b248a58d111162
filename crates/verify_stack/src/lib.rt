//! How much stack a program takes at most, on any input: a bound of the sums of the weights, or of the frames, of its calls.
#![tactic(auto)]

mod bounds;
mod calls;
mod recursions;
mod search;
mod usages;

pub use bounds::{Bound, Recursion, stack_bound, stack_bound_by};
