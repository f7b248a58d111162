//! Register allocation of leaf functions, which call nothing: words of the frame live in those of a0 to a7 that the function does not use.
#![tactic(auto)]

mod choosing;
mod functions;
mod instructions;
mod laws;

pub use functions::{allocate_leaf, leaf_words};
pub use laws::{allocated_in_turn, functions_are_allocated};
