//! Constant hoisting: constants that loops use are put into words of the frame, or into temporaries, once, at a function's beginning, and are read there.
#![tactic(auto)]

mod choosing;
mod functions;
mod gains;
mod homes;
mod laws;
mod leaves;
mod loops;
mod rewriting;
mod tests;

pub use functions::hoist_function;
pub use laws::{functions_are_hoisted, optimised_in_turn};
pub use leaves::first_free;
