//! Unreachable code elimination in flat code (an intermediate representation, IR): instructions that no run comes to become `Nothing`.
#![tactic(auto)]

mod functions;
mod laws;
mod marks;

pub use functions::remove_unreachable;
pub use laws::{functions_are_reached, simplified_in_turn};
