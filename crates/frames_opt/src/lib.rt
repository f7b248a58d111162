//! Optimises flat code (an intermediate representation, IR): constant propagation by a dataflow analysis, strength reduction and elimination of dead stores.
#![tactic(auto)]

mod analysis;
mod bytes;
mod dead;
mod elements;
mod facts;
mod functions;
mod indices;
mod laws;
mod liveness;
mod marks;
mod operations;
mod passes;
mod room;
mod rows;
mod rules;
mod statuses;
mod sweep;

pub use bytes::size_of;
pub use functions::{simplify, simplify_function};
pub use laws::{alike_in_turn, defined_alike, functions_are_simplified};
