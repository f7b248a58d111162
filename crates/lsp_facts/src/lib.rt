//! The compiler's facts about the names of a program: types, values, expansions of macros, weights and frames.
#![tactic(auto)]

mod checking;
mod constants;
mod declarators;
mod expansion;
mod functions;
mod insertions;
mod objects;
mod sources;
mod types;

pub use constants::{enumerator_value, value_of};
pub use expansion::expansion_of;
pub use functions::function_fact;
pub use objects::object_fact;
