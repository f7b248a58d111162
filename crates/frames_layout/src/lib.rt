//! Code layout of flat code (an intermediate representation, IR): jump threading, loop tests doubled at jumps to them, and removal of instructions that do nothing.
#![tactic(auto)]

mod checking;
mod functions;
mod laws;
mod plan;
mod planning;
mod walks;

pub use functions::{known_bytes, lay_out, new_places};
pub use laws::functions_are_laid_out;
