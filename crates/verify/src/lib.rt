//! Whether a program can meet undefined behaviour on any input: a proved analysis of the typed program.
#![tactic(auto)]

mod bodies;
mod first_objects;
mod verdict;
mod work;

pub use verdict::{USUAL_EFFORT, Verdict, verify};
