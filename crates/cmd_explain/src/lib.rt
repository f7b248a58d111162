//! `explain`: faults, or undefined behaviour, reported for people and for tools.
#![tactic(auto)]

mod beside;
mod explaining;

pub use explaining::{Told, explain_program, show_line};
