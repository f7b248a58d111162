//! A traced run: instruction by instruction, or statement by statement.
#![tactic(auto)]

mod interpreting;
mod running;

pub use interpreting::{InterpForm, interp_traced};
pub use running::{RunForm, run_traced};
