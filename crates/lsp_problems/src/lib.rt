//! The compiler's findings in a program, as diagnostics with the changes that mend it.
#![tactic(auto)]

mod actions;
mod problems;

pub use actions::code_actions;
pub use problems::{Fix, Problem, Severity, over_budget, published, read_problems};
