//! The report of `zkc verify` on a program: the verdict, and the places at which undefined behaviour was not ruled out, as text, JSON or SARIF.
#![tactic(auto)]

mod answering;
mod placing;
mod stack;
mod telling;

pub use answering::{Asked, Said, verify_sources};
pub use lint_report::Form;
pub use verify::USUAL_EFFORT;
