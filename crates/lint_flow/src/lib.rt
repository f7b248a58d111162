//! Warnings from the typed program: reads before a value is given, indices, comparisons, calls without effect.
#![tactic(auto)]

mod checking;
mod notes;
mod paths;
mod ranges;
mod shapes;
mod statements;
mod values;
mod walker;

pub use checking::{Findings, program_findings};
