//! Warnings: their names, their texts, and which of them are enabled.
#![tactic(auto)]

mod kinds;
mod selection;
mod warning;

pub use kinds::Kind;
pub use selection::{selects, unknown_word};
pub use warning::{Detail, Warning};
