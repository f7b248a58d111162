//! The warnings of the sources of a program, by all phases of the compiler up to its typed program.
#![tactic(auto)]

mod gathering;
mod warning;

pub use warning::warn_of_sources;
