//! The analysis of statements: how each may be left, and the state then. An invariant of a loop is guessed and then
//! tested.
#![tactic(auto)]

mod begun;
mod effects;
mod initialisers;
mod labels;
mod rows;
mod statements;
mod ways;
mod widening;

pub use statements::statement;
pub use ways::{Left, joined_ways};
