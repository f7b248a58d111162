//! The values with which an operation of an interpreted program is undefined, and the calls that are active there.
#![tactic(auto)]

mod following;
mod noting;
mod refusals;
mod telling;

pub use following::Following;
