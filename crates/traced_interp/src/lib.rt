//! A run of the interpreter, traced while it executes: each statement, each object that gets a value, each function entered and left.
#![tactic(auto)]

mod calls;
mod lines;
mod observing;
mod parts;
mod places;
mod telling;
mod wording;

pub use lines::SourceLines;
pub use telling::{Trace, Written};
pub use wording::{TraceForm, put_string};
