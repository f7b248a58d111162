//! A run of the interpreter over bytes in memory, traced as JSON lines: the output of `zkc interp --trace --json`, for tools that call it.
#![tactic(auto)]

mod tracing;

pub use tracing::{Asked, Told, trace_lines};
