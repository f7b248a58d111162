//! Macro replacement with rescanning (ISO/IEC 9899:2011 6.10.3.4).
#![tactic(auto)]

mod arguments;
mod budget;
mod engine;
mod expansion;
mod laws;
mod level;
mod mark;
mod naming;
mod pulling;
mod run_end;
mod streaming;
mod task;
mod tokens;
mod turns;
mod unexpanded;
mod waiting;

pub use budget::Budget;
pub use expansion::{expand, expand_behind, try_expand};
pub use laws::{
    bound_suffices, budget_suffices, knows_grows, left_grows, pull_bound_suffices, pulls_first,
};
pub use run_end::RunEnd;
pub use streaming::Expander;
pub use unexpanded::Unexpanded;
