//! Warnings that follow from the syntax tree: names that are not used, conditions, bodies, labels.
#![tactic(auto)]

mod conditions;
mod declarations;
mod expressions;
mod flow;
mod linting;
mod scopes;
mod statements;
mod switches;
mod walker;

pub use linting::unit_warnings;
