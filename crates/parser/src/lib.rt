//! From C tokens to the syntax tree (ISO/IEC 9899:2011 6.8, 6.9).
#![tactic(auto)]

mod nodes;
mod statement_parts;
mod statements;
mod unit;

pub use unit::parse;
