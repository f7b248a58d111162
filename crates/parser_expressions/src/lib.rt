//! From C tokens to expressions and type names (ISO/IEC 9899:2011 6.5, 6.7.7).
#![tactic(auto)]

pub mod expressions;
pub mod fronts;
mod nodes;
mod operators;
pub mod type_specifiers;
