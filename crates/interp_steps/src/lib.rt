//! The steps of the interpreter: statements over the expressions of `cabs` (ISO/IEC 9899:2011 6.8).
#![tactic(auto)]

pub mod conditions;
mod digits;
pub mod elements;
pub mod flows;
pub mod initialisers;
pub mod labels;
pub mod loops;
pub mod nodes;
pub mod objects;
pub mod statements;
pub mod switches;
