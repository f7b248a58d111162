//! Lowers expressions to three-address code (ISO/IEC 9899:2011 6.5).
#![tactic(auto)]

mod ends;
pub mod operands;
mod operators;
pub mod places;
mod rests;
pub mod sizes;
pub mod values;
