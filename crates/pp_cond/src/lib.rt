//! The conditions of `#if` and `#elif` (ISO/IEC 9899:2011 6.10.1).
#![tactic(auto)]

mod arithmetic;
mod condition;
mod constants;
mod frame;
mod operand;
mod operators;
mod reader;

pub use condition::{ConditionReader, truth};
