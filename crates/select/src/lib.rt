//! Instruction selection: from flat code to the items that the assembler takes.
#![tactic(auto)]

mod calls;
mod combining;
mod elements;
pub mod laws;
mod near;
mod operations;
mod places;
mod program;
mod shortening;
mod words;

pub use program::select;
pub use words::GP_OFFSET;
