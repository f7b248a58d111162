//! The typing rules of statements (ISO/IEC 9899:2011 6.8).
#![tactic(auto)]

mod block_parts;
mod controls;
mod labels;
mod loop_controls;
mod loop_declarations;
mod simple_statements;
mod statements;
mod surroundings;

pub use labels::Label;
pub use statements::pieces;
pub use surroundings::Around;
