//! Lowers operations, objects and assignments to three-address code (ISO/IEC 9899:2011 6.5).
#![tactic(auto)]

pub mod bools;
pub mod changes;
pub mod form_sizes;
pub mod instructions;
pub mod memory;
pub mod modes;
pub mod objects;
pub mod operations;
pub mod row_sizes;
pub mod scopes;
pub mod spots;
pub mod waiting;
pub mod words;
pub mod writing;
