//! How much work the preprocessor has with a program, estimated before it begins.
#![tactic(auto)]

mod files;
mod lines;
mod macros;
mod meter;

pub use files::work_of;
