//! `verify`: whether a program does anything undefined, on any input.
#![tactic(auto)]

mod verifying;

pub use verifying::verify_program;
