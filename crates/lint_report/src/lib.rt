//! The output of `zkc check`: the warnings of a program in the order of its files, as text, JSON or SARIF.
#![tactic(auto)]

mod answering;
mod files;
mod json;
mod placing;
mod sarif;
mod shown;
mod text;

pub use answering::{Asked, Form, Said, report};
pub use files::{File, Files, Place};
