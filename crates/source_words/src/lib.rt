//! The tokens of a source file outside of its directives.
#![tactic(auto)]

mod words;

pub use words::{Span, Word, Words};
