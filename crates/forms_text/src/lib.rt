//! The forms of a program after each phase, printed as indented text or as JSON.
#![tactic(auto)]

mod code_form;
mod expression_form;
mod texts;
mod token_form;
mod tree_form;
mod typed_form;
mod value_form;
mod words;
mod writer;

pub use texts::{Passed, flat_text, passes_text, tac_text, tokens_text, tree_text, typed_text};
pub use writer::{Style, Writer};
