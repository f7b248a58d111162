//! The expectation where a token does not fit the grammar (ISO/IEC 9899:2011 6.5 to 6.9): changes of the source that may mend it.
#![tactic(auto)]

mod brackets;
mod deletions;
mod else_words;
mod expectation;
mod gathering;
mod insertions;
mod spelling;
mod texts;
mod trial;
mod type_names;
mod vocabulary;

pub use brackets::open_before;
pub use else_words::{LoneElse, lone_else};
pub use expectation::{Candidate, Expected};
pub use gathering::candidates;
pub use insertions::head;
pub use texts::{expected_help, expected_text};
pub use trial::{Trial, trial_text};
