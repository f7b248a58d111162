//! Navigation in a program: the answers to requests for definitions, uses, renaming, calls, and the symbols of a file.
#![tactic(auto)]

mod hints;
mod navigation;
mod outline;
mod renaming;
mod signature;
mod token_kinds;

pub use hints::inlay_hints;
pub use navigation::{definition, highlights, references};
pub use outline::{document_symbols, folding_ranges};
pub use renaming::{prepare_rename, rename};
pub use signature::signature_help;
pub use token_kinds::{put_legend, semantic_tokens};
