//! The source files of a command: those that the words name, and, where they name folders, those that these include.
#![tactic(auto)]

mod asked;
mod definitions;
mod gathering;
mod includes;
mod paths;
mod reading;
mod rule;
mod sources;

pub use asked::{is_taken, stack_size};
pub use gathering::{lies_beside, read_sources};
pub use reading::{read_bytes, read_file};
pub use rule::{rule_path, rule_text};
pub use sources::{Source, Sources};
