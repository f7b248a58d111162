//! The facts of the source text that warnings need: the file with a token a line, comments before labels, the bodies of macros.
#![tactic(auto)]

mod labels;
mod laid_files;
mod macro_bodies;
mod words;

pub use labels::{falls_by_comment, label_on};
pub use laid_files::{LaidFile, keeps_lines, laid_file};
pub use macro_bodies::{MacroFault, macro_faults};
