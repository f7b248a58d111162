//! From the bytes of a source file to its token lines: translation phases 1 to 3 of
//! ISO/IEC 9899:2011 5.1.1.2.
#![tactic(auto)]

mod classes;
mod cursor;
mod ends;
mod kinds;
mod laws;
mod lexical;
mod line_list;
mod lines;
mod pieces;
mod punctuators;
mod quick;
mod reading;
mod runs;
mod scanner;
mod scanning;
mod token;

pub use ends::end_lines;
pub use kinds::token_kind;
pub use laws::kinds_exclude;
pub use line_list::Lines;
pub use lines::{scan, try_scan};
pub use scanning::MAX_SPELLING_BYTES;
pub use token::{Kind, PpToken};
