//! The driver of programs of rows: reads rows, runs the subject on each, and returns the lines to write.
#![tactic(auto)]

mod answer;
mod driver;
mod fields;
mod words;

pub use answer::Answer;
pub use driver::{Subjects, answer_rows};
pub use fields::Fields;
pub use words::{Words, bytes, decimal, hexadecimal};
