//! Rows one after another.

use crate::answer::Answer;
use crate::fields::Fields;

/// The subjects of a program: its output for a row.
pub trait Subjects {
    /// Writes the output for a row.
    fn answer(row: &Fields, answer: &mut Answer);
}

/// Writes the output for each row of an input, a line each. An empty line is no row.
pub fn answer_rows<S: Subjects>(input: &[u8], answer: &mut Answer) {
    let mut row = Fields::new(answer.alloc());
    for byte in input {
        if *byte != b'\n' {
            row.take(*byte);
        } else if !row.field(0).is_empty() {
            S::answer(&row, answer);
            answer.write(b"\n");
            row.clear();
        }
    }
    if row.is_failed() {
        answer.fail();
    }
}
