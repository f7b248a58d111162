//! Undefined behaviour of a program that is interpreted, and the line that `interp` prints for it.

use crate::finding::Shown;
use std::alloc::{AllocError, Global};

/// Whether undefined behaviour occurred.
#[derive(Clone, Copy, Debug, PartialEq, Eq)]
pub enum Certainty {
    /// In a run.
    Met,
    /// It was not ruled out.
    Possible,
}

/// Undefined behaviour of a program.
#[derive(Drop)]
pub struct Undefined {
    pub file: String,
    /// The line, counted from 1.
    pub line: u32,
    /// The number of the operation, 1 to 8.
    pub act: u32,
    pub certainty: Certainty,
    pub shown: Shown,
}

/// An empty line with room for the report of `interp`, which is then not lost when memory runs out: two names of files of 4,096 bytes fit.
pub fn room_for_line(alloc: Global) -> Result<Vec<u8>, AllocError> {
    Vec::with_capacity(alloc, 8192)
}

/// Whether a run ended with this line because a growth of memory was refused.
pub fn wants_memory(line: &[u8]) -> bool {
    line == b"cc: 801 out of memory\n".as_slice() || line == b"cc: port fault 801\n".as_slice()
}

/// Why the operation of this number is undefined, with the section of ISO/IEC 9899:2011.
pub fn act_help(act: u32) -> &'static str {
    match act {
        1 =>
            "6.5p5, 6.5.5p6: the value of a signed operation, or the quotient of / or %, is not representable in its type: compute with unsigned ints, or test before",
        2 => "6.5.5p5: the second operand of / or % is zero",
        3 =>
            "6.5.7p3: a shift by a negative number, or by the width of the promoted left operand or more",
        4 =>
            "6.5.7p4: a left shift of a negative number, or one whose value is not representable in the type",
        5 =>
            "6.5.6p8: a subscript outside its array: the index is negative, or not less than the number of elements",
        6 =>
            "6.3.2.1p2: an element is read before it was set: an object in a block has no value until it is given one",
        7 => "6.4.5p7: an element of a string literal is written: copy it into an array first",
        _ =>
            "6.9.1p12: the value of a call is used whose function ended without `return` of a value",
    }
}

/// The title of undefined behaviour.
impl Undefined {
    /// The words that head the report: `undefined: ` and the name of the operation.
    pub fn title(&self) -> &'static str {
        match self.certainty {
            Certainty::Met => act_title(self.act),
            Certainty::Possible => possible_title(self.act),
        }
    }
}

/// The words that head the report of the operation with this number.
pub fn act_title(act: u32) -> &'static str {
    match act {
        1 => "undefined: signed arithmetic out of range",
        2 => "undefined: division by zero",
        3 => "undefined: shift count out of range",
        4 => "undefined: left shift out of range",
        5 => "undefined: subscript outside its array",
        6 => "undefined: element read before it was set",
        7 => "undefined: string literal written",
        _ => "undefined: value of a call that gave none",
    }
}

/// The words for the operation with this number where it was not ruled out.
fn possible_title(act: u32) -> &'static str {
    match act {
        1 => "may be undefined: signed arithmetic out of range",
        2 => "may be undefined: division by zero",
        3 => "may be undefined: shift count out of range",
        4 => "may be undefined: left shift out of range",
        5 => "may be undefined: subscript outside its array",
        6 => "may be undefined: element read before it was set",
        7 => "may be undefined: string literal written",
        _ => "may be undefined: value of a call that gave none",
    }
}
