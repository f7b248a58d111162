//! A trace of a run of the interpreter, as JSON lines.

use crate::giving::{Sizes, hand_fault, hand_out};
use srcset::FileSet;
use std::alloc::Global;
use trace_json::{Asked, trace_lines};

/// The result where the run waits for input.
const WAITS: u32 = 257;

/// The trace of the program of the set, as requested.
pub fn tell_trace(
    alloc: Global,
    set: &FileSet,
    asked: Asked<'_>,
    out: &mut [u8],
    message: &mut [u8],
    sizes: &mut Sizes,
) -> u32 {
    match trace_lines(alloc, set, asked) {
        Ok(told) => {
            hand_out(
                told.lines.as_slice(),
                told.message.as_slice(),
                out,
                message,
                sizes,
            );
            if told.waits {
                WAITS
            } else {
                u32::from(told.status)
            }
        }
        Err(fault) => {
            hand_fault(alloc, &fault, out, message, sizes);
            1
        }
    }
}
