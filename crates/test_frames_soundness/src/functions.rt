//! Whether functions and programs are sound.

ghost use Rattle.std.specs.Prelude.{◌≡◌, ◌↔◌, ◌≤◌, ◌<◌, ◌+◌, ◌^◌, length, map, IsTrue};
ghost use Rattle.std.specs.Bool.{OnTrue};
ghost use Rattle.frames_code.specs.Code as flat;
ghost use Rattle.frames_code.specs.Code.{function_of, program_of};
ghost use Rattle.frames_code.specs.Sound.{FunctionFits, IsSoundProgram, places_of, most_bytes};
ghost use Rattle.test_frames_soundness.specs.inside.Parts.{CodeFits, FunctionsFit};

use crate::instructions::{MOST_BYTES, has_all};
use frames_code::{FlatProgram, Function};

/// Whether its frame has at most the bytes that a frame may have.
fn has_small_frame(function: &Function) -> bool
    ensures few { OnTrue result (function.now.outgoing ≤ 16777216) }
    ensures small { IsTrue result ↔ (flat.frame_bytes (function_of function.now) ≤ most_bytes) }
{
    function.outgoing <= MOST_BYTES
        && function.cells <= MOST_BYTES
        && function.area <= MOST_BYTES
        && (4 * function.outgoing + 4 + 4 * function.cells + function.area + 4 + 15) / 16 * 16
            <= MOST_BYTES
}

fn has_sound_code(count: usize, function: &Function) -> bool
    requires { function.now.outgoing ≤ 16777216 }
    ensures { IsTrue result ↔ CodeFits count (function_of function.now) (length function.now.code.items) }
{
    let code = function.code.as_slice();
    for (number, instruction) in code.iter().enumerate() {
        if !has_all(count, function, *instruction) {
            return false;
        }
    }
    true
}

/// Whether a function of a program of `count` functions is sound.
fn is_sound_function(count: usize, function: &Function) -> bool
    ensures { IsTrue result ↔ FunctionFits count (function_of function.now) }
{
    has_small_frame(function)
        && function.resident <= 12
        && function.resident <= function.cells
        && has_sound_code(count, function)
}

fn are_sound_functions(count: usize, functions: &[Function]) -> bool
    ensures { IsTrue result ↔ FunctionsFit count (map function_of functions.now) (length functions.now) }
{
    for (number, function) in functions.iter().enumerate() {
        if !is_sound_function(count, function) {
            return false;
        }
    }
    true
}

/// Whether there are fewer than 2^32 functions and instructions.
fn are_countable(functions: &[Function]) -> bool
    ensures { IsTrue result ↔ (length functions.now + places_of (map function_of functions.now) < 2 ^ 32) }
{
    let mut places = functions.len();
    for function in functions {
        let count = function.code.len();
        if places >= 0x1_0000_0000 || count >= 0x1_0000_0000 {
            return false;
        }
        places += count + 1;
    }
    places < 0x1_0000_0000
}

/// Whether a flat program is one that `select` takes: its instructions name words, arrays, instructions and functions that there
/// are, its frames have at most 1,048,576 bytes, and there are fewer than 2^32 functions and instructions.
pub fn is_sound(program: &FlatProgram) -> bool
    ensures { IsTrue result ↔ IsSoundProgram (program_of program.now) }
{
    let functions = program.functions.as_slice();
    if program.main >= functions.len() {
        return false;
    }
    if program.statics.len() > 0x1000_0000 {
        return false;
    }
    if !are_countable(functions) {
        return false;
    }
    are_sound_functions(functions.len(), functions)
}
