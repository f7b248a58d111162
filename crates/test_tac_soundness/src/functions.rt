//! Whether a function is sound.

ghost use Rattle.std.specs.Prelude.{◌≡◌, ◌↔◌, ◌≤◌, ◌<◌, ◌^◌, length, map, IsTrue};
ghost use Rattle.tac_code.specs.Code.{function_of, program_of};
ghost use Rattle.tac_code.specs.Costs.{call_bytes};
ghost use Rattle.tac_code.specs.Sound.{FunctionFits, number_parameters};
ghost use Rattle.test_tac_soundness.specs.inside.Parts.{AreScalars, CodeFits};

use crate::instructions::{count_arrays, has_all, is_scalar};
use crate::objects::{are_sized, objects_size};
use tac_code::{Function, Parameter, TacProgram};

/// The most bytes of the stack that a call takes.
const MOST_STACK: usize = 0x100_0000;

/// Whether a call takes at most the bytes of the stack that it may take.
fn is_small(function: &Function) -> bool
    ensures { IsTrue result ↔ (call_bytes (function_of function.now) ≤ 2 ^ 24) }
{
    let arrays = count_arrays(&function.parameters);
    let size = objects_size(&function.objects);
    function.temporaries <= MOST_STACK
        && function.kept <= MOST_STACK
        && arrays <= MOST_STACK
        && (4 * function.temporaries.saturating_sub(8)
            + (8 + (4 * function.kept + (4 * arrays + size)))
            + 15)
            / 16
            * 16
            <= MOST_STACK
}

/// How many parameters are numbers.
fn count_numbers(parameters: &[Parameter]) -> usize
    ensures is { result ≡ number_parameters parameters.now }
    ensures few { result ≤ length parameters.now }
{
    let mut count = 0;
    for parameter in parameters {
        match parameter {
            Parameter::Number => count += 1,
            Parameter::Array => {}
        }
    }
    count
}

/// Whether the first `count` objects are no arrays.
fn are_scalars(function: &Function, count: usize) -> bool
    ensures { IsTrue result ↔ AreScalars (function_of function.now) count }
{
    for number in 0..count {
        if !is_scalar(function, number) {
            return false;
        }
    }
    true
}

fn has_sound_code(program: &TacProgram, function: &Function) -> bool
    ensures { IsTrue result ↔ CodeFits (program_of program.now) (function_of function.now) (length function.now.code.items) }
{
    let code = function.code.as_slice();
    for (number, instruction) in code.iter().enumerate() {
        if !has_all(program, function, *instruction) {
            return false;
        }
    }
    true
}

/// Whether a function of a program is sound.
pub fn is_sound_function(program: &TacProgram, function: &Function) -> bool
    ensures { IsTrue result ↔ FunctionFits (program_of program.now) (function_of function.now) }
{
    let count = count_numbers(&function.parameters);
    is_small(function)
        && are_scalars(function, count)
        && are_sized(&function.objects)
        && has_sound_code(program, function)
}
