//! Whether a program is sound.

ghost use Rattle.std.specs.Prelude.{◌≡◌, ◌↔◌, ◌≤◌, ◌<◌, ◌+◌, ◌^◌, length, map, IsTrue};
ghost use Rattle.tac_code.specs.Code.{function_of, program_of};
ghost use Rattle.tac_code.specs.Sound.{IsSoundProgram, data_bytes};
ghost use Rattle.test_tac_soundness.specs.inside.Parts.{FunctionsFit, MainFits, places_of};

use crate::functions::is_sound_function;
use crate::objects::TOO_MANY;
use crate::statics::{have_bytes, have_values, literals_size, statics_size};
use tac_code::{Function, TacProgram};

/// Whether main is there, and takes nothing.
fn has_main(program: &TacProgram) -> bool
    ensures { IsTrue result ↔ MainFits (program_of program.now) }
{
    match program.functions.get(program.main) {
        Some(function) => function.parameters.is_empty(),
        None => false,
    }
}

fn are_sound_functions(program: &TacProgram, functions: &[Function]) -> bool
    ensures { IsTrue result ↔ FunctionsFit (program_of program.now) (map function_of functions.now) (length functions.now) }
{
    for (number, function) in functions.iter().enumerate() {
        if !is_sound_function(program, function) {
            return false;
        }
    }
    true
}

/// Whether there are fewer than 2^32 functions, instructions and parameters.
fn are_countable(functions: &[Function]) -> bool
    ensures { IsTrue result ↔ (length functions.now + places_of (map function_of functions.now) < 2 ^ 32) }
{
    let mut places = functions.len();
    for function in functions {
        let code = function.code.len();
        let parameters = function.parameters.len();
        if places >= 0x1_0000_0000 || code >= 0x1_0000_0000 || parameters >= 0x1_0000_0000 {
            return false;
        }
        places += code + (parameters + 1);
    }
    places < 0x1_0000_0000
}

/// Whether the data take at most 16,777,216 bytes.
fn has_small_data(program: &TacProgram) -> bool
    ensures { IsTrue result ↔ (data_bytes (program_of program.now).literals (program_of program.now).statics ≤ 2 ^ 24) }
{
    literals_size(&program.literals) + statics_size(&program.statics) < TOO_MANY
}

/// Whether a three-address program is one that `flatten` takes: the parts that its instructions name exist, its calls and its data are
/// within their bounds, its objects begin with values of their types.
pub fn is_sound(program: &TacProgram) -> bool
    ensures { IsTrue result ↔ IsSoundProgram (program_of program.now) }
{
    let functions = program.functions.as_slice();
    let literals = program.literals.as_slice();
    let statics = program.statics.as_slice();
    if !has_main(program) {
        return false;
    }
    if !have_bytes(literals) {
        return false;
    }
    if !have_values(statics) {
        return false;
    }
    if !has_small_data(program) {
        return false;
    }
    if !are_countable(functions) {
        return false;
    }
    are_sound_functions(program, functions)
}
