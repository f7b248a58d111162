//! Functions and programs with the words that are used most in front.

ghost use Rattle.std.specs.Prelude.{◌≡◌, ◌<◌, ◌≤◌, ◌++◌, map, length, OnOk, IfOk};
ghost use Rattle.frames_code.specs.Code as flat;
ghost use Rattle.frames_code.specs.Code.{function_of};
ghost use Rattle.frames_regalloc.specs.Renumbered as words;
ghost use Rattle.frames_regalloc.specs.Renumbered.{IsRenumberedFunction, AreRenumbered, IsRenumbered};
ghost use Rattle.frames_regalloc.specs.inside.Pairs as swaps_in;
ghost use Rattle.frames_regalloc.specs.inside.Pairs.{AreInside};

use crate::instructions::renumbered;
use crate::swaps::{Swap, through};
use crate::weights::word_weights;
use frames_code::{FlatProgram, Function, Instruction};
use std::alloc::{AllocError, Global};

/// The least weight of a word that lives in a register, since the caller's value is saved to the frame and restored for it.
const ENOUGH: u64 = 3;

/// The first of the heaviest words from this one on.
fn heaviest(weights: &[u64], first: usize) -> usize
    requires { first < length weights.now }
    ensures { result < length weights.now }
{
    let mut best = first;
    for (number, weight) in weights.iter().enumerate() {
        if number > first && *weight > weights[best] {
            best = number;
        }
    }
    best
}

/// The words that change places for the heaviest to come first, one pair for each that may live in a register.
fn choose(alloc: Global, function: &Function) -> Result<Vec<Swap>, AllocError>
    ensures inside { IfOk result (λ swaps. AreInside function.now.cells swaps.items) }
    ensures few { IfOk result (λ swaps. length swaps.items ≤ function.now.resident) }
{
    let mut weights = word_weights(alloc, function)?;
    let mut swaps = Vec::new(alloc);
    for first in 0..function.resident.min(function.cells) {
        let second = heaviest(&weights, first);
        if weights[second] < ENOUGH {
            break;
        }
        weights[second] = weights[first];
        swaps.push(Swap { first, second })?;
    }
    Ok(swaps)
}

fn put_code(
    code: &mut Vec<Instruction>,
    swaps: &[Swap],
    instructions: &[Instruction],
) -> Result<(), AllocError>
    ensures { OnOk result (code.new.items ≡ code.old.items ++ map (words.renumbered (swaps_in.through swaps.now)) instructions.now) }
{
    for instruction in instructions {
        code.push(renumbered(swaps, *instruction))?;
    }
    Ok(())
}

/// A function with the words that are used most in front.
pub fn renumber_function(alloc: Global, function: &Function) -> Result<Function, AllocError>
    ensures { IfOk result (λ g. IsRenumberedFunction (function_of function.now) (function_of g)) }
{
    let swaps = choose(alloc, function)?;
    let mut code = Vec::with_capacity(alloc, function.code.len())?;
    put_code(&mut code, &swaps, &function.code)?;
    Ok(Function {
        code,
        cells: function.cells,
        resident: swaps.len(),
        area: function.area,
        outgoing: function.outgoing,
        gives: function.gives,
    })
}

/// For each word of a function's frame, by its number, the number that `renumber_function` gives it. It is for debuggers.
pub fn word_numbers(alloc: Global, function: &Function) -> Result<Vec<usize>, AllocError>
    ensures { IfOk result (λ numbers. length numbers.items ≡ function.now.cells) }
{
    let swaps = choose(alloc, function)?;
    let mut numbers = Vec::with_capacity(alloc, function.cells)?;
    for word in 0..function.cells {
        numbers.push(through(&swaps, word))?;
    }
    Ok(numbers)
}

fn renumber_functions(alloc: Global, functions: Vec<Function>) -> Result<Vec<Function>, AllocError>
    ensures { IfOk result (λ list. AreRenumbered (map function_of functions.items) (map function_of list.items)) }
{
    let mut list = Vec::with_capacity(alloc, functions.len())?;
    for function in functions {
        list.push(renumber_function(alloc, &function)?)?;
    }
    Ok(list)
}

/// The program with the words of each frame under other numbers: those that weigh most come first, at most as many as may live in registers.
pub fn renumber(alloc: Global, program: FlatProgram) -> Result<FlatProgram, AllocError>
    ensures { IfOk result (λ q. IsRenumbered (flat.program_of program) (flat.program_of q)) }
{
    let functions = renumber_functions(alloc, program.functions)?;
    Ok(FlatProgram {
        functions,
        statics: program.statics,
        main: program.main,
    })
}
