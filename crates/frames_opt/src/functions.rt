//! Functions and programs of simpler code.

ghost use Rattle.std.specs.Prelude.{◌≡◌, ◌≤◌, map, sum_by, IfOk};
ghost use Rattle.frames_code.specs.Code as flat;
ghost use Rattle.frames_code.specs.Code.{function_of};
ghost use Rattle.frames.specs.Costs.{code_bytes};
ghost use Rattle.frames_opt.specs.Simplified.{IsSimplified};
ghost use Rattle.frames_opt.specs.layer.Functions.{IsImproved, IsSimplerCode, IsSimplerFunction, AreSimpler};

use crate::analysis::states_of;
use crate::bytes::is_no_longer;
use crate::marks::marks_of;
use crate::passes::forward;
use crate::room::{Room, room_of};
use crate::sweep::swept;
use frames_code::{FlatProgram, Function, Instruction};
use std::alloc::{AllocError, Global};

/// The code of a function with this room, by both passes.
fn improved(alloc: Global, room: Room, code: &[Instruction]) -> Result<Vec<Instruction>, AllocError>
    ensures { IfOk result (λ made. IsImproved room code.now made.items) }
{
    let marks = marks_of(alloc, room.gives, code)?;
    let middle = forward(alloc, room, &marks, code)?;
    let states = states_of(alloc, room, &marks, &middle.offered, &middle.code)?;
    swept(alloc, &states, &middle.code)
}

/// The code by both passes, or as it was where it would have more bytes.
fn chosen(alloc: Global, room: Room, code: Vec<Instruction>) -> Result<Vec<Instruction>, AllocError>
    ensures code { IfOk result (λ made. IsSimplerCode room code.items made.items) }
    ensures bytes { IfOk result (λ made. sum_by code_bytes made.items ≤ sum_by code_bytes code.items) }
{
    let better = improved(alloc, room, &code)?;
    if is_no_longer(&better, &code) {
        Ok(better)
    } else {
        Ok(code)
    }
}

/// A function made simpler.
pub fn simplify_function(alloc: Global, function: Function) -> Result<Function, AllocError>
    ensures { IfOk result (λ g. IsSimplerFunction (function_of function) (function_of g)) }
{
    let room = room_of(&function);
    let code = chosen(alloc, room, function.code)?;
    Ok(Function {
        code,
        cells: function.cells,
        resident: function.resident,
        area: function.area,
        outgoing: function.outgoing,
        gives: function.gives,
    })
}

fn simplify_functions(alloc: Global, functions: Vec<Function>) -> Result<Vec<Function>, AllocError>
    ensures { IfOk result (λ list. AreSimpler (map function_of functions.items) (map function_of list.items)) }
{
    let mut list = Vec::with_capacity(alloc, functions.len())?;
    for function in functions {
        list.push(simplify_function(alloc, function)?)?;
    }
    Ok(list)
}

/// The program with the facts known at an instruction put into it, and without dead stores.
pub fn simplify(alloc: Global, program: FlatProgram) -> Result<FlatProgram, AllocError>
    ensures { IfOk result (λ q. IsSimplified (flat.program_of program) (flat.program_of q)) }
{
    let functions = simplify_functions(alloc, program.functions)?;
    Ok(FlatProgram {
        functions,
        statics: program.statics,
        main: program.main,
    })
}
