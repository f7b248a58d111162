//! From a typed program to flat code, a function at a time: its three-address code is freed before the next one is begun.

ghost use Rattle.std.specs.Prelude.{ℕ, ◌≡◌, length, map, slice_get, Some, IfOk};
ghost use Rattle.srcset.specs.Fault.{IsMemoryFault};
ghost use Rattle.typed_ast.specs.View.{function_of, program_of};
ghost use Rattle.frames_code.specs.Code as flat;
ghost use Rattle.frames.specs.layer.Alone.{starts_in};
ghost use Rattle.cc_backend.specs.Made.{IsReady, IsFlatCodeOf};
ghost use Rattle.cc_backend.specs.inside.FlatFunctions.{IsFlatFunctionOf, AreFlatFunctionsOf};

use frames::{Starts, data_alone, flatten_function};
use frames_code::FlatProgram;
use frames_hoist::hoist_function;
use frames_layout::{known_bytes, lay_out};
use frames_leaf::allocate_leaf;
use frames_opt::simplify_function;
use frames_reach::remove_unreachable;
use frames_regalloc::renumber_function;
use srcset::Fault;
use std::alloc::{AllocError, Global};
use tac::lower_function;
use typed_ast::{Function, Program};

/// The fault 801, out of memory.
pub fn want_of_memory(fault: Fault) -> AllocError
    requires { IsMemoryFault fault }
{
    drop(fault);
    AllocError
}

/// The flat code of a function, with the words in front that are used most.
fn flat_function(
    alloc: Global,
    program: &Program,
    starts: &Starts,
    function: &Function,
    is_main: bool,
) -> Result<frames_code::Function, AllocError>
    requires ready { IsReady (program_of program.now) }
    requires own { (k : ℕ) × (slice_get (program_of program.now).functions k ≡ Some (function_of function.now)) }
    ensures { IfOk result (λ h. IsFlatFunctionOf (program_of program.now) (starts_in starts.now) is_main (function_of function.now) (flat.function_of h)) }
{
    let code = lower_function(alloc, program, function, is_main)?;
    let long = flatten_function(alloc, starts, &code)?;
    drop(code);
    let most = known_bytes(&long.code);
    let simple = simplify_function(alloc, long)?;
    let reached = remove_unreachable(alloc, simple)?;
    let laid = lay_out(alloc, most, reached)?;
    let hoisted = hoist_function(alloc, laid)?;
    let allocated = allocate_leaf(alloc, hoisted)?;
    renumber_function(alloc, &allocated)
}

fn flat_functions(
    alloc: Global,
    program: &Program,
    starts: &Starts,
) -> Result<Vec<frames_code::Function>, AllocError>
    requires { IsReady (program_of program.now) }
    ensures { IfOk result (λ hs. AreFlatFunctionsOf (program_of program.now) (starts_in starts.now) (length program.now.functions.items) (map flat.function_of hs.items)) }
{
    let mut list = Vec::with_capacity(alloc, program.functions.len())?;
    let mut number = 0;
    for function in &program.functions {
        let is_main = number == program.main;
        list.push(flat_function(alloc, program, starts, function, is_main)?)?;
        number += 1;
    }
    Ok(list)
}

/// The flat code of a program, with the words in front that are used most.
pub fn flat_program(alloc: Global, program: &Program) -> Result<FlatProgram, AllocError>
    requires { IsReady (program_of program.now) }
    ensures { IfOk result (λ f. IsFlatCodeOf (program_of program.now) (flat.program_of f)) }
{
    let starts = Starts::new(alloc, &program.literals, &program.statics)?;
    let functions = flat_functions(alloc, program, &starts)?;
    let statics = data_alone(alloc, &program.literals, &program.statics)?;
    Ok(FlatProgram {
        functions,
        statics,
        main: program.main,
    })
}
