//! The flat code of a program after each of the passes over it.

ghost use Rattle.std.specs.Prelude.{ℕ, ◌≡◌, slice_get, Some};
ghost use Rattle.typed_ast.specs.View.{function_of, program_of};
ghost use Rattle.cc_backend.specs.Made.{IsReady};

use frames::{Starts, data_alone, flatten_function};
use frames_code::FlatProgram;
use frames_hoist::hoist_function;
use frames_layout::{known_bytes, lay_out};
use frames_leaf::allocate_leaf;
use frames_opt::simplify_function;
use frames_reach::remove_unreachable;
use frames_regalloc::renumber_function;
use std::alloc::{AllocError, Global};
use tac::lower_function;
use typed_ast::{Function, Program};

/// The passes over flat code, in their order.
#[derive(Clone, Copy, Debug, PartialEq, Eq)]
pub enum Pass {
    /// Flattening: three-address code has become flat code.
    Flatten,
    /// Constants are propagated, and dead stores removed.
    Simplify,
    /// Instructions that no run comes to are gone.
    RemoveUnreachable,
    /// Jumps are threaded, and what does nothing is left out.
    LayOut,
    /// Constants that loops use are in words of the frame.
    Hoist,
    /// Words of functions that call nothing are in those of a1 to a7 that are free.
    AllocateLeaf,
    /// The words that are used most are in s0 to s11.
    Renumber,
}

/// The flat code of a function after a pass.
fn function_after(
    alloc: Global,
    program: &Program,
    starts: &Starts,
    function: &Function,
    is_main: bool,
    pass: Pass,
) -> Result<frames_code::Function, AllocError>
    requires ready { IsReady (program_of program.now) }
    requires own { (k : ℕ) × (slice_get (program_of program.now).functions k ≡ Some (function_of function.now)) }
{
    let code = lower_function(alloc, program, function, is_main)?;
    let long = flatten_function(alloc, starts, &code)?;
    drop(code);
    if pass == Pass::Flatten {
        return Ok(long);
    }
    let most = known_bytes(&long.code);
    let simple = simplify_function(alloc, long)?;
    if pass == Pass::Simplify {
        return Ok(simple);
    }
    let reached = remove_unreachable(alloc, simple)?;
    if pass == Pass::RemoveUnreachable {
        return Ok(reached);
    }
    let laid = lay_out(alloc, most, reached)?;
    if pass == Pass::LayOut {
        return Ok(laid);
    }
    let hoisted = hoist_function(alloc, laid)?;
    if pass == Pass::Hoist {
        return Ok(hoisted);
    }
    let allocated = allocate_leaf(alloc, hoisted)?;
    if pass == Pass::AllocateLeaf {
        return Ok(allocated);
    }
    renumber_function(alloc, &allocated)
}

fn functions_after(
    alloc: Global,
    program: &Program,
    starts: &Starts,
    pass: Pass,
) -> Result<Vec<frames_code::Function>, AllocError>
    requires { IsReady (program_of program.now) }
{
    let mut list = Vec::with_capacity(alloc, program.functions.len())?;
    let mut number = 0;
    for function in &program.functions {
        let is_main = number == program.main;
        list.push(function_after(alloc, program, starts, function, is_main, pass)?)?;
        number += 1;
    }
    Ok(list)
}

/// The flat code of a program after a pass. After the last one it is the code of `flat_program`.
pub fn flat_program_after(
    alloc: Global,
    program: &Program,
    pass: Pass,
) -> Result<FlatProgram, AllocError>
    requires { IsReady (program_of program.now) }
{
    let starts = Starts::new(alloc, &program.literals, &program.statics)?;
    let functions = functions_after(alloc, program, &starts, pass)?;
    let statics = data_alone(alloc, &program.literals, &program.statics)?;
    Ok(FlatProgram {
        functions,
        statics,
        main: program.main,
    })
}
