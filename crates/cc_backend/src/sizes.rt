//! The frames of functions.

ghost use Rattle.std.specs.Prelude.{◌≡◌, ◌≤◌, ℕ, map, slice_get, Some, IfOk, OnOk, ◌++◌};
ghost use Rattle.frames_code.specs.Code as flat;
ghost use Rattle.frames_code.specs.Code.{frame_bytes, function_of};
ghost use Rattle.frames_code.specs.Sound.{IsSoundProgram, most_bytes};

use frames_code::{FlatProgram, Function};
use std::alloc::{AllocError, Global};

/// The bytes of the frame of each function.
pub fn frame_sizes(alloc: Global, program: &FlatProgram) -> Result<Vec<u32>, AllocError>
    requires { IsSoundProgram (flat.program_of program.now) }
    ensures { IfOk result (λ sizes. sizes.items ≡ map frame_bytes (flat.program_of program.now).functions) }
{
    let mut sizes = Vec::with_capacity(alloc, program.functions.len())?;
    put_sizes(&mut sizes, &program.functions)?;
    Ok(sizes)
}

fn put_sizes(sizes: &mut Vec<u32>, functions: &[Function]) -> Result<(), AllocError>
    requires { (k : ℕ) (f : flat.Function) → slice_get (map function_of functions.now) k ≡ Some f → frame_bytes f ≤ most_bytes }
    ensures { OnOk result (sizes.new.items ≡ sizes.old.items ++ map frame_bytes (map function_of functions.now)) }
{
    for function in functions {
        sizes.push(function.frame_bytes())?;
    }
    Ok(())
}
