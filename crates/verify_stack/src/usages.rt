//! The check of stack usages.

ghost use Rattle.std.specs.Prelude.{map, slice_get, IfOk, IsTrue};
ghost use Rattle.typed_ast.specs.View.{function_of, program_of};
ghost use Rattle.verify_stack.specs.Usages.{AreUsages, Covers, CoversIfSaid, EachCovers, EachFits, FitsIn};

use crate::calls::body_calls;
use std::alloc::{AllocError, Global};
use typed_ast::{Function, Program};

fn fits(usages: &[Option<u64>], room: u64, f: usize) -> bool
    ensures { IsTrue result → FitsIn room (slice_get usages.now f) }
{
    match usages.get(f) {
        None => false,
        Some(None) => false,
        Some(Some(usage)) => *usage <= room,
    }
}

/// Tests whether there is room for each of these calls.
fn each_fits(usages: &[Option<u64>], room: u64, calls: &[usize]) -> bool
    ensures { IsTrue result → EachFits usages.now room calls.now }
{
    let mut rest = calls;
    while let Some((f, more)) = rest.split_first() {
        let there = fits(usages, room, *f);
        if !there {
            return false;
        }
        rest = more;
    }
    true
}

fn covers(
    alloc: Global,
    usages: &[Option<u64>],
    size: u64,
    function: &Function,
    usage: u64,
) -> Result<bool, AllocError>
    ensures { IfOk result (λ b. IsTrue b → Covers usages.now size (function_of function.now) usage) }
{
    if usage < size {
        return Ok(false);
    }
    let calls = body_calls(alloc, function)?;
    Ok(each_fits(usages, usage - size, &calls))
}

fn covers_if_said(
    alloc: Global,
    usages: &[Option<u64>],
    size: u64,
    function: &Function,
    usage: Option<u64>,
) -> Result<bool, AllocError>
    ensures { IfOk result (λ b. IsTrue b → CoversIfSaid usages.now size (function_of function.now) usage) }
{
    match usage {
        None => Ok(true),
        Some(usage) => covers(alloc, usages, size, function, usage),
    }
}

fn each_covers(
    alloc: Global,
    usages: &[Option<u64>],
    functions: &[Function],
    sizes: &[u64],
) -> Result<bool, AllocError>
    ensures { IfOk result (λ b. IsTrue b → EachCovers usages.now (map function_of functions.now) usages.now sizes.now) }
{
    let mut rest = functions;
    let mut left = usages;
    let mut own = sizes;
    while let Some((function, functions)) = rest.split_first() {
        let Some((usage, others)) = left.split_first() else {
            return Ok(true);
        };
        let Some((size, more)) = own.split_first() else {
            return Ok(false);
        };
        let covered = covers_if_said(alloc, usages, *size, function, *usage)?;
        if !covered {
            return Ok(false);
        }
        rest = functions;
        left = others;
        own = more;
    }
    Ok(true)
}

/// Tests whether these are stack usages of functions with these sizes, by their numbers; none makes no claim for a function.
///
/// Errors: memory ran out.
pub fn are_usages(
    alloc: Global,
    program: &Program,
    sizes: &[u64],
    usages: &[Option<u64>],
) -> Result<bool, AllocError>
    ensures { IfOk result (λ b. IsTrue b → AreUsages (program_of program.now) sizes.now usages.now) }
{
    each_covers(alloc, usages, &program.functions, sizes)
}
