//! The test of a recursion.

ghost use Rattle.std.specs.Prelude.{◌≡◌, slice_get, Contains, IfOk, IsTrue, Some};
ghost use Rattle.typed_ast.specs.View.{function_of, program_of};
ghost use Rattle.verify_stack.specs.Recursions.{calls_in, Leads, Recurses};

use crate::bounds::Recursion;
use crate::calls::body_calls;
use std::alloc::{AllocError, Global};
use typed_ast::{Function, Program};

fn is_among(g: usize, calls: &[usize]) -> bool
    ensures { IsTrue result → Contains calls.now g }
{
    calls.contains(&g)
}

fn body_calls_it(
    alloc: Global,
    program: &Program,
    f: usize,
    function: &Function,
    g: usize,
) -> Result<bool, AllocError>
    requires { slice_get (program_of program.now).functions f ≡ Some (function_of function.now) }
    ensures { IfOk result (λ b. IsTrue b → Contains (calls_in (program_of program.now) f) g) }
{
    let calls = body_calls(alloc, function)?;
    Ok(is_among(g, &calls))
}

/// Tests whether the body of function `f` calls function `g`.
fn calls_it(alloc: Global, program: &Program, f: usize, g: usize) -> Result<bool, AllocError>
    ensures { IfOk result (λ b. IsTrue b → Contains (calls_in (program_of program.now) f) g) }
{
    match program.functions.get(f) {
        None => Ok(false),
        Some(function) => body_calls_it(alloc, program, f, function, g),
    }
}

fn leads(
    alloc: Global,
    program: &Program,
    from: usize,
    way: &[usize],
    to: usize,
) -> Result<bool, AllocError>
    ensures { IfOk result (λ b. IsTrue b → Leads (program_of program.now) from way.now to) }
{
    let mut at = from;
    let mut rest = way;
    while let Some((next, more)) = rest.split_first() {
        let next = *next;
        let called = calls_it(alloc, program, at, next)?;
        if !called {
            return Ok(false);
        }
        at = next;
        rest = more;
    }
    Ok(at == to)
}

/// Tests whether calls lead from main to the function, and from it to itself.
///
/// Errors: memory ran out.
pub fn recurses(alloc: Global, program: &Program, r: &Recursion) -> Result<bool, AllocError>
    ensures { IfOk result (λ b. IsTrue b → Recurses (program_of program.now) r.now) }
{
    let reached = leads(alloc, program, program.main, &r.way, r.function)?;
    let again = leads(alloc, program, r.function, &r.cycle, r.function)?;
    let some = !r.cycle.is_empty();
    Ok(reached && again && some)
}
