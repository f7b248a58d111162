//! Bodies of functions (6.9.1).

ghost use Rattle.std.specs.Prelude.{◌≡◌, ◌++◌, length, nat_eq, IfOk, Some, false, slice_get};
ghost use Rattle.typed_ast.specs.View.{function_of, program_of};
ghost use Rattle.csem.specs.Meaning.{value_at_end};
ghost use Rattle.verify_logic.specs.States.{ValueIs};
ghost use Rattle.verify_logic.specs.Statements.{Executes};
ghost use Rattle.verify_logic.specs.Calls.{Begins, FunctionEnds};
ghost use Rattle.verify_logic.specs.Whole.{IsDefinedBut};
ghost use Rattle.verify_expressions.specs.Views.{known_of, shapes_in, state_of};
ghost use Rattle.verify_statements.specs.Ways.{ways_of};
ghost use Rattle.verify.specs.Says.{EntersMain, Fresh, IsSoundWork, OnlyReturns, Shows, frame_in};

use crate::first_objects::{FirstObjects, objects_at_start};
use crate::work::Work;
use std::alloc::Global;
use typed_ast::{Function, Program};
use verify_expressions::{
    AbsState, Known, Memory, Scope, Stop, Wanted, copied_known, follows_elements, is_reached,
    joined,
};
use verify_intervals::{either, initialised, single, uninitialised};
use verify_logic::{AbsValue, ArrayArgument};
use verify_statements::{Left, statement};

/// New objects.
fn fresh(alloc: Global, count: usize) -> Result<Vec<AbsValue>, Stop>
    ensures { IfOk result (λ r. Fresh count r.items) }
{
    let mut out = Vec::new(alloc);
    for _n in 0..count {
        let k = uninitialised();
        let Ok(()) = out.push(k) else {
            return Err(Stop::Memory);
        };
    }
    Ok(out)
}

/// The body of a function, entered with these objects.
fn body_executed<'a>(
    memory: &'a Memory,
    program: &'a Program,
    work: &'a Work,
    outer: &'a [Vec<u32>],
    arrays: &'a [ArrayArgument],
    function: &'a Function,
    entry: Known,
) -> Result<Left, Stop>
    ensures { IfOk result (λ r. Executes (frame_in (program_of program.now) work.now outer.now arrays.now (function_of function.now)) (function_of function.now).body (Some (known_of entry)) (ways_of r)) }
{
    let scope = Scope {
        alloc: memory.alloc,
        program,
        listed: &work.listed,
        summaries: &work.summaries,
        outer,
        objects: &function.objects,
        arrays,
        memory,
    };
    let state = AbsState {
        objects: Some(entry),
    };
    let left = statement(&scope, state, &function.body)?;
    Ok(left)
}

fn appended(first: Vec<AbsValue>, rest: &[AbsValue]) -> Result<Vec<AbsValue>, Stop>
    ensures { IfOk result (λ r. r.items ≡ first.items ++ rest.now) }
{
    let mut out = first;
    match out.extend_from_slice(rest) {
        Ok(()) => Ok(out),
        Err(_) => Err(Stop::Memory),
    }
}

/// The values of all objects as main is entered.
fn entered(alloc: Global, known: Known, count: usize) -> Result<Known, Stop>
    ensures { IfOk result (λ r. EntersMain (known_of known) count (known_of r)) }
{
    let own = fresh(alloc, count)?;
    let objects = appended(known.objects, &own)?;
    Ok(Known {
        objects,
        facts: known.facts,
    })
}

fn object_count(function: &Function) -> usize
    ensures { result ≡ length (function_of function.now).objects }
{
    function.objects.len()
}

fn is_entry(program: &Program, f: usize) -> bool
    ensures { result ≡ nat_eq f (program_of program.now).main }
{
    f == program.main
}

fn function_shown(
    memory: &Memory,
    program: &Program,
    work: &Work,
    before: FirstObjects,
    function: &Function,
) -> Result<(), Stop>
    requires sound { IsSoundWork (program_of program.now) work.now }
    requires main { slice_get (program_of program.now).functions (program_of program.now).main ≡ Some (function_of function.now) }
    requires begins { Begins (program_of program.now) (shapes_in before.outer.items) (known_of before.known) }
    ensures { IfOk result (λ u. IsDefinedBut (program_of program.now) work.now.listed.items) }
{
    let outer = before.outer;
    let entry = entered(memory.alloc, before.known, object_count(function))?;
    let _left = body_executed(memory, program, work, &outer, &[], function, entry)?;
    Ok(())
}

/// The objects without what is known of single elements.
fn without_elements(alloc: Global, program: &Program, before: FirstObjects) -> FirstObjects
    requires { Begins (program_of program.now) (shapes_in before.outer.items) (known_of before.known) }
    ensures { Begins (program_of program.now) (shapes_in result.outer.items) (known_of result.known) }
{
    let facts = Vec::new(alloc);
    FirstObjects {
        outer: before.outer,
        known: Known {
            objects: before.known.objects,
            facts,
        },
    }
}

/// The objects before the run.
fn objects_before(memory: &Memory, program: &Program) -> Result<FirstObjects, Stop>
    ensures { IfOk result (λ r. Begins (program_of program.now) (shapes_in r.outer.items) (known_of r.known)) }
{
    let before = objects_at_start(memory.alloc, program)?;
    let elements = follows_elements(memory);
    if elements {
        return Ok(before);
    }
    let all = without_elements(memory.alloc, program, before);
    Ok(all)
}

/// Analyses the body of main.
///
/// Errors: undefined behaviour is not ruled out at some place, nothing is known of a call, or the analysis is not possible.
pub fn main_shown(memory: &Memory, program: &Program, work: &Work) -> Result<(), Stop>
    requires { IsSoundWork (program_of program.now) work.now }
    ensures { IfOk result (λ u. IsDefinedBut (program_of program.now) work.now.listed.items) }
{
    let before = objects_before(memory, program)?;
    match program.functions.get(program.main) {
        None => Err(Stop::Unfollowed(None)),
        Some(function) => function_shown(memory, program, work, before, function),
    }
}

/// The value of a function whose body is not left by a `return` (5.1.2.2.3, 6.9.1p12).
fn end_value(is_main: bool) -> AbsValue
    ensures { ValueIs result (value_at_end is_main) }
{
    if is_main {
        initialised(single(0))
    } else {
        uninitialised()
    }
}

/// The states in which a body ends.
#[derive(Drop)]
pub struct BodyEnd {
    pub value: AbsValue,
    pub state: AbsState,
}

/// The ends of the body of function `f`.
fn joined_end(alloc: Global, program: &Program, f: usize, w: Left) -> Result<BodyEnd, Stop>
    ensures { IfOk result (λ r. FunctionEnds (program_of program.now) f (ways_of w) r.value (state_of r.state)) }
{
    let is_main = is_entry(program, f);
    let end = end_value(is_main);
    let value = either(w.value, end);
    let two = joined(alloc, w.normal, w.broken)?;
    let three = joined(alloc, two, w.continued)?;
    let state = joined(alloc, three, w.returned)?;
    Ok(BodyEnd { value, state })
}

/// The same, if each end is a `return`.
fn returned_end(program: &Program, f: usize, w: Left) -> Result<BodyEnd, Stop>
    ensures { IfOk result (λ r. FunctionEnds (program_of program.now) f (ways_of w) r.value (state_of r.state)) }
{
    let ends = falls(&w);
    if ends {
        return Err(Stop::Unfollowed(None));
    }
    Ok(BodyEnd {
        value: w.value,
        state: w.returned,
    })
}

/// Tests whether a body may end other than by a `return`.
fn falls(w: &Left) -> bool
    ensures { (result ≡ false) → OnlyReturns (ways_of w.now) }
{
    is_reached(&w.normal) || is_reached(&w.broken) || is_reached(&w.continued)
}

fn body_end(alloc: Global, program: &Program, f: usize, w: Left) -> Result<BodyEnd, Stop>
    ensures { IfOk result (λ r. FunctionEnds (program_of program.now) f (ways_of w) r.value (state_of r.state)) }
{
    let ends = falls(&w);
    if ends {
        joined_end(alloc, program, f, w)
    } else {
        returned_end(program, f, w)
    }
}

fn wanted_entry(alloc: Global, wanted: &Wanted) -> Result<Known, Stop>
    ensures { IfOk result (λ r. known_of r ≡ known_of wanted.now.entry) }
{
    copied_known(alloc, &wanted.entry)
}

fn wanted_shown(
    memory: &Memory,
    program: &Program,
    work: &Work,
    wanted: &Wanted,
    function: &Function,
) -> Result<BodyEnd, Stop>
    requires sound { IsSoundWork (program_of program.now) work.now }
    requires called { slice_get (program_of program.now).functions wanted.now.function ≡ Some (function_of function.now) }
    ensures { IfOk result (λ r. Shows (program_of program.now) work.now wanted.now r) }
{
    let entry = wanted_entry(memory.alloc, wanted)?;
    let left = body_executed(
        memory,
        program,
        work,
        &wanted.outer,
        &wanted.arrays,
        function,
        entry,
    )?;
    let end = body_end(memory.alloc, program, wanted.function, left)?;
    Ok(end)
}

/// Analyses the body of a function that is called.
///
/// Errors: undefined behaviour is not ruled out at some place, nothing is known of a call, or the analysis is not possible.
pub fn call_shown(
    memory: &Memory,
    program: &Program,
    work: &Work,
    wanted: &Wanted,
) -> Result<BodyEnd, Stop>
    requires { IsSoundWork (program_of program.now) work.now }
    ensures { IfOk result (λ r. Shows (program_of program.now) work.now wanted.now r) }
{
    match program.functions.get(wanted.function) {
        None => Err(Stop::Unfollowed(None)),
        Some(function) => wanted_shown(memory, program, work, wanted, function),
    }
}
