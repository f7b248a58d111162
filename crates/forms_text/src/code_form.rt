//! Three-address code and flat code, an instruction a line.

ghost use Rattle.std.specs.Prelude.{ℕ, ◌≡◌, true, Some, slice_get};
ghost use Rattle.lower_wf.specs.Asked.{types_are_sized};
ghost use Rattle.typed_ast.specs.View.{program_of, function_of};

use crate::writer::Writer;
use frames_code::FlatProgram;
use std::alloc::{AllocError, Global};
use tac::{CodeStart, code_starts, lower_function};
use typed_ast::{Function, Program};

/// A line of code: the number of the instruction, and the instruction.
fn put_line(
    out: &mut Writer<'_>,
    number: usize,
    text: &str,
    start: Option<CodeStart>,
) -> Result<(), AllocError> {
    out.begin("instruction")?;
    out.count("number", number)?;
    out.word("code", text)?;
    if let Some(start) = start {
        out.place(start.place)?;
    }
    out.end()
}

/// The last start among those at an instruction, from a number of starts on.
fn start_at(starts: &[CodeStart], from: usize, number: usize) -> Option<CodeStart> {
    let mut found = None;
    for start in starts.get(from..).unwrap_or_default() {
        if start.number != number {
            break;
        }
        found = Some(*start);
    }
    found
}

/// The number of starts at an instruction.
fn count_at(starts: &[CodeStart], from: usize, number: usize) -> usize {
    let mut count: usize = 0;
    for start in starts.get(from..).unwrap_or_default() {
        if start.number != number {
            break;
        }
        count = count.saturating_add(1);
    }
    count
}

fn put_lines(
    alloc: Global,
    out: &mut Writer<'_>,
    code: &[tac_code::Instruction],
    starts: &[CodeStart],
) -> Result<(), AllocError> {
    let mut passed: usize = 0;
    for (number, instruction) in code.iter().enumerate() {
        let text = format!(in alloc; "{instruction:?}")?;
        let start = start_at(starts, passed, number);
        put_line(out, number, text.as_str(), start)?;
        passed = passed.saturating_add(count_at(starts, passed, number));
    }
    Ok(())
}

fn put_function(
    alloc: Global,
    out: &mut Writer<'_>,
    program: &Program,
    function: &Function,
    is_main: bool,
) -> Result<(), AllocError>
    requires sized { types_are_sized (program_of program.now) ≡ true }
    requires own { (k : ℕ) × (slice_get (program_of program.now).functions k ≡ Some (function_of function.now)) }
{
    let code = lower_function(alloc, program, function, is_main)?;
    let starts = code_starts(alloc, program, function)?;
    out.begin("function")?;
    out.name("name", function.name)?;
    out.count("temporaries", code.temporaries)?;
    out.count("slots", code.kept)?;
    put_lines(alloc, out, code.code.as_slice(), starts.as_slice())?;
    out.end()
}

/// The three-address code of each function; where a statement's code begins, its place.
pub(crate) fn put_tac(
    alloc: Global,
    out: &mut Writer<'_>,
    program: &Program,
) -> Result<(), AllocError>
    requires { types_are_sized (program_of program.now) ≡ true }
{
    out.begin("program")?;
    let mut number: usize = 0;
    for function in &program.functions {
        put_function(alloc, out, program, function, number == program.main)?;
        number = number.saturating_add(1);
    }
    out.end()
}

fn put_flat_function(
    alloc: Global,
    out: &mut Writer<'_>,
    name: usize,
    function: &frames_code::Function,
) -> Result<(), AllocError> {
    out.begin("function")?;
    out.name("name", name)?;
    out.count("words", function.cells)?;
    out.count("resident", function.resident)?;
    out.count("bytes", function.area)?;
    for (number, instruction) in function.code.iter().enumerate() {
        let text = format!(in alloc; "{instruction:?}")?;
        put_line(out, number, text.as_str(), None)?;
    }
    out.end()
}

/// The flat code of each function.
pub(crate) fn put_flat(
    alloc: Global,
    out: &mut Writer<'_>,
    program: &Program,
    code: &FlatProgram,
) -> Result<(), AllocError> {
    out.begin("program")?;
    for (function, flat) in program.functions.iter().zip(code.functions.iter()) {
        put_flat_function(alloc, out, function.name, flat)?;
    }
    out.end()
}
