//! Functions without unreachable code.

ghost use Rattle.std.specs.Prelude.{◌≡◌, true, IfOk};
ghost use Rattle.std.specs.Bool.{OnTrue};
ghost use Rattle.frames_code.specs.Code.{function_of};
ghost use Rattle.frames_reach.specs.layer.Functions as reach;
ghost use Rattle.frames_reach.specs.layer.Functions.{IsReachedCode, IsReachedFunction};

use crate::marks::{are_right, is_marked, marks_of};
use frames_code::{Function, Instruction};
use std::alloc::{AllocError, Global};

fn kept(marks: &[bool], number: usize, instruction: Instruction) -> Instruction
    ensures { result ≡ reach.kept marks.now number instruction }
{
    if is_marked(marks, number) {
        instruction
    } else {
        Instruction::Nothing
    }
}

/// The code with `Nothing` in place of what is not marked.
fn all_kept(
    alloc: Global,
    marks: &[bool],
    code: &[Instruction],
) -> Result<Vec<Instruction>, AllocError>
    ensures { IfOk result (λ made. made.items ≡ reach.all_kept marks.now 0 code.now) }
{
    let mut made = Vec::with_capacity(alloc, code.len())?;
    for number in 0..code.len() {
        made.push(kept(marks, number, code[number]))?;
    }
    Ok(made)
}

/// Whether something may go, and the marks are right.
fn has_unreachable(marks: &[bool], code: &[Instruction]) -> bool
    ensures first { OnTrue result (reach.is_marked marks.now 0 ≡ true) }
    ensures right { OnTrue result (reach.are_right marks.now 0 code.now ≡ true) }
{
    for is_reached in marks {
        if !*is_reached {
            return is_marked(marks, 0) && are_right(marks, code);
        }
    }
    false
}

fn reached(alloc: Global, code: Vec<Instruction>) -> Result<Vec<Instruction>, AllocError>
    ensures { IfOk result (λ made. IsReachedCode code.items made.items) }
{
    let marks = marks_of(alloc, &code)?;
    if has_unreachable(&marks, &code) {
        all_kept(alloc, &marks, &code)
    } else {
        Ok(code)
    }
}

/// The function with `Nothing` in place of each instruction that no run comes to.
///
/// Errors: memory ran out.
pub fn remove_unreachable(alloc: Global, function: Function) -> Result<Function, AllocError>
    ensures { IfOk result (λ g. IsReachedFunction (function_of function) (function_of g)) }
{
    let code = reached(alloc, function.code)?;
    Ok(Function {
        code,
        cells: function.cells,
        resident: function.resident,
        area: function.area,
        outgoing: function.outgoing,
        gives: function.gives,
    })
}
