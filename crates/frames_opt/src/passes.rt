//! The first pass over the code of a function: each instruction by what is known before it.

ghost use Rattle.std.specs.Prelude.{◌≡◌, IfOk};
ghost use Rattle.frames_opt.specs.inside.Facts.{nothing as nothing_known};
ghost use Rattle.frames_opt.specs.inside.Passes as passes;
ghost use Rattle.frames_opt.specs.inside.Sweep as sweep;

use crate::elements::offer;
use crate::facts::{Facts, Known, nothing, pass};
use crate::marks::is_marked;
use crate::room::Room;
use crate::rules::simpler;
use frames_code::Instruction;
use std::alloc::{AllocError, Global};

/// The code between the two passes.
#[derive(Debug, Drop)]
pub struct Middle {
    pub code: Vec<Instruction>,
    /// The element that each instruction offers to the second pass.
    pub offered: Vec<Known>,
}

/// Takes away what is known before an instruction that a jump may lead to.
fn freshen(marks: &[bool], number: usize, facts: &mut Facts)
    ensures { facts.new ≡ passes.fresh (passes.is_marked marks.now number) facts.old }
{
    if is_marked(marks, number) {
        *facts = nothing();
    }
}

/// The code by the facts known before each instruction; jumps lead to marked ones alone.
pub fn forward(
    alloc: Global,
    room: Room,
    marks: &[bool],
    code: &[Instruction],
) -> Result<Middle, AllocError>
    ensures code { IfOk result (λ made. made.code.items ≡ passes.forward room marks.now 0 nothing_known code.now) }
    ensures offered { IfOk result (λ made. made.offered.items ≡ sweep.offers room marks.now 0 nothing_known code.now) }
{
    let mut facts = nothing();
    let mut made = Vec::with_capacity(alloc, code.len())?;
    let mut list = Vec::with_capacity(alloc, code.len())?;
    for number in 0..code.len() {
        freshen(marks, number, &mut facts);
        let simple = simpler(room.area, &facts, code[number]);
        list.push(offer(room, &facts, simple))?;
        pass(room, &mut facts, simple);
        made.push(simple)?;
    }
    Ok(Middle {
        code: made,
        offered: list,
    })
}
