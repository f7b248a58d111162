//! Where jumps lead.

ghost use Rattle.std.specs.Prelude.{◌≡◌, ℕ, true, length, set, IfOk};
ghost use Rattle.frames_opt.specs.inside.Passes as passes;
ghost use Rattle.frames_opt.specs.inside.Passes.{AreMarked};

use crate::liveness::{dead_at, is_written, masks_of, reads};
use crate::statuses::Status;
use frames_code::{Instruction, Operand, Target};
use std::alloc::{AllocError, Global};

/// Whether a jump may lead to the instruction with this number.
pub fn is_marked(marks: &[bool], number: usize) -> bool
    ensures { result ≡ passes.is_marked marks.now number }
{
    if number < marks.len() {
        marks[number]
    } else {
        true
    }
}

fn put_mark(marks: &mut [bool], number: usize)
    ensures { marks.new ≡ set marks.old number true }
{
    if number < marks.len() {
        marks[number] = true;
    }
}

fn mark(marks: &mut [bool], instruction: Instruction)
    ensures { marks.new ≡ passes.marked marks.old instruction }
{
    match instruction {
        Instruction::Nothing => {}
        Instruction::Move { .. } => {}
        Instruction::Compute { .. } => {}
        Instruction::Convert { .. } => {}
        Instruction::Load { .. } => {}
        Instruction::Store { .. } => {}
        Instruction::Address { .. } => {}
        Instruction::Element { .. } => {}
        Instruction::Jump(to) => put_mark(marks, to),
        Instruction::Branch { to, .. } => put_mark(marks, to),
        Instruction::Call(_) => {}
        Instruction::PutByte => {}
        Instruction::GetByte => {}
        Instruction::Exit => {}
        Instruction::Return => {}
    }
}

fn mark_all(marks: &mut [bool], code: &[Instruction])
    ensures { marks.new ≡ passes.all_marked marks.old code.now }
{
    for instruction in code {
        mark(marks, *instruction);
    }
}

/// How far the uses of a reference are looked for.
const WINDOW: usize = 64;

fn is_temporary(operand: Operand, number: usize) -> bool {
    match operand {
        Operand::Temporary(other) => other == number,
        Operand::Cell(_) => false,
        Operand::Constant(_) => false,
        Operand::Argument(_) => false,
    }
}

/// Whether an instruction only leads a reference on by a constant number of elements.
fn leads_on(instruction: Instruction, number: usize) -> bool {
    match instruction {
        Instruction::Element {
            target: Target::Temporary(target),
            array,
            index: Operand::Constant(_),
            ..
        } => target == number && is_temporary(array, number),
        _ => false,
    }
}

/// Whether a temporary has another value behind an instruction, or the code goes on elsewhere.
fn ends_use(instruction: Instruction, number: usize) -> bool {
    match instruction {
        Instruction::Jump(_) => true,
        Instruction::Call(_) => true,
        Instruction::PutByte => true,
        Instruction::GetByte => true,
        Instruction::Exit => true,
        Instruction::Return => true,
        _ => is_written(number, instruction),
    }
}

/// The temporary that takes a reference by an index that is no constant.
fn reference_made(instruction: Instruction) -> Option<usize> {
    match instruction {
        Instruction::Element {
            index: Operand::Constant(_),
            ..
        } => None,
        Instruction::Element {
            target: Target::Temporary(number),
            ..
        } => Some(number),
        _ => None,
    }
}

/// Whether the code from instruction `first` on reads the reference in a temporary more than once.
fn is_read_twice(masks: &[u8], code: &[Instruction], first: usize, number: usize) -> bool {
    let mut is_read = false;
    for behind in 0..WINDOW {
        let place = first.saturating_add(behind);
        let Some(instruction) = code.get(place) else {
            return false;
        };
        if dead_at(masks, place, number) {
            return false;
        }
        if !leads_on(*instruction, number) {
            if reads(true, Status::Same, number, *instruction) {
                if is_read {
                    return true;
                }
                is_read = true;
            }
            if ends_use(*instruction, number) {
                return false;
            }
        }
    }
    false
}

/// Whether the code after instruction `at` reads the reference that it makes by an index more than once.
fn is_shared(masks: &[u8], code: &[Instruction], at: usize) -> bool {
    let Some(instruction) = code.get(at) else {
        return false;
    };
    match reference_made(*instruction) {
        Some(number) => is_read_twice(masks, code, at.saturating_add(1), number),
        None => false,
    }
}

/// Marks the instruction after each that makes a reference for more than one access: to name the element in each would take its sum again.
fn mark_shared(marks: &mut [bool], masks: &[u8], code: &[Instruction])
    ensures more { (k : ℕ) → passes.is_marked marks.old k ≡ true → passes.is_marked marks.new k ≡ true }
    ensures len { length marks.new ≡ length marks.old }
{
    for number in 0..code.len() {
        if is_shared(masks, code, number) {
            put_mark(marks, number + 1);
        }
    }
}

fn mark_each(marks: &mut [bool], masks: &[u8], code: &[Instruction])
    ensures marked { AreMarked marks.new code.now }
    ensures len { length marks.new ≡ length marks.old }
{
    mark_all(marks, code);
    mark_shared(marks, masks, code);
}

/// Marks for the instructions that jumps lead to, and for some others.
pub fn marks_of(alloc: Global, gives: bool, code: &[Instruction]) -> Result<Vec<bool>, AllocError>
    ensures { IfOk result (λ marks. AreMarked marks.items code.now) }
{
    let masks = masks_of(alloc, gives, code)?;
    let mut marks = Vec::new(alloc);
    marks.resize(code.len(), false)?;
    mark_each(&mut marks, &masks, code);
    Ok(marks)
}
