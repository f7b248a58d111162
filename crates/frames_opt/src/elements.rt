//! Elements that are offered to the second pass: the temporary that takes the reference is the index.

ghost use Rattle.std.specs.Prelude.{◌≡◌, get_or};
ghost use Rattle.frames_opt.specs.declared.facts.Known.TheVariants as known;
ghost use Rattle.frames_opt.specs.inside.Sweep as sweep;

use crate::facts::{Facts, Known, is_target, known_of};
use crate::indices::indexed_from;
use crate::room::Room;
use frames_code::Instruction;

/// The element that an instruction offers.
pub fn offer(room: Room, facts: &Facts, instruction: Instruction) -> Known
    ensures { result ≡ sweep.offer room facts.now instruction }
{
    match instruction {
        Instruction::Nothing => Known::Unknown,
        Instruction::Move { .. } => Known::Unknown,
        Instruction::Compute { .. } => Known::Unknown,
        Instruction::Convert { .. } => Known::Unknown,
        Instruction::Load { .. } => Known::Unknown,
        Instruction::Store { .. } => Known::Unknown,
        Instruction::Address { .. } => Known::Unknown,
        Instruction::Element {
            target,
            array,
            index,
            size,
        } => {
            if is_target(target, index) {
                indexed_from(room, known_of(facts, array), index, size)
            } else {
                Known::Unknown
            }
        }
        Instruction::Jump(_) => Known::Unknown,
        Instruction::Branch { .. } => Known::Unknown,
        Instruction::Call(_) => Known::Unknown,
        Instruction::PutByte => Known::Unknown,
        Instruction::GetByte => Known::Unknown,
        Instruction::Exit => Known::Unknown,
        Instruction::Return => Known::Unknown,
    }
}

/// The element that is offered at an instruction.
pub fn offer_at(list: &[Known], number: usize) -> Known
    ensures { result ≡ get_or list.now number known.Unknown }
{
    if number < list.len() {
        list[number]
    } else {
        Known::Unknown
    }
}
