//! Instructions that only lead on.

ghost use Rattle.std.specs.Prelude.{◌≡◌, ◌<◌, ◌≤◌, ◌^◌, Option, Some, None, length};
ghost use Rattle.frames_layout.specs.layer.Plans as plans;

use frames_code::Instruction;

/// Where an instruction leads that does nothing else, and how many jumps it is.
#[derive(Clone, Copy, Debug)]
pub struct Onward {
    pub to: usize,
    pub jumps: usize,
}

fn leads_onward(number: usize, instruction: Instruction) -> Option<Onward>
    requires { number < 2 ^ 62 }
    ensures { result ≡ plans.onward number instruction }
{
    match instruction {
        Instruction::Nothing => Some(Onward {
            to: number + 1,
            jumps: 0,
        }),
        Instruction::Move { .. } => None,
        Instruction::Compute { .. } => None,
        Instruction::Convert { .. } => None,
        Instruction::Load { .. } => None,
        Instruction::Store { .. } => None,
        Instruction::Address { .. } => None,
        Instruction::Element { .. } => None,
        Instruction::Jump(to) => Some(Onward { to, jumps: 1 }),
        Instruction::Branch { .. } => None,
        Instruction::Call(_) => None,
        Instruction::PutByte => None,
        Instruction::GetByte => None,
        Instruction::Exit => None,
        Instruction::Return => None,
    }
}

/// Where the instruction at a place leads, if it does nothing else.
pub fn onward_at(code: &[Instruction], number: usize) -> Option<Onward>
    ensures { result ≡ plans.onward_at code.now number }
{
    if number < code.len() {
        leads_onward(number, code[number])
    } else {
        None
    }
}

/// Whether the code comes from one place to another within so many such instructions, of which at least so many are jumps.
pub fn walks(code: &[Instruction], most: usize, jumps: usize, to: usize, from: usize) -> bool
    ensures { result ≡ plans.walks code.now most jumps to from }
{
    if from == to && jumps == 0 {
        return true;
    }
    if most == 0 {
        return false;
    }
    match onward_at(code, from) {
        None => false,
        Some(next) => walks(
            code,
            most - 1,
            jumps.saturating_sub(next.jumps),
            to,
            next.to,
        ),
    }
}
