//! Whether a plan fits the code that it is for.

ghost use Rattle.std.specs.Prelude.{◌≡◌, ◌<◌, ◌^◌, slice_get};
ghost use Rattle.frames_layout.specs.layer.Plans as plans;

use crate::plan::Stand;
use crate::walks::{onward_at, walks};
use frames_code::Instruction;

/// The most instructions that only lead on, for one of the new code.
pub const MOST_ONWARD: usize = 64;

fn owed(is_owed: bool) -> usize
    ensures { result ≡ plans.owed is_owed }
{
    if is_owed { 1 } else { 0 }
}

fn stand_at(plan: &[Stand], number: usize) -> Option<Stand>
    ensures { result ≡ slice_get plan.now number }
{
    if number < plan.len() {
        Some(plan[number])
    } else {
        None
    }
}

/// Whether the code comes from a place to what an instruction of the new code stands for; if a jump is owed there, so many were passed before.
fn comes(code: &[Instruction], plan: &[Stand], before: usize, from: usize, number: usize) -> bool
    ensures { result ≡ plans.comes code.now plan.now before from number }
{
    match stand_at(plan, number) {
        None => false,
        Some(stand) => {
            let jumps = owed(stand.is_owed).saturating_sub(before);
            walks(code, MOST_ONWARD, jumps, stand.old, from)
        }
    }
}

fn is_plain(plan: &[Stand], number: usize) -> bool
    ensures { result ≡ plans.is_plain_at plan.now number }
{
    if number < plan.len() {
        !plan[number].is_owed
    } else {
        false
    }
}

/// Whether an instruction of the new code leads on as the one that it stands for.
fn leads_as(
    code: &[Instruction],
    plan: &[Stand],
    number: usize,
    stand: Stand,
    instruction: Instruction,
) -> bool
    requires old { stand.old < 2 ^ 62 }
    requires new { number < 2 ^ 62 }
    ensures { result ≡ plans.leads_as code.now plan.now number stand instruction }
{
    let before = owed(stand.is_owed);
    match instruction {
        Instruction::Nothing => comes(code, plan, before, stand.old + 1, number + 1),
        Instruction::Move { .. } => comes(code, plan, before, stand.old + 1, number + 1),
        Instruction::Compute { .. } => comes(code, plan, before, stand.old + 1, number + 1),
        Instruction::Convert { .. } => comes(code, plan, before, stand.old + 1, number + 1),
        Instruction::Load { .. } => comes(code, plan, before, stand.old + 1, number + 1),
        Instruction::Store { .. } => comes(code, plan, before, stand.old + 1, number + 1),
        Instruction::Address { .. } => comes(code, plan, before, stand.old + 1, number + 1),
        Instruction::Element { .. } => comes(code, plan, before, stand.old + 1, number + 1),
        Instruction::Jump(to) => comes(code, plan, before, to, stand.place),
        Instruction::Branch { to, .. } => {
            comes(code, plan, before, stand.old + 1, number + 1)
                && comes(code, plan, before, to, stand.place)
        }
        Instruction::Call(_) => {
            is_plain(plan, number + 1) && comes(code, plan, 0, stand.old + 1, number + 1)
        }
        Instruction::PutByte => comes(code, plan, before, stand.old + 1, number + 1),
        Instruction::GetByte => comes(code, plan, before, stand.old + 1, number + 1),
        Instruction::Exit => true,
        Instruction::Return => true,
    }
}

fn jumps_as(code: &[Instruction], plan: &[Stand], stand: Stand) -> bool
    ensures { result ≡ plans.jumps_as code.now plan.now stand }
{
    if !stand.is_owed {
        return false;
    }
    match onward_at(code, stand.old) {
        None => false,
        Some(next) => comes(code, plan, next.jumps, next.to, stand.place),
    }
}

fn keeps(code: &[Instruction], plan: &[Stand], number: usize, stand: Stand) -> bool
    requires { number < 2 ^ 62 }
    ensures { result ≡ plans.keeps code.now plan.now number stand }
{
    if stand.old < code.len() {
        leads_as(code, plan, number, stand, code[stand.old])
    } else {
        false
    }
}

fn fits(code: &[Instruction], plan: &[Stand], number: usize, stand: Stand) -> bool
    requires { number < 2 ^ 62 }
    ensures { result ≡ plans.fits code.now plan.now number stand }
{
    if stand.is_jump {
        jumps_as(code, plan, stand)
    } else {
        keeps(code, plan, number, stand)
    }
}

/// Whether each instruction of the new code fits the one that it stands for.
pub fn all_fit(code: &[Instruction], plan: &[Stand]) -> bool
    ensures { result ≡ plans.all_fit code.now plan.now 0 plan.now }
{
    for number in 0..plan.len() {
        if !fits(code, plan, number, plan[number]) {
            return false;
        }
    }
    true
}

/// Whether the new code begins where the old code does.
pub fn begins(plan: &[Stand]) -> bool
    ensures { result ≡ plans.begins_in plan.now }
{
    if 0 < plan.len() {
        plan[0].old == 0 && !plan[0].is_owed
    } else {
        false
    }
}
