//! The second pass over the code of a function: what writes a dead temporary is left out, and an index stays where a reference would be.

ghost use Rattle.std.specs.Prelude.{◌≡◌, ◌<◌, ◌^◌, IfOk};
ghost use Rattle.frames_opt.specs.inside.Passes as passes;
ghost use Rattle.frames_opt.specs.inside.Sweep as sweep;

use crate::dead::{dead_leads, is_within, reads_dead};
use crate::elements::offer_at;
use crate::facts::{Known, is_target};
use crate::indices::{further, is_cheap, is_near};
use crate::liveness::{is_written, reads, written};
use crate::room::Room;
use crate::rows::{Held, Row, mask_at, status_at};
use crate::statuses::{Status, accepts, index_of, is_same};
use frames_code::{Instruction, Location, Operand};
use std::alloc::{AllocError, Global};

fn place_by(status: Status, number: usize) -> Location
    ensures { result ≡ sweep.place_by status number }
{
    match status {
        Status::Same => Location::At(Operand::Temporary(number)),
        Status::Dead => Location::At(Operand::Temporary(number)),
        Status::Index { base, size } => Location::Indexed {
            base,
            index: Operand::Temporary(number),
            size,
        },
    }
}

fn place_at(states: &[Row], at: usize, operand: Operand) -> Location
    ensures { result ≡ sweep.place_at states.now at operand }
{
    match operand {
        Operand::Temporary(number) => place_by(status_at(states, at, number), number),
        Operand::Cell(number) => Location::At(Operand::Cell(number)),
        Operand::Constant(word) => Location::At(Operand::Constant(word)),
        Operand::Argument(number) => Location::At(Operand::Argument(number)),
    }
}

fn place_of(states: &[Row], at: usize, location: Location) -> Location
    ensures { result ≡ sweep.place_of states.now at location }
{
    match location {
        Location::Statics(offset) => Location::Statics(offset),
        Location::Frame(offset) => Location::Frame(offset),
        Location::At(operand) => place_at(states, at, operand),
        Location::Indexed { base, index, size } => Location::Indexed { base, index, size },
    }
}

/// The instruction; an access through an index that stayed names the element.
fn placed(states: &[Row], at: usize, instruction: Instruction) -> Instruction
    ensures { result ≡ sweep.placed states.now at instruction }
{
    match instruction {
        Instruction::Load {
            width,
            target,
            from,
        } => Instruction::Load {
            width,
            target,
            from: place_of(states, at, from),
        },
        Instruction::Store { width, source, to } => Instruction::Store {
            width,
            source,
            to: place_of(states, at, to),
        },
        _ => instruction,
    }
}

/// Whether the temporary that an instruction writes does not count as the same behind it.
fn is_left_out(states: &[Row], at: usize, instruction: Instruction) -> bool
    requires { at < 2 ^ 62 }
    ensures { result ≡ sweep.is_left_out states.now at instruction }
{
    match written(instruction) {
        Some(number) => !is_same(status_at(states, at + 1, number)),
        None => false,
    }
}

fn swept_one(states: &[Row], at: usize, instruction: Instruction) -> Instruction
    requires { at < 2 ^ 62 }
    ensures { result ≡ sweep.swept_one states.now at instruction }
{
    if is_left_out(states, at, instruction) {
        Instruction::Nothing
    } else {
        placed(states, at, instruction)
    }
}

/// The code, by the statuses before each instruction.
pub fn swept(
    alloc: Global,
    states: &[Row],
    code: &[Instruction],
) -> Result<Vec<Instruction>, AllocError>
    ensures { IfOk result (λ made. made.items ≡ sweep.swept states.now 0 code.now) }
{
    let mut made = Vec::with_capacity(alloc, code.len())?;
    for number in 0..code.len() {
        made.push(swept_one(states, number, code[number]))?;
    }
    Ok(made)
}

/// Whether a temporary may hold an index for an access.
fn fits(room: Room, number: usize, status: Status) -> bool
    ensures { result ≡ sweep.fits room number status }
{
    match status {
        Status::Same => true,
        Status::Dead => true,
        Status::Index { base, size } => {
            is_near(room, base) && is_cheap(room, Operand::Temporary(number), size)
        }
    }
}

/// Whether a temporary may be of this status wherever instruction `at` leads.
fn leads(states: &[Row], at: usize, instruction: Instruction, number: usize, status: Status) -> bool
    requires { at < 2 ^ 62 }
    ensures { result ≡ sweep.leads states.now at instruction number status }
{
    match instruction {
        Instruction::Nothing => accepts(status_at(states, at + 1, number), status),
        Instruction::Move { .. } => accepts(status_at(states, at + 1, number), status),
        Instruction::Compute { .. } => accepts(status_at(states, at + 1, number), status),
        Instruction::Convert { .. } => accepts(status_at(states, at + 1, number), status),
        Instruction::Load { .. } => accepts(status_at(states, at + 1, number), status),
        Instruction::Store { .. } => accepts(status_at(states, at + 1, number), status),
        Instruction::Address { .. } => accepts(status_at(states, at + 1, number), status),
        Instruction::Element { .. } => accepts(status_at(states, at + 1, number), status),
        Instruction::Jump(to) => accepts(status_at(states, to, number), status),
        Instruction::Branch { to, .. } => {
            accepts(status_at(states, at + 1, number), status)
                && accepts(status_at(states, to, number), status)
        }
        Instruction::Call(_) => accepts(status_at(states, at + 1, number), status),
        Instruction::PutByte => accepts(status_at(states, at + 1, number), status),
        Instruction::GetByte => accepts(status_at(states, at + 1, number), status),
        Instruction::Exit => true,
        Instruction::Return => true,
    }
}

fn behind(number: usize, instruction: Instruction, status: Status) -> Status
    ensures { result ≡ sweep.behind_it number instruction status }
{
    if is_written(number, instruction) {
        Status::Same
    } else {
        status
    }
}

/// Whether an instruction that is not left out reads a temporary of this status only where that is the same, and leads on.
fn stays_right(
    gives: bool,
    states: &[Row],
    at: usize,
    instruction: Instruction,
    number: usize,
    status: Status,
) -> bool
    requires { at < 2 ^ 62 }
    ensures { result ≡ sweep.stays_right gives states.now at instruction number status }
{
    (is_same(status) || !reads(gives, status, number, instruction))
        && leads(
            states,
            at,
            instruction,
            number,
            behind(number, instruction, status),
        )
}

/// The element that a reference leads on to from one whose index a temporary holds.
fn on_from(room: Room, number: usize, status: Status, index: Operand, size: usize) -> Known
    ensures { result ≡ sweep.on_from room number status index size }
{
    match status {
        Status::Same => Known::Unknown,
        Status::Dead => Known::Unknown,
        Status::Index { base, size: width } => {
            further(room, base, Operand::Temporary(number), width, index, size)
        }
    }
}

/// The element that an instruction leads a reference on to whose index a temporary holds.
pub fn leads_on(room: Room, number: usize, status: Status, instruction: Instruction) -> Known
    ensures { result ≡ sweep.leads_on room number status instruction }
{
    match instruction {
        Instruction::Nothing => Known::Unknown,
        Instruction::Move { .. } => Known::Unknown,
        Instruction::Compute { .. } => Known::Unknown,
        Instruction::Convert { .. } => Known::Unknown,
        Instruction::Load { .. } => Known::Unknown,
        Instruction::Store { .. } => Known::Unknown,
        Instruction::Address { .. } => Known::Unknown,
        Instruction::Element {
            target,
            array,
            index,
            size,
        } => {
            if is_target(target, array) {
                on_from(room, number, status, index, size)
            } else {
                Known::Unknown
            }
        }
        Instruction::Jump(_) => Known::Unknown,
        Instruction::Branch { .. } => Known::Unknown,
        Instruction::Call(_) => Known::Unknown,
        Instruction::PutByte => Known::Unknown,
        Instruction::GetByte => Known::Unknown,
        Instruction::Exit => Known::Unknown,
        Instruction::Return => Known::Unknown,
    }
}

/// Whether the temporary that is written is dead, or is the index of the element that is offered, or holds one whose reference leads on.
fn is_given_up(next: Status, status: Status, offered: Known, on: Known) -> bool
    ensures { result ≡ sweep.is_given_up next status offered on }
{
    match next {
        Status::Dead => true,
        Status::Same => false,
        Status::Index { base, size } => {
            is_same(status) && accepts(Status::Index { base, size }, index_of(offered))
                || accepts(Status::Index { base, size }, index_of(on))
        }
    }
}

fn drop_right(
    room: Room,
    states: &[Row],
    at: usize,
    offered: Known,
    instruction: Instruction,
    number: usize,
) -> bool
    requires { at < 2 ^ 62 }
    ensures { result ≡ sweep.drop_right room states.now at offered instruction number }
{
    let status = status_at(states, at, number);
    let next = status_at(states, at + 1, number);
    if is_written(number, instruction) {
        is_given_up(
            next,
            status,
            offered,
            leads_on(room, number, status, instruction),
        )
    } else {
        accepts(next, status)
    }
}

/// Whether the status of a temporary before an instruction is right.
fn is_right(
    room: Room,
    states: &[Row],
    at: usize,
    offered: Known,
    instruction: Instruction,
    number: usize,
) -> bool
    requires { at < 2 ^ 62 }
    ensures { result ≡ sweep.is_right room states.now at offered instruction number }
{
    let status = status_at(states, at, number);
    fits(room, number, status)
        && if is_left_out(states, at, instruction) {
            drop_right(room, states, at, offered, instruction, number)
        } else {
            stays_right(room.gives, states, at, instruction, number, status)
        }
}

/// Whether the temporaries of this mask, which are dead before an instruction, stay dead or are written.
fn masks_right(gives: bool, states: &[Row], at: usize, instruction: Instruction, mask: u8) -> bool
    requires { at < 2 ^ 62 }
    ensures { result ≡ sweep.masks_right gives states.now at instruction mask }
{
    if is_left_out(states, at, instruction) {
        is_within(mask, mask_at(states, at + 1), written(instruction))
    } else {
        !reads_dead(gives, mask, instruction) && dead_leads(states, at, instruction, mask)
    }
}

/// Whether the temporaries that are dead before an instruction may be so, as far as no index is held.
fn dead_right(gives: bool, states: &[Row], at: usize, instruction: Instruction) -> bool
    requires { at < 2 ^ 62 }
    ensures { result ≡ sweep.dead_right gives states.now at instruction }
{
    let mask = mask_at(states, at);
    mask == 0 || masks_right(gives, states, at, instruction, mask)
}

fn held_right(
    room: Room,
    states: &[Row],
    at: usize,
    offered: Known,
    instruction: Instruction,
    held: Held,
) -> bool
    requires { at < 2 ^ 62 }
    ensures { result ≡ sweep.held_right room states.now at offered instruction held }
{
    match held {
        Held::Nothing => true,
        Held::Index { number, .. } => is_right(room, states, at, offered, instruction, number),
    }
}

/// Whether the temporaries that hold an index before instruction `place` are right at instruction `at`.
fn row_right(
    room: Room,
    states: &[Row],
    at: usize,
    offered: Known,
    instruction: Instruction,
    place: usize,
) -> bool
    requires { at < 2 ^ 62 }
    ensures { result ≡ sweep.row_right room states.now at offered instruction place }
{
    if 0 < place && place < states.len() {
        held_right(room, states, at, offered, instruction, states[place].first)
            && held_right(room, states, at, offered, instruction, states[place].second)
    } else {
        true
    }
}

/// Whether the temporaries that hold an index where an instruction jumps to are right.
fn jump_right(
    room: Room,
    states: &[Row],
    at: usize,
    offered: Known,
    instruction: Instruction,
) -> bool
    requires { at < 2 ^ 62 }
    ensures { result ≡ sweep.jump_right room states.now at offered instruction (passes.jump_of instruction) }
{
    match instruction {
        Instruction::Jump(to) => row_right(room, states, at, offered, instruction, to),
        Instruction::Branch { to, .. } => row_right(room, states, at, offered, instruction, to),
        _ => true,
    }
}

/// Whether all statuses before an instruction are right.
fn all_right(
    room: Room,
    states: &[Row],
    at: usize,
    offered: Known,
    instruction: Instruction,
) -> bool
    requires { at < 2 ^ 62 }
    ensures { result ≡ sweep.all_right room states.now at offered instruction }
{
    dead_right(room.gives, states, at, instruction)
        && row_right(room, states, at, offered, instruction, at)
        && row_right(room, states, at, offered, instruction, at + 1)
        && jump_right(room, states, at, offered, instruction)
}

/// Whether all statuses are right.
pub fn are_right(room: Room, states: &[Row], list: &[Known], code: &[Instruction]) -> bool
    ensures { result ≡ sweep.are_right room states.now list.now 0 code.now }
{
    for number in 0..code.len() {
        if !all_right(room, states, number, offer_at(list, number), code[number]) {
            return false;
        }
    }
    true
}
