//! The analysis that the second pass goes by. No contract depends on what it finds: a check accepts that, or all temporaries count as the same.

ghost use Rattle.std.specs.Prelude.{◌≡◌, true, IfOk};
ghost use Rattle.frames_opt.specs.inside.Sweep as sweep;

use crate::elements::offer_at;
use crate::facts::Known;
use crate::liveness::{dead_at, is_written, mask_of, masks_of, reads};
use crate::marks::is_marked;
use crate::room::Room;
use crate::rows::{Held, Row};
use crate::statuses::{Status, index_of, is_same};
use crate::sweep::{are_right, leads_on, swept};
use frames_code::{Instruction, Location, Operand, Target};
use std::alloc::{AllocError, Global};

/// How far the accesses through an index are looked for.
const WINDOW: usize = 64;

fn is_temporary(operand: Operand, number: usize) -> bool {
    match operand {
        Operand::Temporary(other) => other == number,
        Operand::Cell(_) => false,
        Operand::Constant(_) => false,
        Operand::Argument(_) => false,
    }
}

fn is_at(location: Location, number: usize) -> bool {
    match location {
        Location::Statics(_) => false,
        Location::Frame(_) => false,
        Location::At(operand) => is_temporary(operand, number),
        Location::Indexed { .. } => false,
    }
}

/// Whether an instruction reads a temporary only as the reference of its access.
fn is_access(instruction: Instruction, number: usize) -> bool {
    match instruction {
        Instruction::Load { from, .. } => is_at(from, number),
        Instruction::Store { source, to, .. } => {
            is_at(to, number) && !is_temporary(source, number)
        }
        _ => false,
    }
}

/// Whether a temporary may be an index behind an instruction, as far as jumps go.
fn goes_on(masks: &[u8], instruction: Instruction, number: usize) -> bool {
    match instruction {
        Instruction::Jump(_) => false,
        Instruction::Branch { to, .. } => dead_at(masks, to, number),
        Instruction::Call(_) => false,
        Instruction::PutByte => false,
        Instruction::GetByte => false,
        Instruction::Exit => false,
        Instruction::Return => false,
        _ => true,
    }
}

/// Whether an instruction only leads a reference on by a constant number of elements.
fn only_leads_on(instruction: Instruction, number: usize) -> bool {
    match instruction {
        Instruction::Element {
            target: Target::Temporary(target),
            array,
            index: Operand::Constant(_),
            ..
        } => target == number && is_temporary(array, number),
        _ => false,
    }
}

/// Up to where a temporary may hold an index from instruction `first` on, if one access goes through it; `None` where the reference has to stay.
fn end_of(
    marks: &[bool],
    masks: &[u8],
    code: &[Instruction],
    first: usize,
    number: usize,
) -> Option<usize> {
    let mut is_read = false;
    for more in 0..WINDOW {
        let place = first.saturating_add(more);
        let Some(instruction) = code.get(place) else {
            return None;
        };
        if dead_at(masks, place, number) {
            return Some(place);
        }
        let is_through = is_access(*instruction, number);
        let is_on = only_leads_on(*instruction, number);
        let is_wrong = reads(true, Status::Same, number, *instruction) && (is_read || !is_through);
        if is_wrong && !is_on || is_marked(marks, place) || !goes_on(masks, *instruction, number) {
            return None;
        }
        is_read = is_read || is_through;
        if is_written(number, *instruction) && !is_on {
            return Some(place.saturating_add(1));
        }
    }
    None
}

/// Whether a row has room for one more index.
fn has_room(states: &[Row], place: usize) -> bool {
    if place < states.len() {
        match states[place].second {
            Held::Nothing => true,
            Held::Index { .. } => false,
        }
    } else {
        false
    }
}

fn held_of(number: usize, status: Status) -> Held {
    match status {
        Status::Same => Held::Nothing,
        Status::Dead => Held::Nothing,
        Status::Index { base, size } => Held::Index { number, base, size },
    }
}

fn put_held(states: &mut [Row], place: usize, held: Held) {
    if place < states.len() {
        match states[place].first {
            Held::Nothing => states[place].first = held,
            Held::Index { .. } => states[place].second = held,
        }
    }
}

/// The status of a temporary behind an instruction where it holds an index; the same where its element is out of reach.
fn status_behind(room: Room, number: usize, status: Status, instruction: Instruction) -> Status {
    if only_leads_on(instruction, number) {
        index_of(leads_on(room, number, status, instruction))
    } else {
        status
    }
}

/// Whether a temporary may hold an index from instruction `first` up to `end`: all elements are within reach, and each row has room.
fn may_stay(
    states: &[Row],
    room: Room,
    code: &[Instruction],
    first: usize,
    end: usize,
    kept: (usize, Status),
) -> bool {
    let (number, mut status) = kept;
    for place in first..end {
        if let Some(instruction) = code.get(place) {
            status = status_behind(room, number, status, *instruction);
        }
        if is_same(status) || !has_room(states, place) {
            return false;
        }
    }
    true
}

/// Gives a temporary its status before each instruction from `first` up to `end`.
fn put_from(
    states: &mut [Row],
    room: Room,
    code: &[Instruction],
    first: usize,
    end: usize,
    kept: (usize, Status),
) {
    let (number, mut status) = kept;
    for place in first..end {
        put_held(states, place, held_of(number, status));
        if let Some(instruction) = code.get(place) {
            status = status_behind(room, number, status, *instruction);
        }
    }
}

/// The temporary that keeps the index of an element that is offered, and its status.
fn kept_of(offered: Known) -> Option<(usize, Status)> {
    match offered {
        Known::Indexed {
            base,
            index: Operand::Temporary(number),
            size,
        } => Some((number, Status::Index { base, size })),
        _ => None,
    }
}

/// Lets the indices stay that may. Returns whether there are any.
fn put_indices(
    states: &mut [Row],
    room: Room,
    marks: &[bool],
    masks: &[u8],
    list: &[Known],
    code: &[Instruction],
) -> bool {
    let mut any = false;
    for number in 0..code.len() {
        if let Some(kept) = kept_of(offer_at(list, number)) {
            let first = number + 1;
            if let Some(end) = end_of(marks, masks, code, first, kept.0) {
                if may_stay(states, room, code, first, end, kept) {
                    put_from(states, room, code, first, end, kept);
                    any = true;
                }
            }
        }
    }
    any
}

/// Gives each row the dead temporaries.
fn put_dead(states: &mut [Row], masks: &[u8]) {
    for place in 0..states.len() {
        states[place].dead = mask_of(masks, place);
    }
}

/// All temporaries are the same.
fn all_same(alloc: Global, count: usize) -> Result<Vec<Row>, AllocError> {
    let row = Row {
        dead: 0,
        first: Held::Nothing,
        second: Held::Nothing,
    };
    let mut states = Vec::with_capacity(alloc, count)?;
    states.resize(count, row)?;
    Ok(states)
}

/// The statuses that the analysis finds.
fn found(
    alloc: Global,
    room: Room,
    marks: &[bool],
    list: &[Known],
    code: &[Instruction],
) -> Result<Vec<Row>, AllocError> {
    let masks = masks_of(alloc, room.gives, code)?;
    let mut states = all_same(alloc, code.len())?;
    if put_indices(&mut states, room, marks, &masks, list, code) {
        let shorter = swept(alloc, &states, code)?;
        let later = masks_of(alloc, room.gives, &shorter)?;
        put_dead(&mut states, &later);
    } else {
        put_dead(&mut states, &masks);
    }
    Ok(states)
}

/// The statuses before each instruction; where the analysis was wrong, all temporaries are the same.
pub fn states_of(
    alloc: Global,
    room: Room,
    marks: &[bool],
    list: &[Known],
    code: &[Instruction],
) -> Result<Vec<Row>, AllocError>
    ensures { IfOk result (λ states. sweep.are_right room states.items list.now 0 code.now ≡ true) }
{
    let states = found(alloc, room, marks, list, code)?;
    if are_right(room, &states, list, code) {
        Ok(states)
    } else {
        Ok(Vec::new(alloc))
    }
}
