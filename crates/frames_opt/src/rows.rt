//! What is kept of the statuses of the temporaries before each instruction.

ghost use Rattle.std.specs.Prelude.{◌≡◌};
ghost use Rattle.frames_opt.specs.inside.Sweep as sweep;

use crate::liveness::is_dead;
use crate::statuses::Status;
use frames_code::Base;

/// A temporary that holds the number of an element, in place of the reference to it.
#[derive(Clone, Copy, Debug)]
pub enum Held {
    Nothing,
    Index {
        number: usize,
        base: Base,
        size: usize,
    },
}

/// The statuses of the first eight temporaries, which live in registers: those that are dead, by a mask, and up to two that hold an index.
#[derive(Clone, Copy, Debug)]
pub struct Row {
    pub dead: u8,
    pub first: Held,
    pub second: Held,
}

fn or_held(held: Held, number: usize, status: Status) -> Status
    ensures { result ≡ sweep.or_held held number status }
{
    match held {
        Held::Nothing => status,
        Held::Index {
            number: other,
            base,
            size,
        } => {
            if other == number {
                Status::Index { base, size }
            } else {
                status
            }
        }
    }
}

fn status_of(row: &Row, number: usize) -> Status
    ensures { result ≡ sweep.status_of row.now number }
{
    if is_dead(row.dead, number) {
        Status::Dead
    } else {
        or_held(row.first, number, or_held(row.second, number, Status::Same))
    }
}

/// The status of a temporary before instruction `at`.
pub fn status_at(states: &[Row], at: usize, number: usize) -> Status
    ensures { result ≡ sweep.status_at states.now at number }
{
    if 0 < at && at < states.len() && number < 8 {
        status_of(&states[at], number)
    } else {
        Status::Same
    }
}

/// The temporaries that are dead before instruction `at`.
pub fn mask_at(states: &[Row], at: usize) -> u8
    ensures { result ≡ sweep.mask_at states.now at }
{
    if 0 < at && at < states.len() {
        states[at].dead
    } else {
        0
    }
}
