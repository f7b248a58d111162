//! Which constants are hoisted: those by which most instructions are saved in loops. No contract depends on it.

use crate::gains::{Gain, gains_of};
use crate::loops::{depths_of, jump_of};
use crate::tests::{is_nothing, is_straight};
use frames_code::Instruction;
use std::alloc::{AllocError, Global};

/// How many constants are looked at in a function.
const CANDIDATES: usize = 32;

/// What an instruction within so many loops counts.
fn weight_of(depth: u32) -> u64 {
    match depth {
        0 => 0,
        1 => 10,
        2 => 100,
        3 => 1000,
        _ => 10000,
    }
}

/// Adds what is saved to the constant's sum; a constant past the last place is left out.
fn note(sums: &mut Vec<Gain>, gain: Gain, weight: u64) -> Result<(), AllocError> {
    let more = gain.saved.saturating_mul(weight);
    if more == 0 {
        return Ok(());
    }
    for number in 0..sums.len() {
        if sums[number].value == gain.value {
            let saved = sums[number].saved.saturating_add(more);
            sums[number] = Gain {
                value: gain.value,
                saved,
            };
            return Ok(());
        }
    }
    if sums.len() < CANDIDATES {
        sums.extend_from_slice(&[Gain {
            value: gain.value,
            saved: more,
        }])?;
    }
    Ok(())
}

/// The constants of loops, each with what it saves.
fn sums_of(alloc: Global, code: &[Instruction]) -> Result<Vec<Gain>, AllocError> {
    let depths = depths_of(alloc, code)?;
    let mut sums = Vec::new(alloc);
    for number in 0..code.len() {
        if number < depths.len() && depths[number] > 0 {
            let weight = weight_of(depths[number]);
            let (first, second) = gains_of(code[number]);
            note(&mut sums, first, weight)?;
            note(&mut sums, second, weight)?;
        }
    }
    Ok(sums)
}

/// The number of the greatest gain that is not nothing.
fn best_of(sums: &[Gain]) -> Option<usize> {
    let mut best = None;
    let mut most = 0;
    for number in 0..sums.len() {
        if sums[number].saved > most {
            most = sums[number].saved;
            best = Some(number);
        }
    }
    best
}

/// At most so many constants, the best ones first.
pub fn pool_of(alloc: Global, code: &[Instruction], most: usize) -> Result<Vec<u32>, AllocError> {
    let mut pool = Vec::new(alloc);
    let mut sums = sums_of(alloc, code)?;
    for _ in 0..most {
        let Some(number) = best_of(&sums) else {
            return Ok(pool);
        };
        if number < sums.len() {
            let value = sums[number].value;
            sums[number] = Gain { value, saved: 0 };
            pool.push(value)?;
        } else {
            return Ok(pool);
        }
    }
    Ok(pool)
}

/// How many instructions at the beginning are straight, with no jump to any of them.
pub fn start_of(code: &[Instruction]) -> usize {
    let mut start = code.len();
    for number in 0..code.len() {
        if let Some(to) = jump_of(code[number]) {
            if to < start {
                start = to;
            }
        }
        if !is_straight(code[number]) && number < start {
            start = number;
        }
    }
    start
}

/// How many of the first instructions do nothing, of which `most` are enough.
pub fn places_in(start: usize, most: usize, code: &[Instruction]) -> usize {
    let mut count = 0;
    for number in 0..code.len() {
        if number < start && count < most && is_nothing(code[number]) {
            count += 1;
        }
    }
    count
}

/// Whether a jump leads back.
pub fn has_loop(code: &[Instruction]) -> bool {
    for number in 0..code.len() {
        if let Some(to) = jump_of(code[number]) {
            if to <= number {
                return true;
            }
        }
    }
    false
}
