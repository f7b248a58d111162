//! Which words of a leaf function live in temporaries: those used most, in the temporaries behind all that its code names. No contract depends on it.

use frames_code::Function;
use frames_regalloc::word_weights;
use std::alloc::{AllocError, Global};

/// The registers that hold temporaries: a0 to a7.
const REGISTERS: usize = 8;

/// The number of the greatest weight that is not zero.
fn heaviest(weights: &[u64]) -> Option<usize> {
    let mut best = None;
    let mut most = 0;
    for number in 0..weights.len() {
        if weights[number] > most {
            most = weights[number];
            best = Some(number);
        }
    }
    best
}

/// The words that are used most, as many as there are registers from this temporary on.
pub fn chosen(alloc: Global, function: &Function, first: usize) -> Result<Vec<usize>, AllocError> {
    let mut words = Vec::new(alloc);
    let mut weights = word_weights(alloc, function)?;
    for _ in first..REGISTERS {
        let Some(word) = heaviest(&weights) else {
            return Ok(words);
        };
        if word < weights.len() {
            weights[word] = 0;
        }
        words.push(word)?;
    }
    Ok(words)
}
