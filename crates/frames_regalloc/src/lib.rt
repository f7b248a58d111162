//! Register allocation: renumbers the words of frames by their use counts, so that those used most live in callee-saved registers.
#![tactic(auto)]

mod functions;
mod instructions;
mod laws;
mod swaps;
mod weights;

pub use functions::{renumber, renumber_function, word_numbers};
pub use laws::{calls_alike, costs_alike, frames_alike, runs_alike, stays_sound};
pub use weights::word_weights;
