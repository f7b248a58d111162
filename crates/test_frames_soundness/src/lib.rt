//! Whether a flat program is sound.
#![tactic(auto)]

mod functions;
mod instructions;

pub use functions::is_sound;
