//! Whether a three-address program is sound.
#![tactic(auto)]

mod functions;
mod instructions;
mod objects;
mod programs;
mod statics;

pub use programs::is_sound;
