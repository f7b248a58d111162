//! The back end: from a typed program to the executable file.
#![tactic(auto)]

mod bytes;
mod describing;
mod flat_code;
mod generating;
mod homes;
mod image;
mod laws;
mod passes;
mod sizes;

pub use describing::{CodeMap, CodeRow, DataObject, FunctionCode, Reference, ScopeCode, code_map};
pub use flat_code::flat_program;
pub use generating::{Generated, Listed, generate, generate_listed, items};
pub use homes::{FunctionHomes, ObjectHome};
pub use laws::{
    code_fits, file_simulates_program, flat_simulates_program, flat_simulates_tac,
    frames_are_weighed, image_calls_keep, image_calls_keep_convention, image_ends, image_goes_on,
    image_main_keeps_convention, image_simulates_flat, laid_out_simulates_flat,
    optimised_simulates_flat, program_is_short, renumbered_simulates_flat, rows_fit,
    simplified_simulates_flat, steps_are_as_meant, tac_simulates_program, units_are_small,
};
pub use passes::{Pass, flat_program_after};
