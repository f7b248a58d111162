//! Rules on whole translation units (ISO/IEC 9899:2011 6.9): sizes and weights, the limits of a program, uses and
//! definitions, `main`, first values, the typed program.
#![tactic(auto)]

mod definitions;
mod entries;
mod first_values;
mod functions;
mod limits;
mod literals;
mod programs;
mod sizes;
mod statement_uses;
mod uses;
mod value_uses;
mod weights;

pub use definitions::definitions_in;
pub use entries::main_from;
pub use first_values::{Initial, statics_of};
pub use functions::{all_named, function_of, numbers_in};
pub use limits::{bytes_of_statics, static_bytes, within_limits};
pub use literals::{bytes_of_literals, literals_of};
pub use programs::{program_of, unit_program, whole_program};
pub use sizes::{bytes_of_objects, bytes_of_references, in_words};
pub use uses::all_defined;
pub use weights::{weight, within_weight};
