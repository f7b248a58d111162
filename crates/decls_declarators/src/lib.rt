//! Declarators: the types that they declare (ISO/IEC 9899:2011 6.7.6).
#![tactic(auto)]

mod literals;
mod objects;
mod parameter_lists;
mod parameter_objects;
mod sizes;

pub use literals::past;
pub use objects::declared_type;
pub use parameter_lists::{Entered, behind_parameters, function_type, parameters_in};
pub use sizes::{Sizes, sizes_in};
