//! The names of the objects of a program, which its typed form has by number.
#![tactic(auto)]

mod declarations;
mod declarators;
mod designations;
mod names_of;
mod naming;

pub use designations::{Designation, shown_name};
pub use names_of::names_of_set;
pub use naming::{FunctionNames, ObjectName, ProgramNames, program_names};
