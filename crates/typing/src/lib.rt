//! The typed program of a translation unit (ISO/IEC 9899:2011 6.9).
#![tactic(auto)]

mod bodies;
mod checking;
mod copies;
mod externals;
mod functions;
mod heads;
mod parameter_names;

pub use checking::check;
