//! The machine at its ports: runs a loaded program over an input and an output.
#![tactic(auto)]

mod accesses;
mod decoded;
mod environment;
mod laws;
mod machine;
mod moves;
mod places;
mod registers;
mod runs;
mod stretches;
mod tick;

pub use environment::environment_call;
pub use laws::{
    ends_of_input_go_on, gets_go_on, puts_go_on, refusals_change_nothing, runs_compose, runs_go_on,
    runs_stop, ticks_are_steps,
};
pub use machine::{Machine, Outcome};
