//! Three-address code: functions over numbered temporaries and over the objects of the abstract machine. Today its types, its semantics as a definition, the
//! relation of simulating a program, and laws of its runs.
#![tactic(auto)]

mod code;
mod laws;

pub use code::{
    Comparison, Function, Instruction, Operand, Operation, Parameter, Place, Reading, TacProgram,
    Target,
};
pub use laws::{calls_are_active, run_grows, weights_are_seen};
