//! Flat code: functions over frames of words and bytes. The crate has its types, and its semantics as a definition.
#![tactic(auto)]

mod code;

pub use code::{
    Base, Conversion, FlatProgram, Function, Instruction, Location, Operand, Operation, Target,
    Width,
};
