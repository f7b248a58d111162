//! A RISC-V hart with RV32I and the extension M: its instructions and their words, registers, memory, and one step.
//!
//! The public source is The RISC-V Instruction Set Manual, Volume I: Unprivileged ISA, called "the
//! unprivileged ISA manual" below.
#![tactic(auto)]

pub mod alu;
mod decoding;
mod encoding;
mod fields;
pub mod instr;
pub mod laws;
pub mod memory;
pub mod state;

pub use decoding::decode;
pub use encoding::encode;
pub use instr::{
    BranchOffset, Five, ImmediateOp, Instr, JumpOffset, LoadKind, RegisterOp, ShiftOp, Short,
    StoreKind, Test, Upper,
};
pub use memory::{Memory, Segment, is_laid_out};
pub use state::{Cause, State, StepResult, step};
