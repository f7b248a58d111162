//! The compiler, from source files to an executable file.
#![tactic(auto)]

mod compiling;
mod front;
mod listing;
mod mapping;
mod performing;
mod reading;
mod reporting;
mod stopping;
mod token_stream;
mod transfer;
mod writing;

pub use cabs::{Observer, Unobserved};
pub use cc_backend::{
    CodeMap, CodeRow, DataObject, FunctionCode, FunctionHomes, ObjectHome, Reference, ScopeCode,
};
pub use compiling::{Built, compile, compile_checked, compile_with};
pub use elf_out::StackSize;
pub use listing::{Listed, compile_listed, write_listing};
pub use mapping::{Mapped, checked_program, map_of};
pub use performing::{Cmd, interpret_observed, perform};
pub use reading::read_source;
pub use writing::write_out;
