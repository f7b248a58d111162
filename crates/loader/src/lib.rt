//! Reads an ELF32 executable for RISC-V into the memory image that its program headers describe.
#![tactic(auto)]

mod checks;
mod entries;
mod fault;
mod header;
mod loading;
mod program;
mod segments;
mod text_list;
mod texts;

pub use entries::{Entry, Operation};
pub use fault::LoadFault;
pub use loading::load;
pub use program::Loaded;
pub use text_list::TextList;
pub use texts::Text;
