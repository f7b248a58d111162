//! Writes a program as an ELF32 executable for RISC-V.
#![tactic(auto)]

mod image;
mod laws;
mod stack_size;
mod writer;

pub use image::Image;
pub use laws::written_is_read;
pub use stack_size::StackSize;
pub use writer::write_elf;

#[cfg(test)]
mod tests;
