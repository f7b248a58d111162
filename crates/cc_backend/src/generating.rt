//! From a typed program to the executable file, and to its listing.

ghost use Rattle.std.specs.Prelude.{IfOk};
ghost use Rattle.typed_ast.specs.View.{program_of};
ghost use Rattle.frames_code.specs.Code as flat;
ghost use Rattle.cc_backend.specs.Runs.{RunsAs};
ghost use Rattle.cc_backend.specs.Made.{IsReady, IsFileOf, AreItemsOf, IsListedFileOf};

use crate::flat_code::{flat_program, want_of_memory};
use crate::image::code_image;
use crate::sizes::frame_sizes;
use asm::Items;
use elf_out::{StackSize, write_elf};
use std::alloc::{AllocError, Global};
use typed_ast::Program;

/// An executable file.
#[derive(Drop)]
pub struct Generated {
    /// The ELF32 file.
    pub elf: Vec<u8>,
    /// The bytes of the frame of each function, in the order of their definitions.
    pub frames: Vec<u32>,
}

/// The executable file of a program that breaks no constraint, with a stack of this size; an error also where its size exceeds the machine's memory.
pub fn generate(alloc: Global, program: &Program, stack: StackSize) -> Result<Generated, AllocError>
    requires ready { IsReady (program_of program.now) }
    ensures runs { IfOk result (λ g. RunsAs stack (program_of program.now) g.frames.items g.elf.items) }
    ensures file { IfOk result (λ g. IsFileOf stack (program_of program.now) g.elf.items g.frames.items) }
{
    let code = flat_program(alloc, program)?;
    let frames = frame_sizes(alloc, &code)?;
    let made = code_image(alloc, code, stack)?;
    drop(made.items);
    match write_elf(alloc, &made.image) {
        Ok(elf) => Ok(Generated { elf, frames }),
        Err(fault) => Err(want_of_memory(fault)),
    }
}

/// An executable file, and the items that its text is assembled from.
#[derive(Drop)]
pub struct Listed {
    pub generated: Generated,
    pub items: Items,
}

/// The executable file of a program that breaks no constraint, with its items and a stack of this size; an error also where its size exceeds the machine's memory.
pub fn generate_listed(
    alloc: Global,
    program: &Program,
    stack: StackSize,
) -> Result<Listed, AllocError>
    requires ready { IsReady (program_of program.now) }
    ensures { IfOk result (λ l. IsListedFileOf stack (program_of program.now) l.generated.elf.items l.generated.frames.items l.items) }
{
    let code = flat_program(alloc, program)?;
    let frames = frame_sizes(alloc, &code)?;
    let made = code_image(alloc, code, stack)?;
    match write_elf(alloc, &made.image) {
        Ok(elf) => Ok(Listed {
            generated: Generated { elf, frames },
            items: made.items,
        }),
        Err(fault) => Err(want_of_memory(fault)),
    }
}

/// The items of the file of a program that breaks no constraint, with a stack of this size.
pub fn items(alloc: Global, program: &Program, stack: StackSize) -> Result<Items, AllocError>
    requires ready { IsReady (program_of program.now) }
    ensures items { IfOk result (λ items. AreItemsOf stack (program_of program.now) items) }
{
    let code = flat_program(alloc, program)?;
    match code_image(alloc, code, stack) {
        Ok(made) => Ok(made.items),
        Err(error) => Err(error),
    }
}
