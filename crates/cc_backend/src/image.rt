//! The items of flat code, and their image.

ghost use Rattle.std.specs.Prelude.{◌≡◌, ◌≤◌, ◌+◌, length, IfOk};
ghost use Rattle.memory_map.specs.MemoryMap.{text_start, max_image};
ghost use Rattle.asm.specs.Placed.{IsFewest};
ghost use Rattle.frames_code.specs.Code as flat;
ghost use Rattle.frames_code.specs.Sound.{IsSoundProgram};
ghost use Rattle.cc_backend.specs.FlatImages.{IsImageOf};
ghost use Rattle.select.specs.Program.{program_items};
ghost use Rattle.asm.specs.Layout.{IsLow, AllReach, longest};

use crate::bytes::{are_bytes, is_stack_size};
use crate::flat_code::want_of_memory;
use asm::{Items, assemble};
use elf_out::{Image, StackSize};
use frames_code::FlatProgram;
use memory_map::TEXT_START;
use select::select;
use std::alloc::{AllocError, Global};

/// The items of flat code.
fn flat_items(alloc: Global, program: &FlatProgram) -> Result<Items, AllocError>
    requires { IsSoundProgram (flat.program_of program.now) }
    ensures { IfOk result (λ items. items ≡ program_items (flat.program_of program.now)) }
{
    match select(alloc, program) {
        Ok(items) => Ok(items),
        Err(fault) => Err(want_of_memory(fault)),
    }
}

/// The image of flat code, and the items that its text is assembled from.
#[derive(Drop)]
pub struct Assembled {
    pub image: Image,
    pub items: Items,
}

/// The image of flat code, with its items and a stack of this size.
pub fn code_image(
    alloc: Global,
    program: FlatProgram,
    stack: StackSize,
) -> Result<Assembled, AllocError>
    requires sound { IsSoundProgram (flat.program_of program) }
    requires reaches { AllReach text_start (program_items (flat.program_of program)) }
    requires small { longest (program_items (flat.program_of program)) + length (flat.program_of program).statics ≤ max_image }
    ensures image { IfOk result (λ a. IsImageOf (flat.program_of program) a.image) }
    ensures stack { IfOk result (λ a. a.image.stack ≡ stack) }
    ensures fewest { IfOk result (λ a. IsFewest (program_items (flat.program_of program)) text_start a.image.text) }
    ensures size { IfOk result (λ a. length a.image.text ≤ longest (program_items (flat.program_of program))) }
    ensures items { IfOk result (λ a. a.items ≡ program_items (flat.program_of program)) }
    ensures low { IfOk result (λ a. IsLow text_start a.items) }
{
    let items = flat_items(alloc, &program)?;
    let image = image_of(alloc, &items, program, stack)?;
    Ok(Assembled { image, items })
}

/// The image of flat code with these items.
fn image_of(
    alloc: Global,
    items: &Items,
    program: FlatProgram,
    stack: StackSize,
) -> Result<Image, AllocError>
    requires sound { IsSoundProgram (flat.program_of program) }
    requires items { items.now ≡ program_items (flat.program_of program) }
    requires reaches { AllReach text_start (program_items (flat.program_of program)) }
    requires small { longest (program_items (flat.program_of program)) + length (flat.program_of program).statics ≤ max_image }
    ensures image { IfOk result (IsImageOf (flat.program_of program)) }
    ensures stack { IfOk result (λ image. image.stack ≡ stack) }
    ensures fewest { IfOk result (λ image. IsFewest (program_items (flat.program_of program)) text_start image.text) }
    ensures size { IfOk result (λ image. length image.text ≤ longest (program_items (flat.program_of program))) }
{
    let statics = program.statics;
    drop(program.functions);
    let text = match assemble(alloc, items, TEXT_START) {
        Ok(text) => text,
        Err(fault) => return Err(want_of_memory(fault)),
    };
    are_bytes(text.as_slice());
    are_bytes(statics.as_slice());
    is_stack_size(stack);
    match Image::new(text, statics, stack) {
        Some(image) => Ok(image),
        None => unreachable!(),
    }
}
