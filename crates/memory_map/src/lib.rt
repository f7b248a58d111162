//! The layout of a program's parts in memory and in its file: `elf_out` writes it, `cc` builds it and `load` admits it.
#![tactic(auto)]

ghost use Rattle.std.specs.Prelude.{◌≡◌, ◌≤◌};
ghost use Rattle.memory_map.specs.MemoryMap as map;

/// The address of the text, whose first instruction is the program's first.
pub const TEXT_START: u32 = 0x1_1000;

/// Where the text begins in the file.
pub const TEXT_OFFSET: u32 = 0x1000;

/// How far an address of text or data lies above its offset in the file.
pub const OFFSET_TO_ADDRESS: u32 = 0x1_0000;

/// How many zero bytes the data segment begins with, so that no object has the segment's address.
pub const DATA_GUARD: usize = 16;

/// The first address past the stack.
pub const STACK_END: u32 = 0x8000_0000;

/// The number of bytes of the stack where no other size is requested.
pub const USUAL_STACK: u32 = 0x10_0000;

/// The most bytes that a stack may have.
pub const MAX_STACK: u32 = 16_777_216;

/// A page, to which the segments are aligned.
pub const PAGE: u32 = 4096;

/// The most bytes of memory that the segments of a file take together.
pub const MAX_MEMORY: usize = 134_217_728;

/// The most bytes that the text and the data of a program have together: the bytes that the largest stack, of 16 MiB, leaves.
pub const MAX_IMAGE: usize = 117_440_512;

/// The address of the data after a text of this size: the first multiple of a page not below the text's end.
pub fn data_start(text_size: u32) -> u32
    requires { text_size ≤ map.max_image }
    ensures { result ≡ map.data_start text_size }
{
    (TEXT_START + text_size + (PAGE - 1)) / PAGE * PAGE
}
