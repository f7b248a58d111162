//! The facts that the types of bytes and of a stack's size give of them.

ghost use Rattle.memory_map.specs.MemoryMap.{IsStackSize};
ghost use Rattle.tac_code.specs.Sound.{AreBytes};

use elf_out::StackSize;

/// Each of them is below 2^8.
pub fn are_bytes(bytes: &[u8])
    ensures { AreBytes bytes.now }
{}

/// It is a multiple of 4,096, from 4,096 to 16,777,216.
pub fn is_stack_size(stack: StackSize)
    ensures { IsStackSize stack }
{
    let _ = stack.get();
}
