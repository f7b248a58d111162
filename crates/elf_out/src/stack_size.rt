//! How many bytes the stack of a program has.

ghost use Rattle.std.specs.Prelude.{◌≡◌, ◌≤◌, ◌%◌, ◌↔◌, IsSome, IfSome};
ghost use Rattle.memory_map.specs.MemoryMap.{IsStackSize, usual_stack};

use memory_map::{MAX_STACK, PAGE, USUAL_STACK};
use std::marker::Model;

/// How many bytes the stack of a program has: a multiple of 4,096, from 4,096 to 16,777,216.
#[derive(Clone, Copy, PartialEq, Eq, Debug)]
pub struct StackSize {
    bytes: u32,
}

impl Model for StackSize {
    ghost use Rattle.std.specs.Prelude.{ℕ};
    ghost use Rattle.memory_map.specs.MemoryMap.{IsStackSize};

    ghost Value = { ℕ };

    ghost view = { λ s. s.bytes };

    ghost invariant = { λ s. IsStackSize s.bytes };

    ghost inverse = { λ n. record { bytes = n } };
}

impl StackSize {
    /// The stack of this number of bytes, or `None` where that is no multiple of 4,096 from 4,096 to 16,777,216.
    pub fn new(bytes: u32) -> Option<StackSize>
        ensures some { IsSome result ↔ IsStackSize bytes }
        ensures value { IfSome result (λ size. size ≡ bytes) }
    {
        if bytes % PAGE == 0 && PAGE <= bytes && bytes <= MAX_STACK {
            Some(StackSize { bytes })
        } else {
            None
        }
    }

    /// The default stack of a program: 1,048,576 bytes.
    pub fn usual() -> StackSize
        ensures { result ≡ usual_stack }
    {
        StackSize { bytes: USUAL_STACK }
    }

    /// Its bytes.
    pub fn get(self) -> u32
        ensures value { result ≡ self }
        ensures whole { self % 4096 ≡ 0 }
        ensures least { 4096 ≤ self }
        ensures most { self ≤ 16777216 }
    {
        self.bytes
    }
}
