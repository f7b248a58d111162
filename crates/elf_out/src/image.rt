//! A program's text and data, and its stack.

ghost use Rattle.std.specs.Prelude.{◌≡◌, ◌≤◌, ◌+◌, ◌↔◌, IsSome, IfSome, vec_len, length};
ghost use Rattle.memory_map.specs.MemoryMap.{max_image};

use crate::stack_size::StackSize;
use memory_map::MAX_IMAGE;
use std::marker::Model;

/// The text and the data of a program, both segments whole, together at most 117,440,512 bytes; and how many bytes its stack has.
#[derive(Drop)]
pub struct Image {
    text: Vec<u8>,
    statics: Vec<u8>,
    stack: StackSize,
}

impl Model for Image {
    ghost use Rattle.std.specs.Prelude.{◌≤◌, ◌+◌, vec_len};
    ghost use Rattle.memory_map.specs.MemoryMap.{max_image};
    ghost use Rattle.elf_out.specs.Layout.{Parts};

    ghost Value = { Parts };

    ghost view = { λ i. record { text = i.text.items; statics = i.statics.items; stack = i.stack } };

    ghost invariant = { λ i. vec_len i.text + vec_len i.statics ≤ max_image };
}

impl Image {
    /// The most bytes that both have together: with the largest stack, of 16,777,216, no more than a program may take.
    pub const MAX_BYTES: usize = MAX_IMAGE;

    /// The image of both, with this stack, or `None` where they have more than `MAX_BYTES` bytes.
    pub fn new(text: Vec<u8>, statics: Vec<u8>, stack: StackSize) -> Option<Image>
        ensures some { IsSome result ↔ (vec_len text + vec_len statics ≤ max_image) }
        ensures value { IfSome result (λ image. image ≡ record { text = text.items; statics = statics.items; stack = stack }) }
    {
        if text.len() + statics.len() <= Image::MAX_BYTES {
            Some(Image {
                text,
                statics,
                stack,
            })
        } else {
            None
        }
    }

    /// The instructions, the first of which is the program's first.
    pub fn text(&self) -> &[u8]
        ensures value { result.now ≡ self.now.text }
        ensures fits { length self.now.text + length self.now.statics ≤ max_image }
    {
        self.text.as_slice()
    }

    /// The bytes of the data segment.
    pub fn statics(&self) -> &[u8]
        ensures value { result.now ≡ self.now.statics }
        ensures fits { length self.now.text + length self.now.statics ≤ max_image }
    {
        self.statics.as_slice()
    }

    /// The bytes of the stack.
    pub fn stack(&self) -> StackSize
        ensures { result ≡ self.now.stack }
    {
        self.stack
    }
}
