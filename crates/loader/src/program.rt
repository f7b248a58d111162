//! A loaded program.

ghost use Rattle.std.proofs.Props.{props};
ghost use Rattle.rv32.specs.Space.{space_of};
ghost use Rattle.loader.specs.Listing.{AreDecoded};

use crate::text_list::TextList;
use rv32::memory::Memory;

/// The result of loading a file: the address of its first instruction, its memory, and its texts.
#[derive(Drop)]
pub struct Loaded {
    pub(crate) entry: u32,
    pub(crate) memory: Memory,
    pub(crate) texts: TextList,
    ghost decoded: { AreDecoded (space_of memory.segments.items) texts } by { Prim.hlevel props },
}

impl Loaded {
    ghost use Rattle.std.specs.Prelude.{◌≡◌};
    ghost use Rattle.rv32.specs.Space.{space_of};
    ghost use Rattle.loader.specs.Listing.{AreDecoded};
    ghost use Rattle.loader.specs.Loading.{loaded_image};

    /// The address of the first instruction.
    pub fn entry(&self) -> u32
        ensures { result ≡ (loaded_image self.now).entry }
    {
        self.entry
    }

    /// The memory, which a machine then owns.
    pub fn into_memory(self) -> Memory
        ensures { space_of result.segments.items ≡ (loaded_image self).space }
    {
        let Loaded {
            entry: _,
            memory,
            texts: _,
        } = self;
        memory
    }

    /// The memory and its texts, which a machine then owns.
    pub fn into_parts(self) -> (Memory, TextList)
        ensures space { space_of result.0.segments.items ≡ (loaded_image self).space }
        ensures decoded { AreDecoded (space_of result.0.segments.items) result.1 }
    {
        let Loaded {
            entry: _,
            memory,
            texts,
        } = self;
        (memory, texts)
    }
}
