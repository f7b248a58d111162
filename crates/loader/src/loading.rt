//! From a file to its program.

ghost use Rattle.std.specs.Prelude.{◌≡◌, Ok, MatchResult};
ghost use Rattle.loader.specs.File.{file_image};
ghost use Rattle.loader.specs.Loading.{loaded_image, FailsToLoad};

use crate::checks::read_loads;
use crate::fault::LoadFault;
use crate::header::word;
use crate::program::Loaded;
use crate::segments::segments_of;
use crate::text_list::TextList;
use rv32::memory::Memory;
use std::alloc::Global;

/// The image of an ELF32 executable for RISC-V, or the first fault of the file.
///
/// The whole file is tested for each code in the order 901 to 907. Headers that are not `PT_LOAD`,
/// `p_paddr` and `p_align` are ignored. A segment that takes no memory is nothing, and bytes
/// past a segment's file size are zero. The entry may lie anywhere. All tests come before the first
/// allocation, so `LoadFault::Memory` is returned only for a file that has an image, where an allocation
/// was refused. System V gABI, chapters 4 and 5.
#[tactic(auto, unfolding(crate::specs::File::file_image))]
pub fn load(alloc: Global, bytes: &[u8]) -> Result<Loaded, LoadFault>
    ensures { MatchResult result (λ loaded. file_image bytes.now ≡ Ok (loaded_image loaded)) (FailsToLoad bytes.now) }
{
    match read_loads(bytes) {
        Ok(loads) => match segments_of(alloc, bytes, loads.as_slice()) {
            Ok(segments) => match TextList::of_segments(alloc, segments.as_slice()) {
                Ok(texts) => Ok(Loaded {
                    entry: word(bytes, 24),
                    memory: Memory::new(segments),
                    texts,
                }),
                Err(_) => Err(LoadFault::Memory),
            },
            Err(_) => Err(LoadFault::Memory),
        },
        Err(fault) => Err(fault),
    }
}
