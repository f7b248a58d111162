//! The files of a call, or why they are no set.

ghost use Rattle.std.specs.Prelude.{MatchResult};
ghost use Rattle.zikorape.specs.Got.{Buffer, HandsOut};
ghost use Rattle.zikorape.specs.Given.{AreGiven};
ghost use Rattle.zikorape.specs.Answered.{FilesGiven, NoSet};
ghost use Rattle.zikorape.specs.inside.Refusing.{IsRefusal};

use crate::files::{FileLengths, file_set, fits};
use crate::giving::{Sizes, hand_fault, hand_out};
use srcset::{Fault, FileSet};
use std::alloc::Global;

/// The status where the lengths of the files do not add up to those of their texts.
pub const NO_FILES: u32 = 256;

/// Why a caller's files are no set of files.
#[derive(Drop)]
pub enum Refusal {
    /// The lengths do not add up to those of the texts.
    Lengths,
    /// A file is refused.
    Told(Fault),
}

/// The set of files that a caller gives.
pub fn given(alloc: Global, texts: &[u8], files: &[FileLengths]) -> Result<FileSet, Refusal>
    ensures { MatchResult result (AreGiven texts.now files.now) (IsRefusal texts.now files.now) }
{
    if !fits(texts, files) {
        return Err(Refusal::Lengths);
    }
    match file_set(alloc, texts, files) {
        Ok(set) => Ok(set),
        Err(fault) => Err(Refusal::Told(fault)),
    }
}

/// Reports why there is no set, and returns the status.
pub fn refuse(
    alloc: Global,
    refusal: &Refusal,
    out: &mut [u8],
    message: &mut [u8],
    sizes: &mut Sizes,
) -> u32
    ensures { (given : FilesGiven) → IsRefusal given.texts given.lengths refusal.now → HandsOut (NoSet given result)
        (record { before = out.old; after = out.new; told = sizes.new.output })
        (record { before = message.old; after = message.new; told = sizes.new.message }) }
{
    match refusal {
        Refusal::Lengths => {
            hand_out(b"", b"", out, message, sizes);
            NO_FILES
        }
        Refusal::Told(fault) => {
            hand_fault(alloc, fault, out, message, sizes);
            1
        }
    }
}
