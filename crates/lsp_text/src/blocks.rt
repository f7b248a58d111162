//! How many units precede each block of a text, so that a place in a long line is found as fast as one in a short line.

use crate::units::{Encoding, units_of};
use std::alloc::{AllocError, Global};

/// The bytes of a block.
pub(crate) const BLOCK: usize = 256;

/// How many units precede a place.
#[derive(Clone, Copy)]
pub(crate) struct Counts {
    utf8: u32,
    utf16: u32,
}

impl Counts {
    /// The units of this encoding.
    pub(crate) fn of(self, encoding: Encoding) -> u32 {
        match encoding {
            Encoding::Utf8 => self.utf8,
            Encoding::Utf16 => self.utf16,
        }
    }

    fn behind(self, block: &[u8]) -> Counts {
        Counts {
            utf8: self.utf8.saturating_add(units_of(block, Encoding::Utf8)),
            utf16: self.utf16.saturating_add(units_of(block, Encoding::Utf16)),
        }
    }
}

/// The counts before each block of a text, and before its end.
pub(crate) fn counts_of(alloc: Global, text: &[u8]) -> Result<Vec<Counts>, AllocError> {
    let mut all = Vec::new(alloc);
    let mut counts = Counts { utf8: 0, utf16: 0 };
    for block in text.chunks(BLOCK) {
        all.push(counts)?;
        counts = counts.behind(block);
    }
    all.push(counts)?;
    Ok(all)
}
