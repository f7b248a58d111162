//! Errors inside the compiler, which name no file and allocate nothing.
ghost use Rattle.std.specs.Prelude.{◌≡◌};
ghost use Rattle.srcset.specs.declared.refusal.Refusal.TheVariants.{Memory};
ghost use Rattle.srcset.specs.Refusal.{IsFaultOfRefusal};

use crate::code::Code;
use crate::fault::Fault;
use crate::names::Names;
use std::alloc::{AllocError, AllocFailed, Global};

/// A place in the sources.
#[derive(Clone, Copy, Debug, PartialEq, Eq)]
pub struct Pos {
    /// A number of `Names`, whose text is the name of the file.
    pub file: usize,
    /// The line, counted from 1.
    pub line: u32,
}

/// The error of an inner step. The public function converts it to a `Fault`, once.
#[derive(Clone, Copy, Debug, PartialEq, Eq)]
pub enum Refusal {
    /// Memory ran out.
    Memory,
    /// The fault with this code is reported here.
    At {
        /// The kind of error.
        code: Code,
        /// The place of the fault.
        pos: Pos,
    },
    /// The same, and the fault adds a text to that of its code.
    Told {
        /// The kind of error.
        code: Code,
        /// The place of the fault.
        pos: Pos,
        /// A number of `Names`, whose text is added.
        text: usize,
    },
}

impl From<AllocError> for Refusal {
    ghost from_gives = { λ _ refusal. refusal ≡ Memory };

    fn from(_error: AllocError) -> Refusal {
        Refusal::Memory
    }
}

impl<T: Drop> From<AllocFailed<T>> for Refusal {
    ghost from_gives = { λ _ refusal. refusal ≡ Memory };

    fn from(_error: AllocFailed<T>) -> Refusal {
        Refusal::Memory
    }
}

impl Refusal {
    /// The fault that this error corresponds to.
    ///
    /// Its file is the text that `names` has for the number of the place's file, or empty where there
    /// is none or it is not UTF-8; the text that it adds likewise. It is 801 for `Memory`, and where a copy
    /// of these texts runs out of memory.
    pub fn to_fault(self, alloc: Global, names: &Names) -> Fault
        ensures { IsFaultOfRefusal result names.now self }
    {
        match self {
            Refusal::Memory => Fault::memory(alloc),
            Refusal::At { code, pos } => {
                let file = names.file_name(pos.file);
                Fault::at(alloc, code, file, pos.line)
            }
            Refusal::Told { code, pos, text } => {
                let name = names.file_name(pos.file);
                Fault::with_text(alloc, code, name, pos.line, names.shown_text(text))
            }
        }
    }
}
