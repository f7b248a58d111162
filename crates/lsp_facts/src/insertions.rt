//! Programs with an additional declaration, so that the compiler reports facts about it.

use lsp_program::Unit;
use srcset::{Code, Fault, FileSet};
use std::alloc::{AllocError, Global};

/// A text to insert into a file, and the offset of the byte before which it goes.
#[derive(Drop)]
pub(crate) struct Insertion {
    pub(crate) at: usize,
    pub(crate) bytes: Vec<u8>,
}

/// The files of a program, with these insertions in the one of a name, in the order of their places; `None` where a set does not take one of the files.
pub(crate) fn set_with(
    alloc: Global,
    unit: Unit<'_>,
    file: &str,
    insertions: &[Insertion],
) -> Result<Option<FileSet>, AllocError> {
    let mut set = FileSet::new(alloc);
    for name in unit.names {
        let bytes = unit.set.get(name).unwrap_or_default();
        let bytes = if *name == file {
            bytes_with(alloc, bytes, insertions)?
        } else {
            Vec::from_slice(alloc, bytes)?
        };
        if !is_added(set.add(name, bytes))? {
            return Ok(None);
        }
    }
    Ok(Some(set))
}

/// Whether a set accepted a file; out of memory is reported.
pub(crate) fn is_added(answer: Result<(), Fault>) -> Result<bool, AllocError> {
    match answer {
        Ok(()) => Ok(true),
        Err(fault) => if fault.code == Code::OutOfMemory.number() {
            Err(AllocError)
        } else {
            Ok(false)
        },
    }
}

fn bytes_with(
    alloc: Global,
    bytes: &[u8],
    insertions: &[Insertion],
) -> Result<Vec<u8>, AllocError> {
    let mut out = Vec::new(alloc);
    let mut from = 0;
    for insertion in insertions {
        out.extend_from_slice(bytes.get(from..insertion.at).unwrap_or_default())?;
        out.extend_from_slice(insertion.bytes.as_slice())?;
        from = insertion.at;
    }
    out.extend_from_slice(bytes.get(from..).unwrap_or_default())?;
    Ok(out)
}
