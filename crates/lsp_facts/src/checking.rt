//! The typed program of a set of files.

use cc::{StackSize, checked_program};
use srcset::{Code, Fault, FileSet, Names};
use std::alloc::{AllocError, Global};
use typed_ast::{Program, Static};

/// A typed program, with the names to print it with.
#[derive(Drop)]
pub(crate) struct Checked {
    pub(crate) names: Names,
    pub(crate) program: Program,
}

impl Checked {
    /// The object with static storage that has this name; `None` where there is none, or more than one.
    pub(crate) fn only_static(&self, name: &str) -> Option<&Static> {
        let mut found = None;
        for object in &self.program.statics {
            if self.names.shown_text(object.name) == name {
                if found.is_some() {
                    return None;
                }
                found = Some(object);
            }
        }
        found
    }
}

/// The typed program of a set; `None` where the compiler rejects it.
pub(crate) fn check_program(
    alloc: Global,
    set: &FileSet,
    main: &str,
    stack: StackSize,
) -> Result<Option<Checked>, AllocError> {
    let mut names = Names::new(alloc);
    match checked_program(alloc, set, main, &mut names, stack) {
        Ok(program) => Ok(Some(Checked { names, program })),
        Err(fault) => none_of(&fault),
    }
}

/// The facts about files that the compiler rejects: none, but out of memory is reported.
pub(crate) fn none_of<T>(fault: &Fault) -> Result<Option<T>, AllocError> {
    if fault.code == Code::OutOfMemory.number() {
        Err(AllocError)
    } else {
        Ok(None)
    }
}
