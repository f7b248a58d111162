//! Runs the compiler again on changed sources.

use crate::sources::Sources;
use srcset::{Fault, FileSet};
use std::alloc::{AllocError, Global};

/// Returns the fault for which a program is refused.
pub trait Compiler {
    /// The fault of the program in the file `main` of the set, where it has one. An error: out of memory.
    fn fault_of(
        &self,
        alloc: Global,
        set: &FileSet,
        main: &str,
    ) -> Result<Option<Fault>, AllocError>;
}

/// A program to compile again.
#[derive(Drop)]
pub struct Asking<'a, C> {
    pub sources: &'a Sources,
    /// The name of its main file.
    pub main: &'a str,
    pub compiler: &'a C,
}

/// The compiler's result for sources in which a file has another text.
#[derive(Drop)]
pub enum Answer {
    Accepted,
    Refused(Fault),
    /// A set does not take that text, as one that is too large.
    NotTaken,
}

impl<'a, C: Compiler> Asking<'a, C> {
    /// The result where the file of this number has this text; of the sources as they are, where no file has the number.
    pub fn answer_with(
        &self,
        alloc: Global,
        number: usize,
        text: &[u8],
    ) -> Result<Answer, AllocError> {
        let Some(set) = self.sources.set_with(alloc, number, text)? else {
            return Ok(Answer::NotTaken);
        };
        match self.compiler.fault_of(alloc, &set, self.main)? {
            Some(fault) => Ok(Answer::Refused(fault)),
            None => Ok(Answer::Accepted),
        }
    }

    /// The line of the fault where the file of this number has this text, if that fault is of the same code in the same file.
    pub fn line_again(
        &self,
        alloc: Global,
        fault: &Fault,
        number: usize,
        text: &[u8],
    ) -> Result<Option<u32>, AllocError> {
        match self.answer_with(alloc, number, text)? {
            Answer::Refused(again) => Ok(same_line(&again, fault)),
            Answer::Accepted | Answer::NotTaken => Ok(None),
        }
    }
}

/// The line of a fault that is of the same code in the same file as another.
fn same_line(again: &Fault, fault: &Fault) -> Option<u32> {
    if again.code == fault.code && again.file.as_str() == fault.file.as_str() {
        Some(again.line)
    } else {
        None
    }
}
