//! The warnings of a set of files.

use crate::gathering::gathered;
use lint::Warning;
use lint_report::{Asked, Files, Said, report};
use srcset::{FileSet, Names};
use std::alloc::{AllocError, Global};

/// The report on a program that the compiler does not refuse.
pub fn warn_of_sources(alloc: Global, set: &FileSet, asked: Asked<'_>) -> Result<Said, AllocError> {
    let mut files = Files::of(alloc, set, asked.names, asked.made_file())?;
    let mut names = Names::new(alloc);
    let warnings = warnings_of(alloc, set, asked, &mut files, &mut names)?;
    report(alloc, files, names, warnings.as_slice(), asked)
}

/// The warnings of the files as they are laid out, or, where that cannot be, as they are. Files that a phase refuses have none.
fn warnings_of(
    alloc: Global,
    set: &FileSet,
    asked: Asked<'_>,
    files: &mut Files<'_>,
    names: &mut Names,
) -> Result<Vec<Warning>, AllocError> {
    if files.is_laid {
        if let Some(laid) = files.laid_set(alloc)? {
            if let Some(found) = gathered(alloc, &laid, asked.main, asked.stack, names)? {
                return Ok(found);
            }
        }
    }
    files.is_laid = false;
    *names = Names::new(alloc);
    match gathered(alloc, set, asked.main, asked.stack, names)? {
        Some(found) => Ok(found),
        None => Ok(Vec::new(alloc)),
    }
}
