//! The lines of source files.

use srcset::FileSet;
use std::alloc::{AllocError, Global};

/// The lines of some files, without the white space at both ends.
#[derive(Drop)]
pub struct SourceLines {
    files: Vec<FileLines>,
}

#[derive(Drop)]
struct FileLines {
    name: String,
    lines: Vec<String>,
}

impl SourceLines {
    /// Those of the files of a set that have these names.
    ///
    /// Errors: memory ran out.
    pub fn of(alloc: Global, set: &FileSet, names: &[&str]) -> Result<SourceLines, AllocError> {
        let mut files = Vec::new(alloc);
        for name in names {
            if let Some(bytes) = set.get(name) {
                files.push(FileLines {
                    name: String::from_str(alloc, name)?,
                    lines: lines_of(alloc, bytes)?,
                })?;
            }
        }
        Ok(SourceLines { files })
    }

    /// The line with this number, counted from 1, of the file with this name; empty where there is none.
    pub(crate) fn line(&self, file: &str, number: u32) -> &str {
        for one in &self.files {
            if one.name.as_str() == file {
                return match one.lines.get((number as usize).saturating_sub(1)) {
                    Some(line) => line.as_str(),
                    None => "",
                };
            }
        }
        ""
    }
}

fn lines_of(alloc: Global, text: &[u8]) -> Result<Vec<String>, AllocError> {
    let mut lines = Vec::new(alloc);
    for line in text.split(|byte| *byte == b'\n') {
        let shown = String::from_utf8_lossy(alloc, line)?;
        let trimmed = String::from_str(alloc, shown.as_str().trim())?;
        lines.push(trimmed)?;
    }
    Ok(lines)
}
