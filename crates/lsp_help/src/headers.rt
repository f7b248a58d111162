//! Names of headers: the built-in ones, and the files of the folders in which an `#include` looks.

use crate::inquiry::Inquiry;
use lsp_program::{Host, folder_of, joined};
use srcset::builtin;
use std::alloc::{AllocError, Global};

/// The built-in headers.
const BUILT_IN: [&str; 4] = ["iso646.h", "limits.h", "rvio.h", "stdbool.h"];

/// How many names are offered at most.
const MAX_NAMES: usize = 2_000;

impl<'a, H: Host> Inquiry<'a, H> {
    /// The last parts of names that may appear in quotes in the file at a path, after the folders that are written already: those of sources and of folders
    /// with a `/` after them.
    pub(crate) fn quoted_names(
        &self,
        path: &str,
        written: &str,
    ) -> Result<Vec<String>, AllocError> {
        let mut names = if written.contains('/') {
            Vec::new(self.alloc)
        } else {
            bracketed_names(self.alloc)?
        };
        let below = folder_of(written);
        self.put_entries(folder_of(path), below, &mut names)?;
        for folder in &self.options.folders {
            self.put_entries(folder.as_str(), below, &mut names)?;
        }
        Ok(names)
    }

    /// Puts the entries of a folder below another one, each name once.
    fn put_entries(
        &self,
        folder: &str,
        below: &str,
        names: &mut Vec<String>,
    ) -> Result<(), AllocError> {
        let path = if below.is_empty() {
            String::from_str(self.alloc, folder)?
        } else {
            joined(self.alloc, folder, below)?
        };
        for entry in self.host.entries(self.alloc, path.as_str())? {
            if is_offered(entry.as_str()) && names.len() < MAX_NAMES {
                put_once(entry, names)?;
            }
        }
        Ok(())
    }
}

/// The names that may appear in angle brackets.
pub(crate) fn bracketed_names(alloc: Global) -> Result<Vec<String>, AllocError> {
    let mut names = Vec::new(alloc);
    for name in BUILT_IN.as_slice() {
        if builtin(name).is_some() {
            names.push(String::from_str(alloc, name)?)?;
        }
    }
    Ok(names)
}

/// Whether a name is that of a source or a folder, and not hidden.
fn is_offered(entry: &str) -> bool {
    let is_source = entry.ends_with(".h") || entry.ends_with(".c") || entry.ends_with(".inc");
    !entry.starts_with(".") && (is_source || entry.ends_with("/"))
}

fn put_once(entry: String, names: &mut Vec<String>) -> Result<(), AllocError> {
    if !names.iter().any(|name| name.as_str() == entry.as_str()) {
        names.push(entry)?;
    }
    Ok(())
}
