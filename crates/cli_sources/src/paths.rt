//! Paths as texts.

use std::alloc::{AllocError, Global};

/// The folder of a path; empty for the current one.
pub fn folder_of(path: &str) -> &str {
    match path.rfind('/') {
        Some(0) => "/",
        Some(end) => path.get(..end).unwrap_or_default(),
        None => "",
    }
}

/// The path of a name in a folder; an absolute name is its own.
pub fn joined(alloc: Global, folder: &str, name: &str) -> Result<String, AllocError> {
    let mut path = String::new(alloc);
    if !(name.starts_with("/") || folder.is_empty() || folder == ".") {
        path.push_str(folder)?;
        if !folder.ends_with("/") {
            path.push_str("/")?;
        }
    }
    path.push_str(name)?;
    Ok(path)
}
