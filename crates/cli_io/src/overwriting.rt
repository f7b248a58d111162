//! Whether a file that is to be written is one that is read.

use std::fs;
use std::fs::Metadata;
use std::os::unix::fs::MetadataExt;

/// Whether the two paths are the same, or lead to the same file.
pub fn is_same(rt: &HostRuntime, first: &str, second: &str) -> bool {
    if first == second {
        return true;
    }
    match fs::metadata(rt, first) {
        Ok(there) => there.is_file() && leads_to(rt, second, &there),
        Err(_) => false,
    }
}

/// Whether a path leads to this file.
pub fn leads_to(rt: &HostRuntime, path: &str, there: &Metadata) -> bool {
    match fs::metadata(rt, path) {
        Ok(found) => found.dev() == there.dev() && found.ino() == there.ino(),
        Err(_) => false,
    }
}
