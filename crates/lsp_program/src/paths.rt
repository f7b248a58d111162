//! Paths, and the URIs of files (RFC 8089).

use percent_encoding::percent_decode;
use std::alloc::{AllocError, Global};

/// The path of a file's URI; of another URI the URI itself, at which no file lies.
pub fn path_of(alloc: Global, uri: &str) -> Result<String, AllocError> {
    let Some(encoded) = uri.strip_prefix("file://") else {
        return String::from_str(alloc, uri);
    };
    let mut bytes = Vec::new(alloc);
    percent_decode(encoded.as_bytes()).append_to(&mut bytes)?;
    let text = String::from_utf8_lossy(alloc, bytes.as_slice())?;
    String::from_str(alloc, text.as_str())
}

/// The URI of the file at a path: all but letters, digits and `-._~/` is percent-encoded (RFC 3986, 2.1).
pub fn uri_of(alloc: Global, path: &str) -> Result<String, AllocError> {
    let mut uri = String::from_str(alloc, "file://")?;
    for byte in path.as_bytes() {
        match *byte {
            b'A'..=b'Z' | b'a'..=b'z' | b'0'..=b'9' | b'-' | b'.' | b'_' | b'~' | b'/' => {
                uri.push(*byte as char)?;
            }
            other => uri.push_str(format!(in alloc; "%{other:02X}")?.as_str())?,
        }
    }
    Ok(uri)
}

/// The folder of a path; empty for the current one.
pub fn folder_of(path: &str) -> &str {
    match path.rfind('/') {
        Some(0) => "/",
        Some(end) => path.get(..end).unwrap_or_default(),
        None => "",
    }
}

/// The last part of a path.
pub fn base_of(path: &str) -> &str {
    match path.rfind('/') {
        Some(end) => path.get(end.saturating_add(1)..).unwrap_or_default(),
        None => path,
    }
}

/// The path of a name in a folder; an absolute name is its own.
pub fn joined(alloc: Global, folder: &str, name: &str) -> Result<String, AllocError> {
    let mut path = String::new(alloc);
    if !(name.starts_with("/") || folder.is_empty() || folder == ".") {
        path.push_str(folder)?;
        if !folder.ends_with("/") {
            path.push_str("/")?;
        }
    }
    path.push_str(name)?;
    Ok(path)
}
