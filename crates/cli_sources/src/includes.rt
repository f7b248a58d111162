//! Which files a file names in its `#include` lines.

ghost use Rattle.std.specs.Prelude.{◌≤◌, length};
ghost use Rattle.srcset.specs.Files.{max_file_bytes};

use phases::{Kind, PpToken, try_scan};
use srcset::Refusal;
use std::alloc::{AllocError, Global};

/// The names in quotes in `#include` lines (ISO/IEC 9899:2011 6.10.2), also in groups that are skipped. A file without token lines has none:
/// its fault is reported where it is included.
pub fn included_names(alloc: Global, bytes: &[u8]) -> Result<Vec<String>, AllocError>
    requires { length bytes.now ≤ max_file_bytes }
{
    let mut names = Vec::new(alloc);
    let lines = match try_scan(alloc, bytes, 0) {
        Ok(lines) => lines,
        Err(Refusal::Memory) => return Err(AllocError),
        Err(_) => return Ok(names),
    };
    for at in 0..lines.len() {
        if let Some(name) = included_name(lines.get(at).unwrap_or_default()) {
            names.push(String::from_str(alloc, name)?)?;
        }
    }
    Ok(names)
}

/// Whether an `#include` line names what macros make (6.10.2p4).
pub fn is_include_made(alloc: Global, bytes: &[u8]) -> Result<bool, AllocError>
    requires { length bytes.now ≤ max_file_bytes }
{
    let lines = match try_scan(alloc, bytes, 0) {
        Ok(lines) => lines,
        Err(Refusal::Memory) => return Err(AllocError),
        Err(_) => return Ok(false),
    };
    for at in 0..lines.len() {
        if let Some(name) = header_of(lines.get(at).unwrap_or_default()) {
            if name.kind() != Kind::HeaderName {
                return Ok(true);
            }
        }
    }
    Ok(false)
}

/// The name in quotes that a line includes.
fn included_name<'t>(line: &'t [PpToken<'_>]) -> Option<&'t str> {
    let name = header_of(line)?;
    if name.kind() == Kind::HeaderName {
        quoted(name.spelling())
    } else {
        None
    }
}

/// The token after `#include` in a line.
fn header_of<'t, 'b>(line: &'t [PpToken<'b>]) -> Option<&'t PpToken<'b>> {
    let hash = line.first()?.spelling();
    let word = line.get(1)?.spelling();
    let is_include = (hash == b"#".as_slice() || hash == b"%:".as_slice())
        && word == b"include".as_slice();
    if is_include { line.get(2) } else { None }
}

/// The text between quotes.
fn quoted(spelling: &[u8]) -> Option<&str> {
    let Ok(text) = str::from_utf8(spelling) else {
        return None;
    };
    text.strip_prefix("\"")?.strip_suffix("\"")
}
