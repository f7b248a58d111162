//! The files of the words, and those that they include.

use crate::definitions::{has_macros, put_macros};
use crate::paths::{folder_of, joined};
use crate::sources::Sources;
use cli_args::{Program, Role};
use cli_io::is_same;
use srcset::{Code, Fault, MAX_FILES};
use std::alloc::{AllocError, Global};
use std::fs;

/// The name of standard input.
const STANDARD_NAME: &str = "stdin.c";

/// Reads the files of a program: the main one and the further ones, each under the name that the words have, and then, where the words have a folder, each
/// file that one of them names in an `#include`, under the name given there. It is looked for next to the including file, and then in each folder; one that
/// is nowhere is left out.
///
/// Fails as `FileSet::add` and `read_source` do, with 802 where a file cannot be read, and with 101 where two different files would have one name.
pub fn read_sources<'a>(rt: &HostRuntime, program: &Program<'a>) -> Result<Sources<'a>, Fault> {
    let main = if program.main == "-" {
        STANDARD_NAME
    } else {
        program.main
    };
    let mut sources = Sources::new(rt.alloc(), main);
    match read_all(rt, program, &mut sources) {
        Ok(()) => Ok(sources),
        Err(fault) => Err(fault),
    }
}

fn read_all(
    rt: &HostRuntime,
    program: &Program<'_>,
    sources: &mut Sources<'_>,
) -> Result<(), Fault> {
    let given = sources.given;
    sources.read(rt, given, program.main)?;
    read_further(rt, program, sources)?;
    if program.has(Role::Folder) {
        read_included(rt, program, sources)?;
    }
    if has_macros(program) {
        put_macros(rt.alloc(), program, sources)?;
    }
    Ok(())
}

/// Reads the further files.
fn read_further(
    rt: &HostRuntime,
    program: &Program<'_>,
    sources: &mut Sources<'_>,
) -> Result<(), Fault> {
    for word in &program.words {
        if word.role == Role::File {
            sources.read(rt, word.text, word.text)?;
        }
    }
    Ok(())
}

/// Reads the files that each file includes, including those of files found in this way.
fn read_included(
    rt: &HostRuntime,
    program: &Program<'_>,
    sources: &mut Sources<'_>,
) -> Result<(), Fault> {
    for number in 0..MAX_FILES {
        let Ok(names) = sources.included(rt.alloc(), number) else {
            return Err(Fault::memory(rt.alloc()));
        };
        read_names(rt, program, number, names.as_slice(), sources)?;
    }
    Ok(())
}

/// Reads the files of these names that the file with this number includes.
fn read_names(
    rt: &HostRuntime,
    program: &Program<'_>,
    number: usize,
    names: &[String],
    sources: &mut Sources<'_>,
) -> Result<(), Fault> {
    for name in names {
        match found(rt, program, sources.path_at(number), name.as_str()) {
            Ok(Some(path)) => read_found(rt, name.as_str(), path.as_str(), sources)?,
            Ok(None) => {}
            Err(_) => return Err(Fault::memory(rt.alloc())),
        }
    }
    Ok(())
}

/// Reads the file at a path under a name, if none was read under it before.
fn read_found(
    rt: &HostRuntime,
    name: &str,
    path: &str,
    sources: &mut Sources<'_>,
) -> Result<(), Fault> {
    let is_new = sources.path_of(name).is_none();
    if is_new {
        return sources.read(rt, name, path);
    }
    let known = sources.path_of(name).unwrap_or_default();
    if is_same(rt, known, path) {
        Ok(())
    } else {
        Err(twice(rt.alloc(), name, known, path))
    }
}

/// The fault of two files that would have one name.
fn twice(alloc: Global, name: &str, first: &str, second: &str) -> Fault {
    match format!(in alloc; ": {first} and {second}") {
        Ok(paths) => Fault::with_text(alloc, Code::FileGivenTwice, name, 0, paths.as_str()),
        Err(_) => Fault::memory(alloc),
    }
}

/// Where the file of a name lies that the file at a path includes.
fn found(
    rt: &HostRuntime,
    program: &Program<'_>,
    includer: &str,
    name: &str,
) -> Result<Option<String>, AllocError> {
    let beside = joined(rt.alloc(), folder_of(includer), name)?;
    if is_file(rt, beside.as_str()) {
        return Ok(Some(beside));
    }
    for word in &program.words {
        if word.role == Role::Folder {
            let path = joined(rt.alloc(), word.text, name)?;
            if is_file(rt, path.as_str()) {
                return Ok(Some(path));
            }
        }
    }
    Ok(None)
}

/// Whether a file of this name is next to the file at a path.
pub fn lies_beside(rt: &HostRuntime, includer: &str, name: &str) -> Result<bool, AllocError> {
    let path = joined(rt.alloc(), folder_of(includer), name)?;
    Ok(is_file(rt, path.as_str()))
}

fn is_file(rt: &HostRuntime, path: &str) -> bool {
    match fs::metadata(rt, path) {
        Ok(there) => there.is_file(),
        Err(_) => false,
    }
}
