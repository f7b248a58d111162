//! The files of a program: the main one, and those that it includes, as they are in the editor or else on the disk.

use crate::definitions::{MADE_FILE, made_text};
use crate::documents::OpenDocument;
use crate::host::{Host, Unit};
use crate::options::Options;
use crate::paths::{base_of, folder_of, joined, uri_of};
use explain_places::Tokens;
use lsp_text::LineTable;
use phases::Kind;
use srcset::{Code, FileSet, MAX_FILES, builtin};
use std::alloc::{AllocError, Global};

/// Who wrote a file.
#[derive(Clone, Copy, PartialEq, Eq)]
pub enum Origin {
    /// A person: it lies on the disk, or is open in the editor.
    Written,
    /// It is a built-in header.
    BuiltIn,
    /// The server, for the macros of the options.
    Made,
}

/// A file of a program.
#[derive(Drop)]
pub struct UnitFile {
    pub origin: Origin,
    /// The name under which it is included.
    pub name: String,
    /// Where it lies; empty where no person wrote it.
    pub path: String,
    pub uri: String,
    pub text: Vec<u8>,
    pub lines: LineTable,
}

/// The files of a program, the main one first.
#[derive(Drop)]
pub struct Program {
    pub files: Vec<UnitFile>,
}

impl Program {
    /// The path of the main file; empty where it cannot be read.
    pub fn root(&self) -> &str {
        match self.files.first() {
            Some(file) => file.path.as_str(),
            None => "",
        }
    }

    /// Whether one of the files lies at a path.
    pub fn has_path(&self, path: &str) -> bool {
        self.files.iter().any(|file| file.path.as_str() == path)
    }
}

/// Whether the main file of the program with this number is included in another program.
pub fn is_part(programs: &[Program], number: usize) -> bool {
    let Some(program) = programs.get(number) else {
        return false;
    };
    for other in programs {
        if other.root() != program.root() && other.has_path(program.root()) {
            return true;
        }
    }
    false
}

/// The places that are searched for files.
#[derive(Drop)]
pub struct Places<'a, H> {
    pub host: &'a H,
    pub documents: &'a [OpenDocument],
    pub options: &'a Options,
}

/// Gathers the files of the program whose main file lies at a path, the main one first, and last the one that has the macros of the options, where there are some; none where the main file
/// cannot be read.
pub fn gather<H: Host>(
    alloc: Global,
    places: &Places<'_, H>,
    path: &str,
) -> Result<Vec<UnitFile>, AllocError> {
    let mut files = Vec::new(alloc);
    let Some(text) = text_at_path(alloc, places, path)? else {
        return Ok(files);
    };
    files.push(unit_file(alloc, Origin::Written, base_of(path), path, text)?)?;
    for number in 0..MAX_FILES {
        if number >= files.len() {
            break;
        }
        gather_included(alloc, places, number, &mut files)?;
    }
    if places.options.has_macros() {
        let text = made_text(alloc, places.options, base_of(path))?;
        files.push(unit_file(alloc, Origin::Made, MADE_FILE, "", text.into_bytes())?)?;
    }
    Ok(files)
}

/// Adds the files that the one with this number includes.
fn gather_included<H: Host>(
    alloc: Global,
    places: &Places<'_, H>,
    number: usize,
    files: &mut Vec<UnitFile>,
) -> Result<(), AllocError> {
    let (names, folder) = match files.get(number) {
        Some(file) => (
            included_names(alloc, file.text.as_slice())?,
            String::from_str(alloc, folder_of(file.path.as_str()))?,
        ),
        None => return Ok(()),
    };
    for name in &names {
        let is_known = is_name_of(files.as_slice(), name.as_str());
        if !is_known && files.len() < MAX_FILES {
            if let Some(file) = find(alloc, places, folder.as_str(), name.as_str())? {
                files.push(file)?;
            }
        }
    }
    Ok(())
}

fn is_name_of(files: &[UnitFile], name: &str) -> bool {
    for file in files {
        if file.name.as_str() == name {
            return true;
        }
    }
    false
}

/// Finds a file in the folder of the one that includes it, in a folder of the options, or among the built-in headers.
fn find<H: Host>(
    alloc: Global,
    places: &Places<'_, H>,
    folder: &str,
    name: &str,
) -> Result<Option<UnitFile>, AllocError> {
    if let Some(file) = find_in(alloc, places, folder, name)? {
        return Ok(Some(file));
    }
    for other in &places.options.folders {
        if let Some(file) = find_in(alloc, places, other.as_str(), name)? {
            return Ok(Some(file));
        }
    }
    match builtin(name) {
        Some(text) => {
            let text = Vec::from_slice(alloc, text)?;
            Ok(Some(unit_file(alloc, Origin::BuiltIn, name, "", text)?))
        }
        None => Ok(None),
    }
}

fn find_in<H: Host>(
    alloc: Global,
    places: &Places<'_, H>,
    folder: &str,
    name: &str,
) -> Result<Option<UnitFile>, AllocError> {
    let path = joined(alloc, folder, name)?;
    match text_at_path(alloc, places, path.as_str())? {
        Some(text) => Ok(Some(unit_file(alloc, Origin::Written, name, path.as_str(), text)?)),
        None => Ok(None),
    }
}

/// The text of a file: that of the editor, where it has the file open.
fn text_at_path<H: Host>(
    alloc: Global,
    places: &Places<'_, H>,
    path: &str,
) -> Result<Option<Vec<u8>>, AllocError> {
    for open in places.documents {
        if open.path.as_str() == path {
            return Ok(Some(Vec::from_slice(alloc, open.document.text())?));
        }
    }
    places.host.read(alloc, path)
}

fn unit_file(
    alloc: Global,
    origin: Origin,
    name: &str,
    path: &str,
    text: Vec<u8>,
) -> Result<UnitFile, AllocError> {
    Ok(UnitFile {
        origin,
        name: String::from_str(alloc, name)?,
        path: String::from_str(alloc, path)?,
        uri: uri_of(alloc, path)?,
        lines: LineTable::of(alloc, text.as_slice())?,
        text,
    })
}

/// The names that a file includes, in quotes or angle brackets; those of built-in headers among them.
fn included_names(alloc: Global, text: &[u8]) -> Result<Vec<String>, AllocError> {
    let mut names = Vec::new(alloc);
    let Some(tokens) = Tokens::of(alloc, text)? else {
        return Ok(names);
    };
    for token in tokens.all() {
        if token.kind() == Kind::HeaderName {
            if let Some(name) = plain_name(token.spelling()) {
                names.push(String::from_str(alloc, name)?)?;
            }
        }
    }
    Ok(names)
}

/// A header's name without quotes or brackets.
fn plain_name(spelling: &[u8]) -> Option<&str> {
    let Ok(text) = str::from_utf8(spelling) else {
        return None;
    };
    match text.strip_prefix("\"") {
        Some(rest) => rest.strip_suffix("\""),
        None => text.strip_prefix("<")?.strip_suffix(">"),
    }
}

/// The set of a program's files for the compiler, built-in headers aside. A file that a set does not take is left out.
pub fn set_of(alloc: Global, files: &[UnitFile]) -> Result<FileSet, AllocError> {
    let mut set = FileSet::new(alloc);
    for file in files {
        if file.origin != Origin::BuiltIn {
            let text = Vec::from_slice(alloc, file.text.as_slice())?;
            match set.add(file.name.as_str(), text) {
                Ok(()) => {}
                Err(fault) => if fault.code == Code::OutOfMemory.number() {
                    return Err(AllocError);
                },
            }
        }
    }
    Ok(set)
}

/// The names of the files of such a set.
pub fn names_of<'f>(alloc: Global, files: &'f [UnitFile]) -> Result<Vec<&'f str>, AllocError> {
    let mut names = Vec::new(alloc);
    for file in files {
        if file.origin != Origin::BuiltIn {
            names.push(file.name.as_str())?;
        }
    }
    Ok(names)
}

/// The program of these files for the host; `None` where there is none.
pub fn unit_of<'f>(
    files: &'f [UnitFile],
    set: &'f FileSet,
    names: &'f [&'f str],
    stack: u32,
) -> Option<Unit<'f>> {
    let given = files.first()?.name.as_str();
    let last = files.last()?;
    let main = if last.origin == Origin::Made {
        last.name.as_str()
    } else {
        given
    };
    Some(Unit {
        set,
        names,
        main,
        given,
        stack,
    })
}
