//! The files of a program, with the paths at which they were found.

use crate::includes::{included_names, is_include_made};
use crate::reading::read_file;
use cli_io::is_same;
use srcset::{Code, Fault, FileSet};
use std::alloc::{AllocError, Global};

/// The name of the file that defines the macros of the words, and includes the main file.
pub const MACROS: &str = "command line";

/// A file of the set.
#[derive(Drop)]
pub struct Source {
    /// The name under which the set has it.
    pub name: String,
    /// Where it was found; empty for the file of macros.
    pub path: String,
}

/// The files of a program.
#[derive(Drop)]
pub struct Sources<'a> {
    pub set: FileSet,
    /// The files, the main one of the words first.
    pub files: Vec<Source>,
    /// The name of the file that is translated.
    pub main: &'a str,
    /// The name of the main file of the words.
    pub given: &'a str,
}

impl<'a> Sources<'a> {
    /// No file yet, of a program with this main file.
    pub fn new(alloc: Global, main: &'a str) -> Sources<'a> {
        Sources {
            set: FileSet::new(alloc),
            files: Vec::new(alloc),
            main,
            given: main,
        }
    }

    /// Reads the file at a path into the set.
    pub fn read(&mut self, rt: &HostRuntime, name: &str, path: &str) -> Result<(), Fault> {
        read_file(rt, name, path, &mut self.set)?;
        self.note(rt.alloc(), name, path)
    }

    /// Notes where a file of the set was found.
    pub fn note(&mut self, alloc: Global, name: &str, path: &str) -> Result<(), Fault> {
        let Ok(source) = noted(alloc, name, path) else {
            return Err(Fault::memory(alloc));
        };
        match self.files.push(source) {
            Ok(()) => Ok(()),
            Err(_) => Err(Fault::memory(alloc)),
        }
    }

    /// The path of the file of this name.
    pub fn path_of(&self, name: &str) -> Option<&str> {
        for file in &self.files {
            if file.name.as_str() == name {
                return Some(file.path.as_str());
            }
        }
        None
    }

    /// The path of the file with this number.
    pub fn path_at(&self, number: usize) -> &str {
        match self.files.get(number) {
            Some(file) => file.path.as_str(),
            None => "",
        }
    }

    /// Whether a path leads to one of the files; `-` is standard output, which none is.
    pub fn are_at(&self, rt: &HostRuntime, path: &str) -> bool {
        if path == "-" {
            return false;
        }
        for file in &self.files {
            if !file.path.is_empty() && is_same(rt, path, file.path.as_str()) {
                return true;
            }
        }
        false
    }

    /// The names that the file with this number includes.
    pub fn included(&self, alloc: Global, number: usize) -> Result<Vec<String>, AllocError> {
        match self.set.get(self.name_at(number)) {
            Some(bytes) => included_names(alloc, bytes),
            None => Ok(Vec::new(alloc)),
        }
    }

    /// Whether the file with this number includes what a macro names.
    pub fn includes_by_macro(&self, alloc: Global, number: usize) -> Result<bool, AllocError> {
        match self.set.get(self.name_at(number)) {
            Some(bytes) => is_include_made(alloc, bytes),
            None => Ok(false),
        }
    }

    /// The name of the file with this number; empty where there is none.
    fn name_at(&self, number: usize) -> &str {
        match self.files.get(number) {
            Some(file) => file.name.as_str(),
            None => "",
        }
    }

    /// The names of the files, that which is translated among them.
    pub fn names(&self, alloc: Global) -> Result<Vec<&str>, AllocError> {
        let mut names = Vec::new(alloc);
        for file in &self.files {
            names.push(file.name.as_str())?;
        }
        Ok(names)
    }

    /// The fault as it is reported: one that is about the whole unit names the main file of the words.
    pub fn told(&self, alloc: Global, fault: Fault) -> Fault {
        if fault.file.as_str() == MACROS && fault.line <= 1 {
            match Code::with_number(fault.code) {
                Some(code) => Fault::at(alloc, code, self.given, fault.line),
                None => fault,
            }
        } else {
            fault
        }
    }

    /// The text after the file's name in a text that begins with a fault of the whole unit; `None` where it does not, or names the main file of the words.
    pub fn behind_unit<'t>(&self, text: &'t [u8]) -> Option<&'t [u8]> {
        if self.main == self.given {
            return None;
        }
        let behind = text.strip_prefix(self.main.as_bytes())?;
        if behind.starts_with(b":1: ".as_slice()) {
            Some(behind)
        } else {
            None
        }
    }
}

fn noted(alloc: Global, name: &str, path: &str) -> Result<Source, AllocError> {
    Ok(Source {
        name: String::from_str(alloc, name)?,
        path: String::from_str(alloc, path)?,
    })
}
