//! The source files of the program in question, which may be laid out otherwise.

use srcset::{Code, FileSet};
use std::alloc::{AllocError, Global};

/// A source file.
#[derive(Drop)]
pub struct Source {
    pub name: String,
    pub text: Vec<u8>,
}

/// The source files of a command, in its order.
#[derive(Drop)]
pub struct Sources {
    pub files: Vec<Source>,
}

impl Sources {
    /// A copy of the files of a set that have these names.
    pub fn of(alloc: Global, set: &FileSet, names: &[&str]) -> Result<Sources, AllocError> {
        let mut files = Vec::new(alloc);
        for name in names {
            if let Some(bytes) = set.get(name) {
                let text = Vec::from_slice(alloc, bytes)?;
                let name = String::from_str(alloc, name)?;
                files.push(Source { name, text })?;
            }
        }
        Ok(Sources { files })
    }

    /// The number of the file with this name.
    pub fn number(&self, name: &str) -> Option<usize> {
        self.files
            .iter()
            .position(|file| file.name.as_str() == name)
    }

    /// The text of the file with this number; empty where there is none.
    pub fn text(&self, number: usize) -> &[u8] {
        match self.files.get(number) {
            Some(file) => file.text.as_slice(),
            None => &[],
        }
    }

    /// The name of the file with this number; empty where there is none.
    pub fn name(&self, number: usize) -> &str {
        match self.files.get(number) {
            Some(file) => file.name.as_str(),
            None => "",
        }
    }

    /// The text of the file with this number, to be changed.
    pub fn text_mut(&mut self, number: usize) -> Option<&mut Vec<u8>> {
        match self.files.get_mut(number) {
            Some(file) => Some(&mut file.text),
            None => None,
        }
    }

    /// The set of these files; `None` where a set does not take one of them, as one that is too large. An error: out of memory.
    pub fn set(&self, alloc: Global) -> Result<Option<FileSet>, AllocError> {
        self.set_with(alloc, self.files.len(), &[])
    }

    /// The same, with this text in the file of this number.
    pub fn set_with(
        &self,
        alloc: Global,
        number: usize,
        text: &[u8],
    ) -> Result<Option<FileSet>, AllocError> {
        let mut set = FileSet::new(alloc);
        for (at, file) in self.files.iter().enumerate() {
            let bytes = if at == number {
                text
            } else {
                file.text.as_slice()
            };
            let text = Vec::from_slice(alloc, bytes)?;
            if !add_file(&mut set, file.name.as_str(), text)? {
                return Ok(None);
            }
        }
        Ok(Some(set))
    }
}

/// Adds a file to a set; returns false where the set does not take it. An error: out of memory.
pub fn add_file(set: &mut FileSet, name: &str, text: Vec<u8>) -> Result<bool, AllocError> {
    match set.add(name, text) {
        Ok(()) => Ok(true),
        Err(fault) => if fault.code == Code::OutOfMemory.number() {
            Err(AllocError)
        } else {
            Ok(false)
        },
    }
}
