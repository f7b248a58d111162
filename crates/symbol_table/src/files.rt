//! The files that contain statements.

use srcset::Names;
use std::alloc::{AllocError, Global};

/// The names of files, numbered in the order in which they are first requested.
#[derive(Drop)]
pub(crate) struct Files<'n> {
    names: &'n Names,
    pub(crate) list: Vec<String>,
    /// For each number of a name that of the file, where it has one.
    numbers: Vec<Option<usize>>,
}

impl<'n> Files<'n> {
    pub(crate) fn new(alloc: Global, names: &'n Names) -> Result<Files<'n>, AllocError> {
        Ok(Files {
            names,
            list: Vec::new(alloc),
            numbers: vec![in alloc; None; names.len()]?,
        })
    }

    /// The number of the file with this name.
    pub(crate) fn number(&mut self, alloc: Global, name: usize) -> Result<usize, AllocError> {
        match self.numbers.get(name).copied().flatten() {
            Some(number) => Ok(number),
            None => self.add(alloc, name),
        }
    }

    fn add(&mut self, alloc: Global, name: usize) -> Result<usize, AllocError> {
        let number = self.list.len();
        self.list
            .push(String::from_str(alloc, self.names.file_name(name))?)?;
        if let Some(place) = self.numbers.get_mut(name) {
            *place = Some(number);
        }
        Ok(number)
    }
}
