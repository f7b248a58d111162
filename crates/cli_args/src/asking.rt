//! From words to a request.

use crate::commands::command;
use crate::reading::{Reading, read};
use clap::Error;
use std::alloc::{AllocError, Global};

/// The result of parsing the words.
#[derive(Drop)]
pub enum Asked<'a> {
    /// A command, or the error in the words.
    Read(Reading<'a>),
    /// Help, the version, or the error in the words, as a text of its own.
    Shown(Error),
}

/// Parses plain words into a request to a program of this version.
pub fn ask<'a>(
    alloc: Global,
    words: &'a [&'a str],
    version: &'a str,
) -> Result<Asked<'a>, AllocError> {
    let command = command(alloc, version)?;
    match command.try_get_matches_from(words) {
        Ok(matches) => match read(alloc, &matches) {
            Ok(reading) => Ok(Asked::Read(reading)),
            Err(error) => Err(error),
        },
        Err(error) => Ok(Asked::Shown(error)),
    }
}
