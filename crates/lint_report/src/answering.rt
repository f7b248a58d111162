//! The output of `zkc check`.

use crate::files::Files;
use crate::json::put_json;
use crate::placing::in_order;
use crate::sarif::put_sarif;
use crate::shown::Told;
use crate::text::put_text;
use lint::Warning;
use srcset::Names;
use std::alloc::{AllocError, Global};

/// The form in which warnings are reported.
#[derive(Clone, Copy, Debug, PartialEq, Eq)]
pub enum Form {
    /// As text, on standard error.
    Text,
    /// As JSON, an object a line, on standard output.
    Json,
    /// As a log of SARIF, on standard output.
    Sarif,
}

/// The request for a report on a program.
#[derive(Clone, Copy)]
pub struct Asked<'a> {
    /// The names of its files.
    pub names: &'a [&'a str],
    /// The file that is translated, and the one that the command names.
    pub main: &'a str,
    pub given: &'a str,
    /// The bytes of the stack.
    pub stack: u32,
    /// Which warnings: `lint::selects` says how.
    pub words: &'a str,
    /// Whether warnings are errors.
    pub are_errors: bool,
    pub form: Form,
    /// The version of the program that reports.
    pub version: &'a str,
}

impl<'a> Asked<'a> {
    /// The name of the file that no person wrote; empty where there is none.
    pub fn made_file(self) -> &'a str {
        if self.main == self.given {
            ""
        } else {
            self.main
        }
    }
}

/// The output of a command.
#[derive(Drop)]
pub struct Said {
    /// On standard output.
    pub out: String,
    /// On standard error.
    pub err: String,
    /// How many warnings there are.
    pub count: usize,
}

/// The report of the warnings of these files, whose names have these numbers.
pub fn report<'a>(
    alloc: Global,
    files: Files<'a>,
    names: Names,
    warnings: &[Warning],
    asked: Asked<'_>,
) -> Result<Said, AllocError> {
    let list = in_order(
        alloc,
        &files,
        &names,
        warnings,
        asked.words,
        asked.made_file(),
    )?;
    let told = Told { names, files, list };
    rendered(alloc, &told, asked)
}

/// The warnings in the requested form.
fn rendered(alloc: Global, told: &Told<'_>, asked: Asked<'_>) -> Result<Said, AllocError> {
    let level = if asked.are_errors { "error" } else { "warning" };
    let mut out = String::new(alloc);
    let mut err = String::new(alloc);
    match asked.form {
        Form::Text => put_text(alloc, told, level, &mut err)?,
        Form::Json => put_json(alloc, told, level, &mut out)?,
        Form::Sarif => put_sarif(alloc, told, level, asked.version, &mut out)?,
    }
    Ok(Said {
        out,
        err,
        count: told.list.len(),
    })
}
