//! The services that the server needs: files of the disk, and findings of the compiler.

use cc::StackSize;
use cli_sources::read_bytes;
use cmd_check::plain_version;
use explain::Stage;
use explain_cmd::{Bounds, Form, explain_faults};
use lint_report::{Asked, Form as ReportForm};
use lint_unit::warn_of_sources;
use lsp_facts::{enumerator_value, expansion_of, function_fact, object_fact, value_of};
use lsp_program::{Declared, Enumerated, FunctionFact, Host, ObjectFact, Part, Question, Unit};
use srcset::Code;
use std::alloc::{AllocError, Global};
use std::fs::{self, DirEntry};
use verify_report::{Asked as Verified, verify_sources};

/// How many steps an analysis of a program that is saved takes at most: a second or two.
const VERIFY_EFFORT: u64 = 3_000_000;

/// The process in which a server runs.
#[derive(Drop)]
pub(crate) struct Console<'a> {
    pub(crate) rt: &'a HostRuntime,
}

impl<'a> Host for Console<'a> {
    fn read(&self, alloc: Global, path: &str) -> Result<Option<Vec<u8>>, AllocError> {
        let _alloc = alloc;
        if !is_file(self.rt, path) {
            return Ok(None);
        }
        match read_bytes(self.rt, path, path) {
            Ok(bytes) => Ok(Some(bytes)),
            Err(fault) if fault.code == Code::OutOfMemory.number() => Err(AllocError),
            Err(_) => Ok(None),
        }
    }

    fn findings(
        &self,
        alloc: Global,
        question: Question,
        unit: Unit<'_>,
    ) -> Result<String, AllocError> {
        match question {
            Question::Faults(most) => faults(alloc, unit, most),
            Question::Warnings => warnings(alloc, unit),
            Question::Unverified => unverified(alloc, unit),
        }
    }

    fn entries(&self, alloc: Global, folder: &str) -> Result<Vec<String>, AllocError> {
        let mut names = Vec::new(alloc);
        if !folder.starts_with("/") {
            return Ok(names);
        }
        let Ok(entries) = fs::read_dir(self.rt, folder) else {
            return Ok(names);
        };
        for entry in entries.take(MAX_ENTRIES) {
            if let Ok(entry) = entry {
                names.push(shown_entry(alloc, &entry)?)?;
            }
        }
        Ok(names)
    }

    fn object(
        &self,
        alloc: Global,
        unit: Unit<'_>,
        declared: Declared<'_>,
    ) -> Result<Option<ObjectFact>, AllocError> {
        object_fact(alloc, unit, declared)
    }

    fn function(
        &self,
        alloc: Global,
        unit: Unit<'_>,
        name: &str,
    ) -> Result<Option<FunctionFact>, AllocError> {
        function_fact(alloc, unit, name)
    }

    fn expansion(
        &self,
        alloc: Global,
        unit: Unit<'_>,
        part: Part<'_>,
    ) -> Result<Option<String>, AllocError> {
        expansion_of(alloc, unit, part)
    }

    fn value(
        &self,
        alloc: Global,
        unit: Unit<'_>,
        expression: &str,
    ) -> Result<Option<i64>, AllocError> {
        value_of(alloc, unit, expression, false)
    }

    fn enumerator(
        &self,
        alloc: Global,
        unit: Unit<'_>,
        declared: Enumerated<'_>,
    ) -> Result<Option<i64>, AllocError> {
        enumerator_value(alloc, unit, declared)
    }

    fn macro_value(
        &self,
        alloc: Global,
        unit: Unit<'_>,
        name: &str,
    ) -> Result<Option<i64>, AllocError> {
        value_of(alloc, unit, name, true)
    }
}

/// The name of an entry of a folder, with `/` after that of a folder.
fn shown_entry(alloc: Global, entry: &DirEntry) -> Result<String, AllocError> {
    let mut name = String::from_str(alloc, entry.file_name())?;
    if let Ok(kind) = entry.file_type() {
        if kind.is_dir() {
            name.push_str("/")?;
        }
    }
    Ok(name)
}

/// How many entries of a folder are read at most.
const MAX_ENTRIES: usize = 10_000;

/// Whether a path is absolute and leads to a file.
fn is_file(rt: &HostRuntime, path: &str) -> bool {
    if !path.starts_with("/") {
        return false;
    }
    match fs::metadata(rt, path) {
        Ok(there) => there.is_file(),
        Err(_) => false,
    }
}

fn stack_of(unit: Unit<'_>) -> StackSize {
    match StackSize::new(unit.stack) {
        Some(size) => size,
        None => StackSize::usual(),
    }
}

/// The output of `zkc explain --json`.
fn faults(alloc: Global, unit: Unit<'_>, most: usize) -> Result<String, AllocError> {
    let bounds = Bounds {
        stage: Stage::Whole,
        stack: stack_of(unit),
        most,
    };
    let said = explain_faults(
        alloc,
        unit.set,
        unit.names,
        unit.main,
        unit.given,
        bounds,
        Form::Json,
    )?;
    let text = String::from_utf8_lossy(alloc, said.out.as_slice())?;
    String::from_str(alloc, text.as_str())
}

/// The output of `zkc check --json`.
fn warnings(alloc: Global, unit: Unit<'_>) -> Result<String, AllocError> {
    let said = warn_of_sources(
        alloc,
        unit.set,
        Asked {
            names: unit.names,
            main: unit.main,
            given: unit.given,
            stack: stack_of(unit).get(),
            words: "all",
            are_errors: false,
            form: ReportForm::Json,
            version: plain_version(),
        },
    )?;
    String::from_str(alloc, said.out.as_str())
}

/// The output of `zkc verify --json`.
fn unverified(alloc: Global, unit: Unit<'_>) -> Result<String, AllocError> {
    let asked = Verified {
        names: unit.names,
        main: unit.main,
        given: unit.given,
        stack: stack_of(unit),
        effort: VERIFY_EFFORT,
        form: ReportForm::Json,
        version: plain_version(),
    };
    match verify_sources(alloc, unit.set, &asked) {
        Ok(said) => String::from_str(alloc, said.out.as_str()),
        Err(fault) if fault.code == Code::OutOfMemory.number() => Err(AllocError),
        Err(_) => Ok(String::new(alloc)),
    }
}
