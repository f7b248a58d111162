//! Diagnostics as the text changes.

use crate::server::{Change, Server};
use lsp_problems::{Problem, Severity, over_budget, published, read_problems};
use lsp_program::{
    Host, Places, Program, Question, Unit, UnitFile, View, gather, is_part, names_of, set_of,
    unit_of,
};
use lsp_wire::notification;
use std::alloc::{AllocError, Global};

/// How many programs are examined at most.
const MAX_PROGRAMS: usize = 32;

/// How many faults of a program are requested at most.
const MAX_FAULTS: u64 = 10;

/// How much work these may be. The compiler is run several times for each.
const FAULT_WORK: u64 = 1_000_000;

/// The action on a program when files changed.
#[derive(Clone, Copy, PartialEq, Eq)]
enum Plan {
    /// It has a file that changed.
    Look,
    /// It is to be verified, too.
    Verify,
    /// Its main file is a part of another program.
    Forget,
    /// It has none of the files.
    Leave,
}

impl<H: Host + Drop> Server<H> {
    /// Notes that the file at a path changed, or is to be verified.
    pub(crate) fn note_change(&mut self, path: &str, verifies: bool) -> Result<(), AllocError> {
        self.view = None;
        for change in self.changes.iter_mut() {
            if change.path.as_str() == path {
                change.verifies = change.verifies || verifies;
                return Ok(());
            }
        }
        let path = String::from_str(self.alloc, path)?;
        self.changes.push(Change { path, verifies })?;
        Ok(())
    }

    /// Examines each program that has a file which changed, and publishes its problems.
    pub(crate) fn look_at_changes(&mut self) -> Result<(), AllocError> {
        if self.changes.is_empty() {
            return Ok(());
        }
        let changes = std::mem::replace(&mut self.changes, Vec::new(self.alloc));
        let programs = self.programs()?;
        let plans = plans_of(self.alloc, programs.as_slice(), changes.as_slice())?;
        for (program, plan) in programs.into_iter().zip(plans) {
            match plan {
                Plan::Look => self.look_at(program.files, false)?,
                Plan::Verify => self.look_at(program.files, true)?,
                Plan::Forget => self.drop_problems_of(program.root())?,
                Plan::Leave => {}
            }
        }
        self.forget_closed()?;
        self.publish()
    }

    /// The programs that are examined.
    pub(crate) fn programs(&self) -> Result<Vec<Program>, AllocError> {
        let mut programs = Vec::new(self.alloc);
        for root in self.roots()? {
            let files = self.files_of(root.as_str())?;
            programs.push(Program { files })?;
        }
        Ok(programs)
    }

    /// The files of the program with this main file.
    pub(crate) fn files_of(&self, path: &str) -> Result<Vec<UnitFile>, AllocError> {
        let places = Places {
            host: &self.host,
            documents: self.documents.as_slice(),
            options: &self.options,
        };
        gather(self.alloc, &places, path)
    }

    /// The paths of the main files: the one of the options, or else each open file that is no header.
    pub(crate) fn roots(&self) -> Result<Vec<String>, AllocError> {
        let mut roots = Vec::new(self.alloc);
        if !self.options.main.is_empty() {
            roots.push(String::from_str(self.alloc, self.options.main.as_str())?)?;
            return Ok(roots);
        }
        for open in &self.documents {
            let path = open.path.as_str();
            if !path.ends_with(".h") && roots.len() < MAX_PROGRAMS {
                roots.push(String::from_str(self.alloc, path)?)?;
            }
        }
        Ok(roots)
    }

    /// Looks at the program of these files, which is then the one whose names are known.
    fn look_at(&mut self, files: Vec<UnitFile>, verifies: bool) -> Result<(), AllocError> {
        let view = View::of(self.alloc, files, self.options.encoding)?;
        self.drop_problems_of(view.root())?;
        if view.is_within_budget() {
            self.ask_all(view.files.as_slice(), faults_within(view.work), verifies)?;
        } else {
            let problem = over_budget(self.alloc, view.files.as_slice(), view.work)?;
            self.put_problem(problem)?;
        }
        self.view = Some(view);
        Ok(())
    }

    /// Requests the faults of a program, or else its warnings and, where that is wanted, the parts that are not verified.
    fn ask_all(
        &mut self,
        files: &[UnitFile],
        most: usize,
        verifies: bool,
    ) -> Result<(), AllocError> {
        let set = set_of(self.alloc, files)?;
        let names = names_of(self.alloc, files)?;
        let Some(unit) = unit_of(files, &set, names.as_slice(), self.options.stack) else {
            return Ok(());
        };
        if self.ask(files, unit, Question::Faults(most), Severity::Error)? {
            return Ok(());
        }
        self.ask(files, unit, Question::Warnings, Severity::Warning)?;
        if verifies {
            self.ask(files, unit, Question::Unverified, Severity::Information)?;
        }
        Ok(())
    }

    /// Asks for findings; returns whether there are some.
    fn ask(
        &mut self,
        files: &[UnitFile],
        unit: Unit<'_>,
        question: Question,
        severity: Severity,
    ) -> Result<bool, AllocError> {
        let alloc = self.alloc;
        let lines = self.host.findings(alloc, question, unit)?;
        let encoding = self.options.encoding;
        let found = read_problems(alloc, lines.as_str(), severity, files, encoding)?;
        let is_found = !found.is_empty();
        for problem in found {
            self.problems.push(problem)?;
        }
        Ok(is_found)
    }

    fn put_problem(&mut self, problem: Option<Problem>) -> Result<(), AllocError> {
        if let Some(problem) = problem {
            self.problems.push(problem)?;
        }
        Ok(())
    }

    /// Forgets the problems of a program.
    fn drop_problems_of(&mut self, root: &str) -> Result<(), AllocError> {
        let old = std::mem::replace(&mut self.problems, Vec::new(self.alloc));
        for problem in old {
            if problem.root.as_str() != root {
                self.problems.push(problem)?;
            }
        }
        Ok(())
    }

    /// Forgets the problems of programs that are no longer examined.
    fn forget_closed(&mut self) -> Result<(), AllocError> {
        let roots = self.roots()?;
        let old = std::mem::replace(&mut self.problems, Vec::new(self.alloc));
        for problem in old {
            if has_text(roots.as_slice(), problem.root.as_str()) {
                self.problems.push(problem)?;
            }
        }
        Ok(())
    }

    /// Publishes the problems of each file that has some, and that those of other files are gone.
    fn publish(&mut self) -> Result<(), AllocError> {
        let alloc = self.alloc;
        let mut uris = Vec::new(alloc);
        for problem in &self.problems {
            put_once(alloc, problem.uri.as_str(), &mut uris)?;
        }
        let with_problems = uris.len();
        for uri in &self.shown {
            put_once(alloc, uri.as_str(), &mut uris)?;
        }
        for open in &self.documents {
            put_once(alloc, open.uri.as_str(), &mut uris)?;
        }
        self.publish_of(uris.as_slice())?;
        uris.truncate(with_problems);
        self.shown = uris;
        Ok(())
    }

    fn publish_of(&mut self, uris: &[String]) -> Result<(), AllocError> {
        let alloc = self.alloc;
        for uri in uris {
            let params = published(alloc, uri.as_str(), self.problems.as_slice())?;
            let message = notification(alloc, "textDocument/publishDiagnostics", params.as_str())?;
            self.send(message)?;
        }
        Ok(())
    }
}

/// How many faults of a program are requested, by its work.
fn faults_within(work: u64) -> usize {
    let count = FAULT_WORK.checked_div(work).unwrap_or(MAX_FAULTS);
    usize::try_from(count.min(MAX_FAULTS).max(1)).unwrap_or(1)
}

/// The action on each program. One whose main file another includes is a part of that.
fn plans_of(
    alloc: Global,
    programs: &[Program],
    changes: &[Change],
) -> Result<Vec<Plan>, AllocError> {
    let mut plans = Vec::new(alloc);
    for (number, program) in programs.iter().enumerate() {
        plans.push(if is_part(programs, number) {
            Plan::Forget
        } else {
            plan_of(program, changes)
        })?;
    }
    Ok(plans)
}

fn plan_of(program: &Program, changes: &[Change]) -> Plan {
    let mut plan = Plan::Leave;
    for change in changes {
        if program.has_path(change.path.as_str()) {
            if change.verifies {
                return Plan::Verify;
            }
            plan = Plan::Look;
        }
    }
    plan
}

fn has_text(texts: &[String], text: &str) -> bool {
    texts.iter().any(|other| other.as_str() == text)
}

/// Adds a text, unless it is there.
fn put_once(alloc: Global, text: &str, texts: &mut Vec<String>) -> Result<(), AllocError> {
    if !has_text(texts.as_slice(), text) {
        texts.push(String::from_str(alloc, text)?)?;
    }
    Ok(())
}
