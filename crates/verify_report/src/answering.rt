//! The verdict on a set of files.

ghost use Rattle.std.specs.Prelude.{◌≡◌, [], IfErr, IfOk, IfSome};
ghost use Rattle.typed_ast.specs.View.{program_of};
ghost use Rattle.cc_backend.specs.Made.{IsReady};
ghost use Rattle.cc.specs.Refused.{IsRefused};
ghost use Rattle.verify_build.specs.Verified.{IsShown, IsVerified};

use crate::placing::{by_lines, by_tokens, have_same_lines};
use crate::stack::{Stack, stack_of};
use crate::telling::{tell_acts, tell_defined, tell_not_followed};
use cc::{StackSize, checked_program};
use lint_report::{Files, Form};
use srcset::{Code, Fault, FileSet, Names};
use std::alloc::{AllocError, Global};
use typed_ast::Program;
use verify::{Verdict, verify};
use verify_build::{Verified, judge};
use verify_expressions::Alarm;

/// The options of a verification.
#[derive(Clone, Copy)]
pub struct Asked<'a> {
    /// The names of its files.
    pub names: &'a [&'a str],
    /// The file that is translated, and the one that the command names.
    pub main: &'a str,
    pub given: &'a str,
    pub stack: StackSize,
    /// How many steps an analysis takes at most.
    pub effort: u64,
    pub form: Form,
    /// The version of the program that reports.
    pub version: &'a str,
}

impl<'a> Asked<'a> {
    /// The name of the generated file; empty where there is none.
    fn made_file(&self) -> &'a str {
        if self.main == self.given {
            ""
        } else {
            self.main
        }
    }
}

/// The report on a program.
#[derive(Drop)]
pub struct Said {
    pub out: String,
    /// The file of the program, where it is defined on every input and its stack suffices.
    pub file: Option<Verified>,
}

/// Reports whether the program of these sources has undefined behaviour, on any input, and how much of its stack it takes; where it is defined and the stack
/// suffices, returns its file too.
///
/// Refuses as `cc::compile_with` does.
pub fn verify_sources(alloc: Global, set: &FileSet, asked: &Asked<'_>) -> Result<Said, Fault>
    ensures verified { IfOk result (λ said. IfSome said.file (λ v. IsVerified asked.now.stack set.now asked.now.main.now v.built v.most)) }
    ensures refused { IfErr result (λ fault. IsRefused asked.now.stack set.now asked.now.main.now fault) }
{
    let mut names = Names::new(alloc);
    let program = match checked_program(alloc, set, asked.main, &mut names, asked.stack) {
        Ok(program) => program,
        Err(fault) => return Err(fault),
    };
    match judged(alloc, set, &program, &names, asked) {
        Ok(said) => Ok(said),
        Err(_) => Err(Fault::memory(alloc)),
    }
}

/// The report on a typed program.
fn judged(
    alloc: Global,
    set: &FileSet,
    program: &Program,
    names: &Names,
    asked: &Asked<'_>,
) -> Result<Said, AllocError>
    requires { IsReady (program_of program.now) }
    ensures { IfOk result (λ said. IfSome said.file (λ v. IsShown asked.now.stack names.now (program_of program.now) v.built v.most)) }
{
    let judged = judge(alloc, program, names, asked.stack, asked.effort)?;
    let stack = stack_of(alloc, program, names, &judged.bound, asked.stack)?;
    let out = told(alloc, set, names, &judged.verdict, &stack, asked)?;
    Ok(Said {
        out,
        file: judged.file,
    })
}

fn told(
    alloc: Global,
    set: &FileSet,
    names: &Names,
    verdict: &Verdict,
    stack: &Stack,
    asked: &Asked<'_>,
) -> Result<String, AllocError> {
    match verdict {
        Verdict::Defined => tell_defined(alloc, stack, asked),
        Verdict::DefinedBut(_, alarms) => {
            with_alarms(alloc, set, names, alarms.as_slice(), stack, asked)
        }
        Verdict::Unknown(at) => tell_not_followed(alloc, names, *at, stack, asked),
    }
}

/// The places of alarms: with their tokens, where the program laid out a token a line has alarms at the same lines, and else by their lines.
fn with_alarms(
    alloc: Global,
    set: &FileSet,
    names: &Names,
    alarms: &[Alarm],
    stack: &Stack,
    asked: &Asked<'_>,
) -> Result<String, AllocError> {
    let files = Files::of(alloc, set, asked.names, asked.made_file())?;
    let plain = by_lines(alloc, alarms)?;
    let mut laid_names = Names::new(alloc);
    let laid = laid_alarms(alloc, &files, &mut laid_names, asked)?;
    let exact = by_tokens(alloc, &files, &laid_names, laid.as_slice())?;
    if have_same_lines(names, plain.as_slice(), &laid_names, exact.as_slice()) {
        tell_acts(alloc, &files, &laid_names, exact.as_slice(), stack, asked)
    } else {
        tell_acts(alloc, &files, names, plain.as_slice(), stack, asked)
    }
}

/// The alarms of the program laid out a token a line; none where that is not available.
fn laid_alarms(
    alloc: Global,
    files: &Files<'_>,
    names: &mut Names,
    asked: &Asked<'_>,
) -> Result<Vec<Alarm>, AllocError>
    requires { names.old ≡ [] }
{
    if !files.is_laid {
        return Ok(Vec::new(alloc));
    }
    let Some(set) = files.laid_set(alloc)? else {
        return Ok(Vec::new(alloc));
    };
    match checked_program(alloc, &set, asked.main, names, asked.stack) {
        Ok(program) => alarms_of(alloc, &program, asked.effort),
        Err(fault) => if fault.code == Code::OutOfMemory.number() {
            Err(AllocError)
        } else {
            Ok(Vec::new(alloc))
        },
    }
}

fn alarms_of(alloc: Global, program: &Program, effort: u64) -> Result<Vec<Alarm>, AllocError> {
    match verify(alloc, program, effort)? {
        Verdict::DefinedBut(_, alarms) => Ok(alarms),
        Verdict::Defined | Verdict::Unknown(_) => Ok(Vec::new(alloc)),
    }
}
