//! The verdict on a program.

ghost use Rattle.std.specs.Prelude.{◌≡◌, length, IfOk, IsTrue};
ghost use Rattle.typed_ast.specs.View.{program_of};
ghost use Rattle.verify_logic.specs.Whole.{IsDefinedBut};
ghost use Rattle.verify.specs.Says.{IsSoundWork, Says, SaysTurn, Shows};

use crate::bodies::{BodyEnd, call_shown, main_shown};
use crate::work::Work;
use srcset::Pos;
use std::alloc::{AllocError, Global};
use typed_ast::Program;
use verify_expressions::{
    Alarm, Memory, Stop, Summary, Wanted, enter_body, met_elements, new_memory,
};

/// The greatest depth of nested calls that are analysed.
const DEPTH: usize = 64;

/// The default limit of analysis steps: a statement and a comparison take one each time, and more if there are many objects.
pub const USUAL_EFFORT: u64 = 15_000_000;

/// The greatest number of bodies that are analysed.
const TURNS: u32 = 20_000;

/// What was shown of a program. The analysis is sound and not complete: no verdict claims that a program is wrong.
#[derive(Drop)]
pub enum Verdict {
    /// No undefined behaviour is met, on any input.
    Defined,
    /// Undefined behaviour is met at most at these places, on any input; for each, why it was not ruled out.
    DefinedBut(Vec<Pos>, Vec<Alarm>),
    /// The analysis is not possible, near this place.
    Unknown(Option<Pos>),
}

/// A verdict, or the work that is left.
#[derive(Drop)]
enum Turn {
    Done(Verdict),
    More(Work),
}

fn are_none(places: &[Pos]) -> bool
    ensures { IsTrue result → length places.now ≡ 0 }
{
    places.is_empty()
}

/// The verdict if the whole program was analysed.
fn concluded(program: &Program, work: Work) -> Verdict
    requires { IsDefinedBut (program_of program.now) work.listed.items }
    ensures { Says (program_of program.now) result }
{
    let none = are_none(&work.listed);
    if none {
        Verdict::Defined
    } else {
        Verdict::DefinedBut(work.listed, work.alarms)
    }
}

/// Records the place of an alarm.
fn alarmed(program: &Program, work: Work, alarm: Alarm) -> Result<Work, AllocError>
    requires { IsSoundWork (program_of program.now) work }
    ensures { IfOk result (λ w. IsSoundWork (program_of program.now) w) }
{
    let mut listed = work.listed;
    let Ok(()) = listed.push(alarm.at) else {
        return Err(AllocError);
    };
    let mut alarms = work.alarms;
    let Ok(()) = alarms.push(alarm) else {
        return Err(AllocError);
    };
    Ok(Work {
        listed,
        alarms,
        summaries: work.summaries,
        wanted: work.wanted,
    })
}

/// Requests the analysis of a call.
fn asked(program: &Program, work: Work, call: Wanted) -> Result<Work, AllocError>
    requires { IsSoundWork (program_of program.now) work }
    ensures { IfOk result (λ w. IsSoundWork (program_of program.now) w) }
{
    let mut wanted = work.wanted;
    let Ok(()) = wanted.push(call) else {
        return Err(AllocError);
    };
    Ok(Work {
        listed: work.listed,
        alarms: work.alarms,
        summaries: work.summaries,
        wanted,
    })
}

/// Records what was shown of a call.
fn learnt(program: &Program, work: Work, call: Wanted, end: BodyEnd) -> Result<Work, AllocError>
    requires sound { IsSoundWork (program_of program.now) work }
    requires new { Shows (program_of program.now) work call end }
    ensures { IfOk result (λ w. IsSoundWork (program_of program.now) w) }
{
    let summary = Summary {
        function: call.function,
        outer: call.outer,
        arrays: call.arrays,
        entry: call.entry,
        value: end.value,
        left: end.state.objects,
    };
    let mut summaries = work.summaries;
    let Ok(()) = summaries.push(summary) else {
        return Err(AllocError);
    };
    Ok(Work {
        listed: work.listed,
        alarms: work.alarms,
        summaries,
        wanted: work.wanted,
    })
}

/// Continues after an analysis stopped.
fn stopped(program: &Program, work: Work, stop: Stop) -> Result<Turn, AllocError>
    requires { IsSoundWork (program_of program.now) work }
    ensures { IfOk result (λ t. SaysTurn (program_of program.now) t) }
{
    match stop {
        Stop::Memory => Err(AllocError),
        Stop::Unfollowed(at) => Ok(Turn::Done(Verdict::Unknown(at))),
        Stop::Alarm(alarm) => {
            let more = alarmed(program, work, alarm)?;
            Ok(Turn::More(more))
        }
        Stop::Wanted(call) => {
            if work.wanted.len() >= DEPTH {
                return Ok(Turn::Done(Verdict::Unknown(None)));
            }
            let more = asked(program, work, call)?;
            Ok(Turn::More(more))
        }
    }
}

fn main_turn(memory: &Memory, program: &Program, work: Work) -> Result<Turn, AllocError>
    requires { IsSoundWork (program_of program.now) work }
    ensures { IfOk result (λ t. SaysTurn (program_of program.now) t) }
{
    enter_body(memory, 0);
    match main_shown(memory, program, &work) {
        Ok(()) => Ok(Turn::Done(concluded(program, work))),
        Err(stop) => stopped(program, work, stop),
    }
}

fn call_turn(
    memory: &Memory,
    program: &Program,
    work: Work,
    call: Wanted,
) -> Result<Turn, AllocError>
    requires { IsSoundWork (program_of program.now) work }
    ensures { IfOk result (λ t. SaysTurn (program_of program.now) t) }
{
    enter_body(memory, work.wanted.len().saturating_add(1));
    match call_shown(memory, program, &work, &call) {
        Ok(end) => {
            let more = learnt(program, work, call, end)?;
            Ok(Turn::More(more))
        }
        Err(stop) => {
            let again = asked(program, work, call)?;
            stopped(program, again, stop)
        }
    }
}

/// The work without the latest requested call, and that call.
#[derive(Drop)]
struct Popped {
    work: Work,
    call: Option<Wanted>,
}

fn pop_wanted(program: &Program, work: Work) -> Popped
    requires { IsSoundWork (program_of program.now) work }
    ensures { IsSoundWork (program_of program.now) result.work }
{
    let mut wanted = work.wanted;
    let call = wanted.pop();
    Popped {
        work: Work {
            listed: work.listed,
            alarms: work.alarms,
            summaries: work.summaries,
            wanted,
        },
        call,
    }
}

fn turned(memory: &Memory, program: &Program, work: Work) -> Result<Turn, AllocError>
    requires { IsSoundWork (program_of program.now) work }
    ensures { IfOk result (λ t. SaysTurn (program_of program.now) t) }
{
    let Popped { work, call } = pop_wanted(program, work);
    match call {
        None => main_turn(memory, program, work),
        Some(call) => call_turn(memory, program, work, call),
    }
}

fn nothing(alloc: Global, program: &Program) -> Work
    ensures { IsSoundWork (program_of program.now) result }
{
    Work {
        listed: Vec::new(alloc),
        alarms: Vec::new(alloc),
        summaries: Vec::new(alloc),
        wanted: Vec::new(alloc),
    }
}

/// Analyses a program. A turn analyses one body: that of main, or of a function that is called with arguments that were not analysed yet.
/// Each place that is not ruled out is listed.
fn analysed(memory: &Memory, program: &Program) -> Result<Verdict, AllocError>
    ensures { IfOk result (λ v. Says (program_of program.now) v) }
{
    let mut work = nothing(memory.alloc, program);
    for _turn in 0..TURNS {
        match turned(memory, program, work) {
            Err(fault) => return Err(fault),
            Ok(Turn::Done(verdict)) => return Ok(verdict),
            Ok(Turn::More(more)) => work = more,
        }
    }
    Ok(Verdict::Unknown(None))
}

fn is_followed(verdict: &Verdict) -> bool {
    match verdict {
        Verdict::Defined => true,
        Verdict::DefinedBut(_, _) => true,
        Verdict::Unknown(_) => false,
    }
}

/// Analyses a program within this many steps. If the analysis with single elements of arrays does not finish within half of the steps, it
/// begins again without them.
///
/// Errors: memory ran out.
pub fn verify(alloc: Global, program: &Program, effort: u64) -> Result<Verdict, AllocError>
    ensures { IfOk result (λ v. Says (program_of program.now) v) }
{
    let memory = new_memory(alloc, effort, true);
    let first = analysed(&memory, program)?;
    let ends = is_followed(&first) || !met_elements(&memory);
    if ends {
        return Ok(first);
    }
    let again = new_memory(alloc, effort, false);
    let second = analysed(&again, program)?;
    Ok(second)
}
