//! The faults of a program, explained.

ghost use Rattle.std.specs.Prelude.{◌≡◌, IfNone, IfOk, IfSome};
ghost use Rattle.cc.specs.Refused.{IsRefused};
ghost use Rattle.explain.specs.Accepted.{IsAccepted, IsPassed, is_met};
ghost use Rattle.explain.specs.declared.explaining.Stage.TheVariants.{Whole};

use cc::{StackSize, compile_with};
use explain_findings::{
    Answer, Asking, Compiler, Finding, Includes, Place, Sources, notes, place_of, show_place,
    spots_to_pass,
};
use explain_places::blank;
use srcset::{Code, Fault, FileSet};
use std::alloc::{AllocError, Global};

/// The maximum number of faults reported where no other number is requested.
pub const USUAL_FAULTS: usize = 20;

/// How far a program is checked.
#[derive(Clone, Copy, Debug, PartialEq, Eq)]
pub enum Stage {
    /// Up to preprocessing: translation phases 1 to 4.
    Preprocessing,
    /// As a whole.
    Whole,
}

/// The faults of a program.
#[derive(Drop)]
pub struct Explained {
    /// The fault that the compiler reports.
    pub first: Finding,
    /// The faults that the compiler would report next without the statements, or the function bodies, of those before; in the order of the source.
    pub further: Vec<Finding>,
}

/// Why the program in the file `main` of the set is refused; `None` where it is not, at this stage. `names` are those of
/// the files of the set, `stack` is the size of its stack, and `most` is the maximum number of reported faults. An error: out of memory.
pub fn explain(
    alloc: Global,
    set: &FileSet,
    names: &[&str],
    main: &str,
    stage: Stage,
    stack: StackSize,
    most: usize,
) -> Result<Option<Explained>, AllocError>
    ensures refused { IfOk result (λ told. IfSome told (λ explained. IsRefused stack set.now main.now explained.first.fault)) }
    ensures accepted { stage ≡ Whole → IfOk result (λ told. IfNone told (IsAccepted stack set.now main.now)) }
    ensures passed { IfOk result (λ told. IfNone told (IsPassed stage stack set.now main.now)) }
{
    let fault = match compile_with(alloc, set, main, stack) {
        Ok(_) => return Ok(None),
        Err(fault) => fault,
    };
    if !is_met(stage, fault.code) {
        return Ok(None);
    }
    if fault.code == Code::OutOfMemory.number() {
        return Err(AllocError);
    }
    let sources = Sources::of(alloc, set, names)?;
    let includes = Includes::of(alloc, &sources, sources.number(main).unwrap_or(0))?;
    let mut looking = Looking {
        set,
        sources,
        includes,
        main,
        compiler: ForStack { stack },
    };
    let first = looking.told(alloc, fault)?;
    let further = looking.further(alloc, stage, most, &first)?;
    Ok(Some(Explained { first, further }))
}

/// The compiler, for a size of the stack.
#[derive(Drop)]
struct ForStack {
    stack: StackSize,
}

impl Compiler for ForStack {
    fn fault_of(
        &self,
        alloc: Global,
        set: &FileSet,
        main: &str,
    ) -> Result<Option<Fault>, AllocError> {
        match compile_with(alloc, set, main, self.stack) {
            Ok(_) => Ok(None),
            Err(fault) => if fault.code == Code::OutOfMemory.number() {
                Err(AllocError)
            } else {
                Ok(Some(fault))
            },
        }
    }
}

/// Whether a fault of this code is met so far.
fn is_met(stage: Stage, code: u16) -> bool
    ensures { result ≡ is_met stage code }
{
    match stage {
        Stage::Whole => true,
        Stage::Preprocessing => matches!(code, 101..=235 | 701..=708 | 801..=907),
    }
}

/// A program whose faults are looked for.
#[derive(Drop)]
struct Looking<'a> {
    set: &'a FileSet,
    /// Its sources, in which the skipped parts are blank.
    sources: Sources,
    includes: Includes,
    main: &'a str,
    compiler: ForStack,
}

impl<'a> Looking<'a> {
    fn asking(&self) -> Asking<'_, ForStack> {
        Asking {
            sources: &self.sources,
            main: self.main,
            compiler: &self.compiler,
        }
    }

    /// A fault with its explanation. The set has the texts as they were given.
    fn told(&self, alloc: Global, fault: Fault) -> Result<Finding, AllocError>
        ensures { IfOk result (λ found. found.fault ≡ fault) }
    {
        let asking = self.asking();
        let place = place_of(alloc, &asking, &fault)?;
        let noted = notes(alloc, &asking, &self.includes, place, &fault)?;
        let shown = show_place(
            alloc,
            self.set,
            fault.file.as_str(),
            fault.line,
            place,
            noted,
        )?;
        Ok(Finding { fault, shown })
    }

    /// The next faults: each time the statement or the function body that contains the last one is skipped.
    fn further(
        &mut self,
        alloc: Global,
        stage: Stage,
        most: usize,
        first: &Finding,
    ) -> Result<Vec<Finding>, AllocError> {
        let mut found = Vec::new(alloc);
        let mut place = first.shown.place;
        let mut code = first.fault.code;
        for _ in 1..most {
            let Some(at) = place else {
                break;
            };
            if !pass_over(alloc, &mut self.sources, at, code)? {
                break;
            }
            let Some(fault) = self.next_fault(alloc, stage)? else {
                break;
            };
            let finding = self.told(alloc, fault)?;
            place = finding.shown.place;
            code = finding.fault.code;
            put_sorted(&mut found, finding)?;
        }
        Ok(found)
    }

    fn next_fault(&self, alloc: Global, stage: Stage) -> Result<Option<Fault>, AllocError> {
        let none = self.sources.files.len();
        match self.asking().answer_with(alloc, none, b"")? {
            Answer::Refused(fault) if is_met(stage, fault.code) => Ok(Some(fault)),
            _ => Ok(None),
        }
    }
}

/// Puts a finding after those that precede it in the sources.
fn put_sorted(found: &mut Vec<Finding>, finding: Finding) -> Result<(), AllocError> {
    let at = match found.iter().position(|other| is_behind(other, &finding)) {
        Some(at) => at,
        None => found.len(),
    };
    found.insert(at, finding)?;
    Ok(())
}

/// Whether a finding follows another in the sources; one without a place follows all.
fn is_behind(one: &Finding, other: &Finding) -> bool {
    match (one.shown.place, other.shown.place) {
        (Some(one), Some(other)) => {
            one.file > other.file || one.file == other.file && one.start > other.start
        }
        (None, Some(_)) => true,
        (Some(_), None) => false,
        (None, None) => false,
    }
}

/// Makes the statement around a place empty, or else the function body; returns whether there is one.
fn pass_over(
    alloc: Global,
    sources: &mut Sources,
    place: Place,
    code: u16,
) -> Result<bool, AllocError> {
    let spots = spots_to_pass(alloc, sources.text(place.file), place.start, code)?;
    if spots.is_empty() {
        return Ok(false);
    }
    match sources.text_mut(place.file) {
        Some(text) => blank(text.as_mut_slice(), spots.as_slice()),
        None => return Ok(false),
    }
    Ok(true)
}
