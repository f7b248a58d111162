//! Phase 4 as a stream of tokens.
ghost use Rattle.std.specs.Prelude.{◌≡◌, ◌≤◌, ◌<◌, true, false, None, IfOk, IfErr};
ghost use Rattle.srcset.specs.NameTable.{Texts, KeepsNumbers};
ghost use Rattle.pp.specs.Phase4.{Phase4, phase4, max_tokens};
ghost use Rattle.pp.specs.Preprocessed.{IsRefused, IsPreprocessFault, IsUnbegun, IsUnbegunFault};
ghost use Rattle.pp.specs.Stream.{taken_of, IsRest, IsStream, IsAnswer, IsToldAnswer};
ghost use Rattle.pp.specs.inside.Reading.{stage_after, is_reading, is_pulling, run_ends, end_of, size_by, OpenBy, IsPulled};

use crate::files::Files;
use crate::includes::Source;
use crate::pulling::{pull_run, refusal_behind};
use crate::state::State;
use phases::PpToken;
use pp_expand::{Expander, RunEnd};
use srcset::{Code, Fault, FileSet, Names, Pos, Refusal};
use std::alloc::Global;
use std::mem;

/// The greatest number of tokens after phase 4.
const MAX_TOKENS: usize = 1048576;

/// How far a stream is.
#[derive(Clone, Copy)]
pub enum Stage {
    /// Lines are left.
    Reads,
    /// A run is pulled, and lines after it are left.
    Pulls,
    /// All lines are done.
    Ended,
    /// It was refused.
    Refused(Refusal),
}

/// The tokens after translation phase 4 of a set of files, one after the other (ISO/IEC 9899:2011 5.1.1.2, 6.10). Nothing of a run is expanded before it is
/// requested.
#[derive(Drop)]
pub struct Pp<'a> {
    set: &'a FileSet,
    files: Files<'a>,
    state: State<'a>,
    // The rest of the run that is pulled, if there is one.
    run: Expander<'a>,
    stage: Stage,
}

// The stage of a stream after a step, which says whether lines are left.
fn stage_after(done: Result<bool, Refusal>) -> Stage
    ensures { result ≡ stage_after done }
{
    match done {
        Ok(true) => Stage::Reads,
        Ok(false) => Stage::Ended,
        Err(refusal) => Stage::Refused(refusal),
    }
}

impl Stage {
    // Whether lines are read.
    #[inline(always)]
    fn is_reading(self) -> bool
        ensures { result ≡ is_reading self }
    {
        match self {
            Stage::Reads => true,
            Stage::Pulls => false,
            Stage::Ended => false,
            Stage::Refused(_) => false,
        }
    }

    // Whether a run is pulled.
    #[inline(always)]
    fn is_pulling(self) -> bool
        ensures { result ≡ is_pulling self }
    {
        match self {
            Stage::Reads => false,
            Stage::Pulls => true,
            Stage::Ended => false,
            Stage::Refused(_) => false,
        }
    }
}

impl<'a> Pp<'a> {
    /// The stream of the file `main` of the set. Its name gets a number in `names`.
    ///
    /// Refused as `try_preprocess` is, where the set has no file of that name, and with the faults of phases 1 to 3 of this file.
    pub fn try_new(
        alloc: Global,
        set: &'a FileSet,
        names: &mut Names,
        main: &str,
    ) -> Result<Pp<'a>, Refusal>
        ensures ok { IfOk result (λ pp. (texts : Texts) → KeepsNumbers names.new texts → IsRest names.new texts pp (phase4 set.now texts main.now)) }
        ensures stream { IfOk result (IsStream names.new) }
        ensures none { IfOk result (λ pp. taken_of pp ≡ 0) }
        ensures err { IfErr result (λ refusal. (texts : Texts) → KeepsNumbers names.new texts → IsRefused set.now texts main.now refusal) }
        ensures unbegun { IfErr result (λ refusal. (texts : Texts) → KeepsNumbers names.new texts → IsUnbegun set.now texts main.now refusal) }
        ensures keeps { KeepsNumbers names.old names.new }
    {
        let Ok(file) = names.intern(main.as_bytes()) else {
            return Err(Refusal::Memory);
        };
        let Some(bytes) = set.get(main) else {
            let pos = Pos { file, line: 0 };
            return Err(Refusal::At {
                code: Code::NoMainFile,
                pos,
            });
        };
        let source = Source { name: file, bytes };
        let files = Files::new(alloc, &source)?;
        Ok(Pp {
            set,
            files,
            state: State::new(alloc, file),
            run: Expander::new(alloc, Vec::new(alloc), RunEnd::Run),
            stage: Stage::Reads,
        })
    }

    /// The stream of the file `main` of the set, as `try_new` gives it.
    ///
    /// A refusal is the fault under the name that its place has; 801 where memory runs out.
    pub fn new(
        alloc: Global,
        set: &'a FileSet,
        names: &mut Names,
        main: &str,
    ) -> Result<Pp<'a>, Fault>
        ensures ok { IfOk result (λ pp. (texts : Texts) → KeepsNumbers names.new texts → IsRest names.new texts pp (phase4 set.now texts main.now)) }
        ensures stream { IfOk result (IsStream names.new) }
        ensures none { IfOk result (λ pp. taken_of pp ≡ 0) }
        ensures err { IfErr result (λ fault. IsPreprocessFault fault set.now names.new main.now) }
        ensures unbegun { IfErr result (λ fault. IsUnbegunFault fault set.now names.new main.now) }
        ensures keeps { KeepsNumbers names.old names.new }
    {
        match Pp::try_new(alloc, set, names, main) {
            Ok(pp) => Ok(pp),
            Err(refusal) => Err(refusal.to_fault(alloc, names)),
        }
    }

    // Does the next line, or ends a file.
    fn read(&mut self, alloc: Global, names: &mut Names)
        requires stream { IsStream names.old self.old }
        requires reads { is_reading self.old.stage ≡ true }
        ensures rest { (texts : Texts) (rest : Phase4) → KeepsNumbers names.new texts → IsRest names.old texts self.old rest → IsRest names.new texts self.new rest }
        ensures open { OpenBy self.new.stage names.new self.new }
        ensures taken { taken_of self.new ≡ taken_of self.old }
        ensures less { size_by self.new.stage self.new < size_by self.old.stage self.old }
        ensures keeps { KeepsNumbers names.old names.new }
    {
        let done = self.files.step(alloc, self.set, &mut self.state, names);
        self.stage = stage_after(done);
    }

    // Whether a run ends before the next line.
    fn run_ends(&self) -> bool
        ensures { result ≡ run_ends self.now }
    {
        self.stage.is_reading() && self.files.run_ends()
    }

    // Begins to pull the run that ends.
    fn begin(&mut self, alloc: Global)
        requires { run_ends self.old ≡ true }
        ensures rest { (names texts : Texts) (rest : Phase4) → OpenBy self.old.stage names self.old → IsRest names texts self.old rest → IsRest names texts self.new rest }
        ensures stream { (names : Texts) → taken_of self.old ≤ max_tokens → OpenBy self.old.stage names self.old → IsStream names self.new }
        ensures taken { taken_of self.new ≡ taken_of self.old }
        ensures size { size_by self.new.stage self.new ≡ size_by self.old.stage self.old }
    {
        let tokens = self.files.innermost.file.run.take(alloc);
        let _before = mem::replace(&mut self.run, Expander::of(alloc, tokens, RunEnd::Run));
        self.stage = Stage::Pulls;
    }

    // Processes the next line, or ends a file. A run that ends after it is pulled next.
    fn step(&mut self, alloc: Global, names: &mut Names)
        requires stream { IsStream names.old self.old }
        requires reads { is_reading self.old.stage ≡ true }
        ensures rest { (texts : Texts) (rest : Phase4) → KeepsNumbers names.new texts → IsRest names.old texts self.old rest → IsRest names.new texts self.new rest }
        ensures stream { IsStream names.new self.new }
        ensures taken { taken_of self.new ≡ taken_of self.old }
        ensures less { size_by self.new.stage self.new < size_by self.old.stage self.old }
        ensures keeps { KeepsNumbers names.old names.new }
    {
        self.read(alloc, names);
        if self.run_ends() {
            self.begin(alloc);
        }
    }

    // The next token of the run that is pulled, if there is one. After its last one lines are read.
    #[inline(always)]
    fn pull(&mut self, alloc: Global, names: &Names) -> Option<PpToken<'a>>
        requires { IsStream names.now self.old }
        ensures pulled { IsPulled result names.now self.old self.new }
        ensures stream { IsStream names.now self.new }
        ensures stage { result ≡ None → is_pulling self.new.stage ≡ false }
        ensures size { size_by self.new.stage self.new ≤ size_by self.old.stage self.old }
    {
        if !self.stage.is_pulling() {
            return None;
        }
        match pull_run(alloc, &mut self.run, &mut self.state, names) {
            Ok(given) => {
                let Some(token) = given else {
                    self.stage = Stage::Reads;
                    return None;
                };
                if self.state.given < MAX_TOKENS {
                    self.state.given += 1;
                    return Some(token);
                }
                let refusal = refusal_behind(
                    alloc,
                    &mut self.run,
                    &mut self.state,
                    token.pos(),
                    names,
                );
                self.stage = Stage::Refused(refusal);
                None
            }
            Err(refusal) => {
                self.stage = Stage::Refused(refusal);
                None
            }
        }
    }

    // The end of the stream.
    fn end(&self) -> Result<Option<PpToken<'a>>, Refusal>
        ensures { result ≡ end_of self.now.stage }
    {
        match self.stage {
            Stage::Reads => Ok(None),
            Stage::Pulls => Ok(None),
            Stage::Ended => Ok(None),
            Stage::Refused(refusal) => Err(refusal),
        }
    }

    /// The next token, with its file and its line, counted from 1. `None` after the last one. New names get numbers in `names`,
    /// which is the table that `new` had, or one with further texts.
    ///
    /// Refused with the fault in which phase 4 ends, once no token is left. `Memory` where memory runs out. A stream that was
    /// refused is refused again.
    pub fn try_next(
        &mut self,
        alloc: Global,
        names: &mut Names,
    ) -> Result<Option<PpToken<'a>>, Refusal>
        requires { IsStream names.old self.old }
        ensures answer { IsAnswer result names.old names.new self.old self.new }
        ensures stream { IsStream names.new self.new }
        ensures keeps { KeepsNumbers names.old names.new }
    {
        'steps: loop {
            if let Some(token) = self.pull(alloc, names) {
                return Ok(Some(token));
            }
            if !self.stage.is_reading() {
                return self.end();
            }
            self.step(alloc, names);
        }
    }

    /// The next token, as `try_next` gives it.
    ///
    /// A refusal is the fault under the name that its place has; 801 where memory runs out.
    pub fn next(&mut self, alloc: Global, names: &mut Names) -> Result<Option<PpToken<'a>>, Fault>
        requires { IsStream names.old self.old }
        ensures answer { IsToldAnswer result names.old names.new self.old self.new }
        ensures stream { IsStream names.new self.new }
        ensures keeps { KeepsNumbers names.old names.new }
    {
        match self.try_next(alloc, names) {
            Ok(token) => Ok(token),
            Err(refusal) => Err(refusal.to_fault(alloc, names)),
        }
    }
}
