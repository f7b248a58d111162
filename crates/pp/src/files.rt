//! The files that include one another.
ghost use Rattle.std.specs.Prelude.{◌≡◌, ◌≤◌, ◌<◌, ◌+◌, ℕ, [], suc, true, false, length, slice_get, Ok, Err, IfOk, IfErr, IfSome, OnOk, ◌⊎◌};
ghost use Rattle.srcset.specs.Files.{Files as Set};
ghost use Rattle.srcset.specs.NameTable.{Texts, KeepsNumbers};
ghost use Rattle.srcset.specs.declared.refusal.Refusal.TheVariants.{Memory};
ghost use Rattle.phases.specs.Lines.{scanned};
ghost use Rattle.pp_expand.specs.Expands.{HaveFiles};
ghost use Rattle.pp.specs.Phase4.{State as Done, Outcome, max_includes};
ghost use Rattle.pp.specs.Left.{around_with, is_text_line, ends_run, IsReading, AreStacked, AreOpen, left_of, resumed_all, Left, room_of, Stands};
ghost use Rattle.pp.specs.inside.Including.{IsOpened, CanEnter, Waits, StandsOrWaits, LeftOrStops, LeftOrAnswers, LeftOrGoes, weight, size_of};
ghost use Rattle.pp.specs.Held.{IsSound};
ghost use Rattle.pp.specs.inside.Stepping.{Does, Goes};

use crate::conditionals::Conditionals;
use crate::ends::LineEnds;
use crate::file::{OpenFile, end_done, line_done};
use crate::includes::{Source, include_done, is_include};
use crate::places::Presumed;
use crate::run::Run;
use crate::scans::{Scanned, Scans};
use crate::state::State;
use crate::words::is_text;
use srcset::{FileSet, Names, Refusal};
use std::alloc::Global;
use std::collections::VecDeque;
use std::mem;

/// How many files may be open at once in addition to the main one, each included by the one before it.
pub const MAX_INCLUDES: usize = 32;

/// A file, the lines of which are done one after another.
#[derive(Drop)]
pub struct Reading<'a> {
    pub lines: Scanned<'a>,
    /// How many lines there are.
    pub end: usize,
    /// How many of them are done.
    pub next: usize,
    pub file: OpenFile<'a>,
}

/// A file that waits for the end of the one that it includes.
#[derive(Drop)]
pub struct Includer<'a> {
    pub reading: Reading<'a>,
    /// How places were presumed at the `#include`.
    pub presumed: Presumed,
}

/// The files that are open.
#[derive(Drop)]
pub struct Files<'a> {
    pub innermost: Reading<'a>,
    /// Those that wait, the innermost first.
    pub includers: VecDeque<Includer<'a>>,
    /// Those that were read before.
    pub scans: Scans<'a>,
}

// A file with these lines, at the first one.
fn begun<'a>(alloc: Global, source: &Source<'a>, lines: Scanned<'a>) -> Reading<'a>
    requires small { length source.now.bytes.now ≤ 1048576 }
    requires lines { scanned source.now.name source.now.bytes.now ≡ Ok lines }
    ensures { IsOpened source.now result }
{
    Reading {
        end: lines.len(),
        next: 0,
        file: OpenFile {
            run: Run::new(alloc),
            conditionals: Conditionals::new(alloc),
            ends: LineEnds::new(source.bytes),
        },
        lines,
    }
}

/// A file at its first line. It is scanned whole, so that the faults of phases 1 to 3 come here.
pub fn opened<'a>(
    alloc: Global,
    source: &Source<'a>,
    scans: &mut Scans<'a>,
) -> Result<Reading<'a>, Refusal>
    requires { length source.now.bytes.now ≤ 1048576 }
    ensures ok { IfOk result (IsOpened source.now) }
    ensures err { IfErr result (λ refusal. (refusal ≡ Memory) ⊎ (scanned source.now.name source.now.bytes.now ≡ Err refusal)) }
{
    let lines = scans.take(alloc, source)?;
    Ok(begun(alloc, source, lines))
}

// The same, where the file may be open already, with these lines: then it is not scanned again.
fn opened_again<'a>(
    alloc: Global,
    source: &Source<'a>,
    shared: Option<Scanned<'a>>,
    scans: &mut Scans<'a>,
) -> Result<Reading<'a>, Refusal>
    requires small { length source.now.bytes.now ≤ 1048576 }
    requires lines { IfSome shared (λ lines. scanned source.now.name source.now.bytes.now ≡ Ok lines) }
    ensures ok { IfOk result (IsOpened source.now) }
    ensures err { IfErr result (λ refusal. (refusal ≡ Memory) ⊎ (scanned source.now.name source.now.bytes.now ≡ Err refusal)) }
{
    match shared {
        Some(lines) => Ok(begun(alloc, source, lines)),
        None => opened(alloc, source, scans),
    }
}

impl<'a> Reading<'a> {
    // Whether the next line is text.
    #[inline(always)]
    fn is_before_text(&self) -> bool
        ensures { result ≡ is_text_line (slice_get self.now.lines self.now.next) }
    {
        match self.lines.get(self.next) {
            Some(line) => is_text(line),
            None => false,
        }
    }

    // Processes the next line. Returns the file that it includes, if any; `room` further nested files may still be opened.
    fn line_done(
        &mut self,
        alloc: Global,
        set: &'a FileSet,
        room: usize,
        state: &mut State<'a>,
        names: &mut Names,
    ) -> Result<Option<Source<'a>>, Refusal>
        requires sound { IsSound names.old state.old }
        requires files { HaveFiles names.old self.old.file.run.tokens }
        requires ended { ends_run self.old ≡ false }
        requires idle { self.old.file.run.begun ≡ false → self.old.file.run.tokens ≡ [] }
        requires reading { IsReading self.old }
        requires more { self.old.next < self.old.end }
        ensures waits { (texts : Texts) (o : Outcome Done) → KeepsNumbers names.new texts → Stands names.old state.old self.old.file.run (around_with room set.now texts) self.old.file.conditionals (left_of self.old) o → StandsOrWaits result names.new state.new self.new.file set.now texts room (left_of self.new) o }
        ensures ok { IfOk result (λ included. IfSome included (CanEnter names.new room self.new.file)) }
        ensures files { OnOk result (HaveFiles names.new self.new.file.run.tokens) }
        ensures idle { self.new.file.run.begun ≡ false → self.new.file.run.tokens ≡ [] }
        ensures sound { OnOk result (IsSound names.new state.new) }
        ensures given { state.new.given ≡ state.old.given }
        ensures keeps { KeepsNumbers names.old names.new }
        ensures next { self.new.next ≡ self.old.next + 1 }
        ensures end { self.new.end ≡ self.old.end }
        ensures lines { self.new.lines ≡ self.old.lines }
    {
        let index = self.next;
        self.next = index + 1;
        let Some(line) = self.lines.get(index) else {
            unreachable!();
        };
        if is_include(line) {
            return include_done(alloc, set, room, line, &self.file, state, names);
        }
        line_done(alloc, line, index, &mut self.file, state, names)?;
        Ok(None)
    }
}

impl<'a> Files<'a> {
    /// Whether a run has begun that ends here: no text line follows.
    pub fn run_ends(&self) -> bool
        ensures { result ≡ ends_run self.now.innermost }
    {
        self.innermost.file.run.begun && !self.innermost.is_before_text()
    }

    /// The main file at its first line.
    pub fn new(alloc: Global, main: &Source<'a>) -> Result<Files<'a>, Refusal>
        requires { length main.now.bytes.now ≤ 1048576 }
        ensures ok { IfOk result (λ files. IsOpened main.now files.innermost × (files.includers.items ≡ [])) }
        ensures err { IfErr result (λ refusal. (refusal ≡ Memory) ⊎ (scanned main.now.name main.now.bytes.now ≡ Err refusal)) }
    {
        let mut scans = Scans::new(alloc);
        let innermost = opened(alloc, main, &mut scans)?;
        Ok(Files {
            innermost,
            includers: VecDeque::new(alloc),
            scans,
        })
    }

    // How many further files may be opened, nested.
    fn room(&self) -> usize
        ensures { result ≡ room_of self.now.includers.items }
    {
        MAX_INCLUDES.saturating_sub(self.includers.len())
    }

    // The lines of a file that is open.
    fn open_lines(&self, source: &Source<'a>) -> Option<Scanned<'a>>
        ensures { IfSome result (λ lines. scanned source.now.name source.now.bytes.now ≡ Ok lines) }
    {
        if self.innermost.lines.is_named(source.name) {
            return self.innermost.lines.shared_as(source);
        }
        let index = self
            .includers
            .iter()
            .position(|includer| includer.reading.lines.is_named(source.name))?;
        let includer = self.includers.get(index)?;
        includer.reading.lines.shared_as(source)
    }

    // Opens a file that the innermost one includes, which waits.
    fn enter(
        &mut self,
        alloc: Global,
        source: &Source<'a>,
        state: &mut State<'a>,
    ) -> Result<(), Refusal>
        requires small { length source.now.bytes.now ≤ 1048576 }
        ensures left { (names texts : Texts) (set : Set) (made o : Outcome Done) → Waits names state.old self.old.innermost.file set texts (room_of self.old.includers.items) source.now (left_of self.old.innermost) made → o ≡ resumed_all set texts (room_of self.old.includers.items) self.old.includers.items made → LeftOrStops result names state.new set texts self.new.innermost self.new.includers.items o }
        ensures open { (names : Texts) → AreOpen names self.old.innermost self.old.includers.items → IsSound names state.old → source.now.name < length names → length self.old.includers.items < max_includes → self.old.innermost.file.run.begun ≡ false → self.old.innermost.file.run.tokens ≡ [] → OnOk result (AreOpen names self.new.innermost self.new.includers.items) }
        ensures sound { (names : Texts) → IsSound names state.old → source.now.name < length names → OnOk result (IsSound names state.new) }
        ensures given { state.new.given ≡ state.old.given }
        ensures less { (further : ℕ) → room_of self.old.includers.items ≡ suc further → OnOk result (size_of self.new.innermost self.new.includers.items < size_of self.old.innermost self.old.includers.items + weight (room_of self.old.includers.items)) }
    {
        let shared = self.open_lines(source);
        let reading = opened_again(alloc, source, shared, &mut self.scans)?;
        let includer = Includer {
            reading: mem::replace(&mut self.innermost, reading),
            presumed: state.presumed,
        };
        self.includers.push_front(includer)?;
        state.presumed = Presumed::physical(source.name);
        Ok(())
    }

    // The same, unless the file does nothing.
    fn include(
        &mut self,
        alloc: Global,
        source: &Source<'a>,
        state: &mut State<'a>,
        names: &Names,
    ) -> Result<(), Refusal>
        requires small { length source.now.bytes.now ≤ 1048576 }
        ensures left { (texts : Texts) (set : Set) (made o : Outcome Done) → IsSound names.now state.old → self.old.innermost.file.run.begun ≡ false → self.old.innermost.file.run.tokens ≡ [] → Waits names.now state.old self.old.innermost.file set texts (room_of self.old.includers.items) source.now (left_of self.old.innermost) made → o ≡ resumed_all set texts (room_of self.old.includers.items) self.old.includers.items made → LeftOrStops result names.now state.new set texts self.new.innermost self.new.includers.items o }
        ensures open { AreOpen names.now self.old.innermost self.old.includers.items → IsSound names.now state.old → source.now.name < length names.now → length self.old.includers.items < max_includes → self.old.innermost.file.run.begun ≡ false → self.old.innermost.file.run.tokens ≡ [] → OnOk result (AreOpen names.now self.new.innermost self.new.includers.items) }
        ensures sound { IsSound names.now state.old → source.now.name < length names.now → OnOk result (IsSound names.now state.new) }
        ensures given { state.new.given ≡ state.old.given }
        ensures less { (further : ℕ) → room_of self.old.includers.items ≡ suc further → OnOk result (size_of self.new.innermost self.new.includers.items < size_of self.old.innermost self.old.includers.items + weight (room_of self.old.includers.items)) }
    {
        if self.scans.passes_over(source, state, names) {
            return Ok(());
        }
        self.enter(alloc, source, state)
    }

    // The file that waits for the innermost one goes on, if there is one.
    fn leave(&mut self, alloc: Global, state: &mut State<'a>) -> bool
        ensures left { (names texts : Texts) (set : Set) (inner o : Outcome Done) → AreStacked names self.old.innermost self.old.includers.items → Goes names state.old inner → o ≡ resumed_all set texts (room_of self.old.includers.items) self.old.includers.items inner → LeftOrGoes result names state.new set texts self.new.innermost self.new.includers.items o }
        ensures open { (names : Texts) → AreStacked names self.old.innermost self.old.includers.items → result ≡ true → AreOpen names self.new.innermost self.new.includers.items }
        ensures sound { (names : Texts) → AreStacked names self.old.innermost self.old.includers.items → IsSound names state.old → IsSound names state.new }
        ensures given { state.new.given ≡ state.old.given }
        ensures less { (names : Texts) → AreStacked names self.old.innermost self.old.includers.items → result ≡ true → size_of self.new.innermost self.new.includers.items < size_of self.old.innermost self.old.includers.items }
    {
        let Some(includer) = self.includers.pop_front() else {
            return false;
        };
        let ended = mem::replace(&mut self.innermost, includer.reading);
        self.scans.keep(alloc, ended.lines);
        state.presumed = includer.presumed;
        true
    }

    // Does the next line of the innermost file.
    fn line_done(
        &mut self,
        alloc: Global,
        set: &'a FileSet,
        state: &mut State<'a>,
        names: &mut Names,
    ) -> Result<(), Refusal>
        requires sound { IsSound names.old state.old }
        requires open { AreOpen names.old self.old.innermost self.old.includers.items }
        requires ended { ends_run self.old.innermost ≡ false }
        requires more { self.old.innermost.next < self.old.innermost.end }
        ensures left { (texts : Texts) (o : Outcome Done) → KeepsNumbers names.new texts → Left names.old state.old set.now texts self.old.innermost self.old.includers.items o → LeftOrStops result names.new state.new set.now texts self.new.innermost self.new.includers.items o }
        ensures open { OnOk result (AreOpen names.new self.new.innermost self.new.includers.items) }
        ensures sound { OnOk result (IsSound names.new state.new) }
        ensures given { state.new.given ≡ state.old.given }
        ensures less { OnOk result (size_of self.new.innermost self.new.includers.items < size_of self.old.innermost self.old.includers.items) }
        ensures keeps { KeepsNumbers names.old names.new }
    {
        let room = self.room();
        match self.innermost.line_done(alloc, set, room, state, names)? {
            None => Ok(()),
            Some(source) => self.include(alloc, &source, state, names),
        }
    }

    /// Does the next line, or ends the innermost file. Whether anything is left. No run ends there: it is taken before.
    pub fn step(
        &mut self,
        alloc: Global,
        set: &'a FileSet,
        state: &mut State<'a>,
        names: &mut Names,
    ) -> Result<bool, Refusal>
        requires sound { IsSound names.old state.old }
        requires open { AreOpen names.old self.old.innermost self.old.includers.items }
        requires ended { ends_run self.old.innermost ≡ false }
        ensures left { (texts : Texts) (o : Outcome Done) → KeepsNumbers names.new texts → Left names.old state.old set.now texts self.old.innermost self.old.includers.items o → LeftOrAnswers result names.new state.new set.now texts self.new.innermost self.new.includers.items o }
        ensures open { IfOk result (λ more. more ≡ true → AreOpen names.new self.new.innermost self.new.includers.items) }
        ensures sound { OnOk result (IsSound names.new state.new) }
        ensures given { state.new.given ≡ state.old.given }
        ensures less { IfOk result (λ more. more ≡ true → size_of self.new.innermost self.new.includers.items < size_of self.old.innermost self.old.includers.items) }
        ensures keeps { KeepsNumbers names.old names.new }
    {
        if self.innermost.next < self.innermost.end {
            self.line_done(alloc, set, state, names)?;
            return Ok(true);
        }
        end_done(&self.innermost.file, state)?;
        Ok(self.leave(alloc, state))
    }
}
