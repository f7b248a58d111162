//! Files that were read, so that one that is included again is passed over, or need not be scanned again.
ghost use Rattle.std.specs.Prelude.{◌≡◌, ◌≤◌, length, slice_get, option_map, true, All, Ok, Err, IfOk, IfErr, IfSome, ◌⊎◌};
ghost use Rattle.srcset.specs.declared.refusal.Refusal.TheVariants.{Memory};
ghost use Rattle.phases.specs.Lines.{scanned};
ghost use Rattle.pp.specs.Phase4.{State as Done, max_tokens};
ghost use Rattle.pp.specs.inside.Guards.{IsPassedOver, IsGuarded};
ghost use Rattle.pp.specs.Held.{Agrees};
ghost use Rattle.pp.specs.inside.Stepping.{IsNear};

use crate::conditions::is_macro;
use crate::guards::guard_of;
use crate::includes::Source;
use crate::state::State;
use phases::{Lines, PpToken, try_scan};
use srcset::{Names, Refusal};
use std::alloc::Global;
use std::collections::VecDeque;
use std::marker::Model;
use std::rc::Rc;

/// How many tokens of files that are not open are kept.
const MAX_KEPT_TOKENS: usize = 1_048_576;

/// The token lines of a file, which are those of its bytes. Where the file is open more than once, they are shared.
#[derive(Drop)]
pub struct Scanned<'a> {
    name: usize,
    bytes: &'a [u8],
    lines: Rc<Lines<'a>>,
}

impl<'a> Model for Scanned<'a> {
    ghost use Rattle.std.specs.Prelude.{◌≡◌, ◌≤◌, List, Ok, length};
    ghost use Rattle.phases.specs.Token.{Token};
    ghost use Rattle.phases.specs.Lines.{scanned};

    ghost Value = { List (List Token) };

    ghost view = { λ s. s.lines.value };

    ghost invariant = { λ s. (scanned s.name s.bytes.now ≡ Ok s.lines.value) × (length s.bytes.now ≤ 1048576) };
}

impl<'a> Scanned<'a> {
    // Phases 1 to 3 of a file.
    fn new(alloc: Global, source: &Source<'a>) -> Result<Scanned<'a>, Refusal>
        requires { length source.now.bytes.now ≤ 1048576 }
        ensures ok { IfOk result (λ lines. scanned source.now.name source.now.bytes.now ≡ Ok lines) }
        ensures err { IfErr result (λ refusal. (refusal ≡ Memory) ⊎ (scanned source.now.name source.now.bytes.now ≡ Err refusal)) }
    {
        let lines = try_scan(alloc, source.bytes, source.name)?;
        let Ok(lines) = Rc::new(alloc, lines) else {
            return Err(Refusal::Memory);
        };
        Ok(Scanned {
            name: source.name,
            bytes: source.bytes,
            lines,
        })
    }

    /// How many lines there are.
    pub fn len(&self) -> usize
        ensures { result ≡ length self.now }
    {
        self.lines.len()
    }

    /// The tokens of the line with this number, counted from 0. `None` where there are fewer lines.
    pub fn get(&self, index: usize) -> Option<&[PpToken<'a>]>
        ensures line { option_map (λ line. line.now) result ≡ slice_get self.now index }
        ensures near { IfSome result (λ line. All IsNear line.now) }
    {
        self.lines.get(index)
    }

    /// How many tokens the lines have.
    pub fn tokens(&self) -> usize {
        self.lines.tokens().len()
    }

    // Whether the lines are those of this file.
    fn is_of(&self, source: &Source<'a>) -> bool
        ensures { result ≡ true → scanned source.now.name source.now.bytes.now ≡ Ok self.now }
    {
        self.name == source.name && self.bytes == source.bytes
    }

    /// Whether the file has a name with this number.
    pub fn is_named(&self, name: usize) -> bool {
        self.name == name
    }

    /// The same lines, shared, where they are those of this file.
    pub fn shared_as(&self, source: &Source<'a>) -> Option<Scanned<'a>>
        ensures { IfSome result (λ lines. scanned source.now.name source.now.bytes.now ≡ Ok lines) }
    {
        if !self.is_of(source) {
            return None;
        }
        let Ok(lines) = self.lines.clone() else {
            return None;
        };
        Some(Scanned {
            name: self.name,
            bytes: self.bytes,
            lines,
        })
    }

    // Whether the file is open elsewhere too.
    fn is_shared(&self) -> bool {
        Rc::strong_count(&self.lines) > 1
    }
}

/// A file with an include guard, which does nothing where the guard's macro is defined.
#[derive(Drop)]
struct Guarded<'a> {
    name: usize,
    bytes: &'a [u8],
    guard: &'a [u8],
}

impl<'a> Model for Guarded<'a> {
    ghost use Rattle.std.specs.Prelude.{ℕ, List};
    ghost use Rattle.pp.specs.inside.Guards.{IsGuarded};

    ghost Value = { List ℕ };

    ghost view = { λ g. g.guard.now };

    ghost invariant = { λ g. IsGuarded g.guard.now g.name g.bytes.now };
}

impl<'a> Guarded<'a> {
    // The file of these lines, where they have a guard.
    fn new(alloc: Global, scanned: &Scanned<'a>) -> Option<Guarded<'a>> {
        let guard = guard_of(alloc, scanned)?;
        Some(Guarded {
            name: scanned.name,
            bytes: scanned.bytes,
            guard,
        })
    }

    // The macro of the guard, where this is the file.
    fn guard_of(&self, source: &Source<'a>) -> Option<&'a [u8]>
        ensures { IfSome result (λ guard. IsGuarded guard.now source.now.name source.now.bytes.now) }
    {
        if self.bytes == source.bytes && self.name == source.name {
            Some(self.guard)
        } else {
            None
        }
    }
}

/// Files that are not open, and may be included again.
#[derive(Drop)]
pub struct Scans<'a> {
    guarded: VecDeque<Guarded<'a>>,
    // Those without a guard.
    kept: VecDeque<Scanned<'a>>,
    // How many tokens they have in all.
    tokens: usize,
}

impl<'a> Scans<'a> {
    /// None yet.
    pub fn new(alloc: Global) -> Scans<'a> {
        Scans {
            guarded: VecDeque::new(alloc),
            kept: VecDeque::new(alloc),
            tokens: 0,
        }
    }

    // The macro of the guard of a file that was read before, where it has one.
    fn guard(&self, source: &Source<'a>) -> Option<&'a [u8]>
        ensures { IfSome result (λ guard. IsGuarded guard.now source.now.name source.now.bytes.now) }
    {
        let index = self
            .guarded
            .iter()
            .position(|known| known.name == source.name)?;
        let known = self.guarded.get(index)?;
        known.guard_of(source)
    }

    /// Whether a file that is included here does nothing, since the macro of its guard is defined.
    pub fn passes_over(&self, source: &Source<'a>, state: &State<'a>, names: &Names) -> bool
        ensures { result ≡ true → (s : Done) → Agrees names.now state.now s → length s.given ≤ max_tokens → IsPassedOver source.now.name source.now.bytes.now s }
    {
        match self.guard(source) {
            Some(guard) => is_macro(state, guard, names),
            None => false,
        }
    }

    // Takes the file out, where it is kept.
    fn kept(&mut self, source: &Source<'a>) -> Option<Scanned<'a>>
        ensures { IfSome result (λ lines. scanned source.now.name source.now.bytes.now ≡ Ok lines) }
    {
        let index = self
            .kept
            .iter()
            .position(|scanned| scanned.name == source.name)?;
        let scanned = self.kept.swap_remove_back(index)?;
        self.tokens = self.tokens.saturating_sub(scanned.tokens());
        if !scanned.is_of(source) {
            return None;
        }
        Some(scanned)
    }

    /// The token lines of a file, which is scanned now unless it is kept.
    pub fn take(&mut self, alloc: Global, source: &Source<'a>) -> Result<Scanned<'a>, Refusal>
        requires { length source.now.bytes.now ≤ 1048576 }
        ensures ok { IfOk result (λ lines. scanned source.now.name source.now.bytes.now ≡ Ok lines) }
        ensures err { IfErr result (λ refusal. (refusal ≡ Memory) ⊎ (scanned source.now.name source.now.bytes.now ≡ Err refusal)) }
    {
        match self.kept(source) {
            Some(scanned) => Ok(scanned),
            None => Scanned::new(alloc, source),
        }
    }

    // Notes the guard of a file. Whether it has one.
    fn keeps_guard(&mut self, alloc: Global, scanned: &Scanned<'a>) -> bool {
        let Some(known) = Guarded::new(alloc, scanned) else {
            return false;
        };
        if self.guarded.iter().any(|other| other.name == known.name) {
            return true;
        }
        self.guarded.push_back(known).is_ok()
    }

    /// Keeps a file that is open no more and has no guard, as long as that is not too many tokens. One that is not kept is scanned again.
    pub fn keep(&mut self, alloc: Global, scanned: Scanned<'a>) {
        if scanned.is_shared() {
            return;
        }
        if self.keeps_guard(alloc, &scanned) {
            return;
        }
        let tokens = scanned.tokens();
        if tokens > MAX_KEPT_TOKENS.saturating_sub(self.tokens) {
            return;
        }
        if self.kept.push_back(scanned).is_ok() {
            self.tokens = self.tokens.saturating_add(tokens);
        }
    }
}
