//! The place of the newest of several equal names, in constant time.

ghost use Rattle.std.specs.Prelude.{◌≡◌, ◌+◌, ◌<◌, ◌≤◌, ℕ, List, [], ◌∷◌, OnOk, OnErr, length, get_or, drop, reverse};
ghost use Rattle.typing_scopes.specs.NewestNames.{place_of, newest_of, names_of, Hides};

use std::alloc::{AllocError, Global};
use std::marker::Model;

/// A name, and the place of the newest equal one before it, counted from 1 from the oldest, or 0.
#[derive(Clone, Copy)]
pub(crate) struct Entry {
    name: usize,
    hides: usize,
}

/// Names in the order in which they were added, equal ones too. Contracts see the list with the newest first.
///
/// It allocates room for the greatest number of a name.
#[derive(Drop)]
pub(crate) struct NewestNames {
    entries: Vec<Entry>,
    newest: Vec<usize>,
}

impl Model for NewestNames {
    ghost Value = { List ℕ };

    ghost view = { λ t. names_of (reverse t.entries.items) };

    ghost invariant = { λ t. Hides (length t.newest.items) (reverse t.entries.items) × ((n : ℕ) → get_or t.newest.items n 0 ≡ place_of (names_of (reverse t.entries.items)) n) };
}

/// Room for the place of a name.
fn reach(newest: &mut Vec<usize>, name: usize) -> Result<(), AllocError>
    ensures keeps { (n : ℕ) → get_or newest.new.items n 0 ≡ get_or newest.old.items n 0 }
    ensures more { length newest.old.items ≤ length newest.new.items }
    ensures ok { OnOk result (name < length newest.new.items) }
{
    while newest.len() <= name {
        newest.push(0)?;
    }
    Ok(())
}

impl NewestNames {
    /// No names.
    pub(crate) fn new(alloc: Global) -> NewestNames
        ensures { result ≡ [] }
    {
        NewestNames {
            entries: Vec::new(alloc),
            newest: Vec::new(alloc),
        }
    }

    /// How many there are.
    pub(crate) fn len(&self) -> usize
        ensures { result ≡ length self.now }
    {
        self.entries.len()
    }

    /// The place of the newest of these names, counted from 0 from the oldest.
    pub(crate) fn find(&self, name: usize) -> Option<usize>
        ensures { result ≡ newest_of self.now name }
    {
        if self.newest.len() <= name {
            return None;
        }
        let place = self.newest[name];
        if place == 0 {
            return None;
        }
        Some(place - 1)
    }

    /// One more name.
    pub(crate) fn declare(&mut self, name: usize) -> Result<(), AllocError>
        ensures ok { OnOk result (self.new ≡ name ∷ self.old) }
        ensures err { OnErr result (self.new ≡ self.old) }
    {
        reach(&mut self.newest, name)?;
        let hides = self.newest[name];
        self.entries.push(Entry { name, hides })?;
        self.newest[name] = self.entries.len();
        Ok(())
    }

    /// Removes the newest name.
    pub(crate) fn leave(&mut self)
        ensures { self.new ≡ drop 1 self.old }
    {
        if let Some(last) = self.entries.pop() {
            self.newest[last.name] = last.hides;
        }
    }
}
