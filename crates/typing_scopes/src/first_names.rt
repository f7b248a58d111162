//! The place of the first of several equal names, in constant time.

ghost use Rattle.std.specs.Prelude.{◌≡◌, IfOk};
ghost use Rattle.typing_spec.specs.Scope as typed;

use crate::newest_names::NewestNames;
use std::alloc::{AllocError, Global};
use std::marker::Model;

/// Names in their order, to which no further name is added.
#[derive(Drop)]
pub(crate) struct FirstNames {
    // The last one was added first, so that the newest is the first.
    backwards: NewestNames,
}

impl Model for FirstNames {
    ghost use Rattle.std.specs.Prelude.{ℕ, List};

    ghost Value = { List ℕ };

    ghost view = { λ t. t.backwards };
}

impl FirstNames {
    /// These names.
    pub(crate) fn new(alloc: Global, mut names: Vec<usize>) -> Result<FirstNames, AllocError>
        ensures { IfOk result (λ t. t ≡ names.items) }
    {
        names.reverse();
        let mut backwards = NewestNames::new(alloc);
        for name in names {
            backwards.declare(name)?;
        }
        Ok(FirstNames { backwards })
    }

    /// The place of the first of these names, counted from 0.
    pub(crate) fn find(&self, name: usize) -> Option<usize>
        ensures { result ≡ typed.place_from 0 self.now name }
    {
        match self.backwards.find(name) {
            Some(place) => Some(self.backwards.len() - 1 - place),
            None => None,
        }
    }
}
