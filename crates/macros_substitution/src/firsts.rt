//! The least number of a node for each name.
ghost use Rattle.std.specs.Prelude.{◌≡◌, [], is_some, OnOk, OnErr, IfErr};
ghost use Rattle.srcset.specs.declared.refusal.Refusal.TheVariants.{Memory};
ghost use Rattle.macros_substitution.specs.inside.Firsts.{first_of, Notes};

use indexmap::IndexMap;
use srcset::Refusal;
use std::alloc::Global;
use std::marker::Model;

/// For each name that a node has, the least number of such a node, counted from 0.
#[derive(Drop)]
pub(crate) struct Firsts {
    numbers: IndexMap<usize, usize>,
}

impl Model for Firsts {
    ghost use Rattle.macros_substitution.specs.inside.Firsts.{Firsts as Seen};

    ghost Value = { Seen };

    ghost view = { λ f. f.numbers.entries };
}

impl Firsts {
    pub(crate) fn new(alloc: Global) -> Firsts
        ensures { result ≡ [] }
    {
        Firsts {
            numbers: IndexMap::new(alloc),
        }
    }

    /// The number under a name.
    pub(crate) fn get(&self, name: usize) -> Option<usize>
        ensures { result ≡ first_of self.now name }
    {
        match self.numbers.get(&name) {
            Some(number) => Some(*number),
            None => None,
        }
    }

    // Whether a number is stored under a name.
    fn has(&self, name: usize) -> bool
        ensures { result ≡ is_some (first_of self.now name) }
    {
        self.get(name).is_some()
    }

    /// Puts a number under a name that has none yet.
    pub(crate) fn note(&mut self, name: usize, number: usize) -> Result<(), Refusal>
        ensures ok { OnOk result (Notes self.old name number self.new) }
        ensures unchanged { OnErr result (self.new ≡ self.old) }
        ensures err { IfErr result (λ refusal. refusal ≡ Memory) }
    {
        if self.has(name) {
            return Ok(());
        }
        self.numbers.insert(name, number)?;
        Ok(())
    }
}
