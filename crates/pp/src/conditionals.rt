//! The conditionals that are open.
ghost use Rattle.std.specs.Prelude.{◌≡◌, [], ◌∷◌, nat_le, length, OnOk, IfErr, Some, None};
ghost use Rattle.std.specs.Option.{option_copied};
ghost use Rattle.srcset.specs.declared.refusal.Refusal.TheVariants.{Memory};
ghost use Rattle.pp.specs.Phase4.{max_conditionals};
ghost use Rattle.pp.specs.Rest.{is_taken, is_active, opening};
ghost use Rattle.pp.specs.inside.Stepping.{first_of, behind_first};

use srcset::{Pos, Refusal};
use std::alloc::Global;
use std::collections::VecDeque;
use std::marker::Model;

/// How many conditionals may be open at once in a file.
pub const MAX_CONDITIONALS: usize = 127;

/// How far the branches of a conditional have come (ISO/IEC 9899:2011 6.10.1p6).
#[derive(Clone, Copy)]
pub enum BranchState {
    /// No branch was taken so far.
    Waiting,
    /// The branch is the one that is taken.
    Taken,
    /// The branch follows the one that was taken.
    Past,
    /// The conditional is in a group that is skipped.
    Skipped,
}

impl BranchState {
    /// Whether the lines of the branch are done.
    pub fn is_taken(self) -> bool
        ensures { result ≡ is_taken self }
    {
        match self {
            BranchState::Waiting => false,
            BranchState::Taken => true,
            BranchState::Past => false,
            BranchState::Skipped => false,
        }
    }
}

/// A conditional that is open.
#[derive(Clone, Copy)]
pub struct Open {
    /// The presumed place of its first directive.
    pub at: Pos,
    pub branch: BranchState,
    /// Whether its `#else` was seen.
    pub behind_else: bool,
}

/// The conditionals of a file that are open, the innermost first.
#[derive(Drop)]
pub struct Conditionals {
    open: VecDeque<Open>,
}

impl Model for Conditionals {
    ghost use Rattle.std.specs.Prelude.{List};
    ghost use Rattle.pp.specs.declared.conditionals.Open.{Open};

    ghost Value = { List Open };

    ghost view = { λ c. c.open.items };
}

impl Conditionals {
    /// None is open.
    pub fn new(alloc: Global) -> Conditionals
        ensures { result ≡ [] }
    {
        Conditionals {
            open: VecDeque::new(alloc),
        }
    }

    /// Whether no further one may be opened.
    pub fn is_full(&self) -> bool
        ensures { result ≡ nat_le max_conditionals (length self.now) }
    {
        self.open.len() >= MAX_CONDITIONALS
    }

    /// The innermost.
    pub fn innermost(&self) -> Option<Open>
        ensures { result ≡ first_of self.now }
    {
        match self.open.front() {
            Some(open) => Some(*open),
            None => None,
        }
    }

    /// Whether lines are done here, and not skipped.
    pub fn is_active(&self) -> bool
        ensures { result ≡ is_active self.now }
    {
        match self.innermost() {
            Some(open) => open.branch.is_taken(),
            None => true,
        }
    }

    /// The state of a conditional that opens here, before its first branch.
    pub fn opening(&self) -> BranchState
        ensures { result ≡ opening (is_active self.now) }
    {
        if self.is_active() {
            BranchState::Waiting
        } else {
            BranchState::Skipped
        }
    }

    /// Opens one.
    pub fn push(&mut self, conditional: Open) -> Result<(), Refusal>
        ensures ok { OnOk result (self.new ≡ conditional ∷ self.old) }
        ensures err { IfErr result (λ refusal. refusal ≡ Memory) }
    {
        self.open.push_front(conditional)?;
        Ok(())
    }

    /// Closes the innermost.
    pub fn pop(&mut self) -> Option<Open>
        ensures first { result ≡ first_of self.old }
        ensures rest { self.new ≡ behind_first self.old }
    {
        self.open.pop_front()
    }
}
