//! The simulation proof of flattening: flat code simulates the three-address code that it is made of.
#![tactic(auto)]

ghost use Rattle.frames_correct.specs.Laws.{StepFollows, StartsMatched, FlatIsInStep, FlatIsFlattened, FlatRunsCompose};

/// One step of three-address code, whatever the instruction, is the steps of its translation, at no more cost.
pub fn step_follows()
    ensures { StepFollows }
{}

/// At the start of a program, the two states match.
pub fn starts_matched()
    ensures { StartsMatched }
{}

/// The flat program of a sound three-address program is in step with it on every input of bytes, and costs no more.
pub fn flat_is_in_step()
    ensures { FlatIsInStep }
{}

/// It is all that flattening is to give.
pub fn flat_is_flattened()
    ensures { FlatIsFlattened }
{}

/// k steps of flat code and then n are one run of k + n.
pub fn flat_runs_compose()
    ensures { FlatRunsCompose }
{}
