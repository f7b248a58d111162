//! Laws of runs, each the contract of a function without code.

ghost use Rattle.tac_code.specs.Laws.{RunGrows, CallsAreActive, WeightsAreSeen};

/// After more steps a run has the history that it had after fewer, perhaps with newer entries; one that has ended stays so.
pub fn run_grows()
    ensures { RunGrows }
{}

/// The calls that a run has open are those that its history began and did not end.
pub fn calls_are_active()
    ensures { CallsAreActive }
{}

/// The weights of the calls that are open at a step sum to no more than the greatest sum in the history of a later step.
pub fn weights_are_seen()
    ensures { WeightsAreSeen }
{}
