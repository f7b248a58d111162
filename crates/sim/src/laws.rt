//! Laws of runs.

ghost use Rattle.std.specs.Prelude.{◌≡◌, ◌+◌, ℕ};
ghost use Rattle.sim.specs.Runs.{World, rvrun, goes_on};
ghost use Rattle.sim.specs.Laws.{GetsGoOn, EndsOfInputGoOn, PutsGoOn, RefusalsChangeNothing, TicksAreSteps, RunsStop, RunsGoOn};

/// Two runs, one after the other, are one: `j` steps and then `k` are `j + k` steps.
pub fn runs_compose()
    ensures { (j k : ℕ) (w : World) → rvrun (j + k) w ≡ goes_on (rvrun j w) (rvrun k) }
{}

/// A call for a byte, where the port gives one, is the definition's.
pub fn gets_go_on()
    ensures { GetsGoOn }
{}

/// A call for a byte, where the input has ended, is the definition's.
pub fn ends_of_input_go_on()
    ensures { EndsOfInputGoOn }
{}

/// A call that puts a byte is the definition's.
pub fn puts_go_on()
    ensures { PutsGoOn }
{}

/// Where the port refuses, the machine with its port stays at its world.
pub fn refusals_change_nothing()
    ensures { RefusalsChangeNothing }
{}

/// A step of the definition is one of the machine's own, with the port operation that its result requests.
pub fn ticks_are_steps()
    ensures { TicksAreSteps }
{}

/// A run whose step after the first k stops satisfies the postcondition of every run of more than k steps.
pub fn runs_stop()
    ensures { RunsStop }
{}

/// A run that goes on after k steps and one more is one of k + 1 steps.
pub fn runs_go_on()
    ensures { RunsGoOn }
{}
