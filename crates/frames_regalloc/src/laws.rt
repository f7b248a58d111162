//! A renumbered program does the same at the same cost: laws, each the contract of a function without code.

ghost use Rattle.frames_regalloc.specs.Laws.{RunsAlike, CallsAlike, CostsAlike, FramesAlike, StaysSound};

/// It takes the same steps, with the words of its frames under their new numbers.
pub fn runs_alike()
    ensures { RunsAlike }
{}

/// It calls and returns only where the program does.
pub fn calls_alike()
    ensures { CallsAlike }
{}

/// Each run costs the same.
pub fn costs_alike()
    ensures { CostsAlike }
{}

/// The frames have the same bytes.
pub fn frames_alike()
    ensures { FramesAlike }
{}

/// Where the one program is sound, the other is too.
pub fn stays_sound()
    ensures { StaysSound }
{}
