//! Symbolic execution of emitted code: laws with one lemma for each instruction, composed by counts of steps.
#![tactic(auto)]

ghost use Rattle.select_exec.specs.Laws.{TextStays, StandsWherever, StandsInParts, StepsAdd, OthersStay, RunsKeep};

/// Text that may not be written stays, so a run of the table's machine is a run over fixed text.
pub fn text_stays()
    ensures { TextStays }
{}

/// Placed code is placed in each text that has the same words.
pub fn stands_wherever()
    ensures { StandsWherever }
{}

/// Items that are placed one after the other are placed in two parts.
pub fn stands_in_parts()
    ensures { StandsInParts }
{}

/// A run of the light machine by its parts: a + b steps are b steps after a steps.
pub fn steps_add()
    ensures { StepsAdd }
{}

/// A write to a register changes no other register.
pub fn others_stay()
    ensures { OthersStay }
{}

/// A run that goes on keeps its past events; one that has ended or trapped stays so.
pub fn runs_keep()
    ensures { RunsKeep }
{}
