//! The relation of three-address code to a typed program, and that the code simulates the program: definitions and laws.
//!
//! There is nothing to run. Each law is the contract of a function without code, so that it is surely proved.
#![tactic(auto)]

ghost use Rattle.lower_correct.specs.Laws.{CodeBehaves};
ghost use Rattle.lower_correct.specs.Words.{CallsPassWords, ReturnsPassWords};

/// The code of a checked program does what the program does, in at most 60 instructions of RV32IM a tick and 60, wherever no undefined behaviour is met; where
/// the clock runs out, in no fewer steps than ticks.
pub fn code_behaves()
    ensures { CodeBehaves }
{}

/// A call passes words of its parameters' types, in the temporaries of their numbers, which the history has.
pub fn calls_pass_words()
    ensures { CallsPassWords }
{}

/// A return gives a word of its function's type, in temporary 0, which the history has, or nothing.
pub fn returns_pass_words()
    ensures { ReturnsPassWords }
{}
