//! Laws of programs that do the same, the contracts of functions without code.

ghost use Rattle.frames_opt.specs.Simplified.{AlikeInTurn, DefinedAlike};
ghost use Rattle.frames_opt.specs.layer.Functions.{FunctionsAreSimplified};

/// A program whose functions were simplified, one by one, is simplified.
pub fn functions_are_simplified()
    ensures { FunctionsAreSimplified }
{}

/// What does the same as what does the same as a program does the same as the program.
pub fn alike_in_turn()
    ensures { AlikeInTurn }
{}

/// What does the same as a program is defined where the program is.
pub fn defined_alike()
    ensures { DefinedAlike }
{}
