//! A law of programs laid out anew, the contract of a function without code.

ghost use Rattle.frames_layout.specs.layer.Functions.{FunctionsAreLaidOut};

/// A program whose functions were laid out anew, one by one, does what the program does.
pub fn functions_are_laid_out()
    ensures { FunctionsAreLaidOut }
{}
