//! Laws of programs without unreachable code, the contracts of functions without code.

ghost use Rattle.frames_reach.specs.layer.Functions.{FunctionsAreReached, SimplifiedInTurn};

/// A program whose functions lost their unreachable code, one by one, is simplified.
pub fn functions_are_reached()
    ensures { FunctionsAreReached }
{}

/// What was simplified twice is simplified.
pub fn simplified_in_turn()
    ensures { SimplifiedInTurn }
{}
