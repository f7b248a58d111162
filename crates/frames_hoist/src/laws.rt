//! Laws of optimised programs, the contracts of functions without code.

ghost use Rattle.frames_hoist.specs.Optimised.{OptimisedInTurn};
ghost use Rattle.frames_hoist.specs.layer.Functions.{FunctionsAreHoisted};

/// A program whose functions had their constants hoisted, one by one, is optimised.
pub fn functions_are_hoisted()
    ensures { FunctionsAreHoisted }
{}

/// A program that was simplified, and whose constants were then hoisted, is optimised.
pub fn optimised_in_turn()
    ensures { OptimisedInTurn }
{}
