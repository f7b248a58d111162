//! Laws of programs with registers allocated, the contracts of functions without code.

ghost use Rattle.frames_leaf.specs.Allocated.{AllocatedInTurn};
ghost use Rattle.frames_leaf.specs.layer.Functions.{FunctionsAreAllocated};

/// A program whose leaf functions had words put into temporaries, one by one, is one with registers allocated.
pub fn functions_are_allocated()
    ensures { FunctionsAreAllocated }
{}

/// A program that was optimised, and then had registers allocated, is optimised.
pub fn allocated_in_turn()
    ensures { AllocatedInTurn }
{}
