//! The properties of the checker's definition that lowering requires: the measures of a program, blocks that are typed,
//! and the constraints that the typed form would let pass.
#![tactic(auto)]

ghost use Rattle.lower_wf.specs.Asked.{ProgramIsAsked};
ghost use Rattle.lower_wf.specs.Laws.{ProgramIsMeasured};
ghost use Rattle.lower_wf.specs.Settled.{BlockIsTyped, FunctionIsTyped};

/// Of a unit that breaks no constraint, within the limit of nodes and with texts of bytes, the program's nodes, weights and bytes are within their limits.
pub fn program_is_measured()
    ensures { ProgramIsMeasured }
{}

/// The items of a block are typed, where its names denote entities of the program.
pub fn block_is_typed()
    ensures { BlockIsTyped }
{}

/// Operands have promoted types, a used expression gives a value, a `for` declares, cases are values of their switch's type, and types are sized.
pub fn program_is_asked()
    ensures { ProgramIsAsked }
{}

/// The function that a definition adds is typed, where the names of its file denote entities of the program.
pub fn function_is_typed()
    ensures { FunctionIsTyped }
{}
