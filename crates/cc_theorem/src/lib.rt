//! The theorem about the compiler in one statement. There is nothing to run: it is the contract of a function without code.
#![tactic(auto)]

ghost use Rattle.cc_theorem.specs.Theorem.{TheTheorem};

/// Each file that `cc::compile_with` returns (`IsMade`, its clause `made`), for each size that a stack may have, is the file of the one program that its sources
/// are, and has an image. On every input of bytes it does what that program does (ISO/IEC 9899:2011 5.1.2.3): all of it and nothing else, in at most 60 n + 68
/// instructions for n ticks, if there is no undefined behaviour and the stack suffices; up to undefined behaviour if there is some; and up to the first access below the stack if
/// the stack does not suffice.
pub fn theorem()
    ensures { TheTheorem }
{}
