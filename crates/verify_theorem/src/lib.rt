//! The theorem about the compiler with no premise left, for programs that were verified. There is nothing to run: it is the contract of a
//! function without code.
#![tactic(auto)]

ghost use Rattle.verify_theorem.specs.Theorem.{VerifiedTheorem, VerifiedByFrames};

/// Each file that `cc::compile_with` answers (`IsMade`, its clause `made`), whose program `verify::verify` finds `Defined` and of whose stack `verify_stack::stack_bound`
/// gives a bound that is no more than the stack's bytes, does exactly what that program does on every input of bytes (ISO/IEC 9899:2011 5.1.2.3), without an
/// end where that has none, never traps, and the weights of its calls stay within the bound.
pub fn theorem()
    ensures { VerifiedTheorem }
{}

/// The same by frames: `verify_stack::stack_bound_by` gives a bound of the frames that `Built` reports, in bytes, that is no more than the stack's.
pub fn theorem_by_frames()
    ensures { VerifiedByFrames }
{}
