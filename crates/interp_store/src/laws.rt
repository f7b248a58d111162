//! Laws of the machine with an explicit stack, the base of the interpreter. The functions do nothing: each has a contract so
//! that its law is proved.

ghost use Rattle.interp_store.specs.inside.Laws.{NodeEnters, FrameLeaves, CallActs, StackResumes, CallIsReal, RunBegins};

/// The result of a node, after its one tick, is its remainder (5.1.2.3).
pub fn node_enters()
    ensures { NodeEnters }
{}

/// The result of a frame with the value it waited for is the remainder after it.
pub fn frame_leaves()
    ensures { FrameLeaves }
{}

/// The result of a call is its remainder (6.5.2.2).
pub fn call_acts()
    ensures { CallActs }
{}

/// The frames outside wait for those inside.
pub fn stack_resumes()
    ensures { StackResumes }
{}

/// Calls nested as deep, and loops with as many turns, as the ticks allow satisfy the assumptions of the laws.
pub fn call_is_real()
    ensures { CallIsReal }
{}

/// The run of a program is the remainder when `main` is called from nothing (5.1.2.2.1).
pub fn run_begins()
    ensures { RunBegins }
{}
