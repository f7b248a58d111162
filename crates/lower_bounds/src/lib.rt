//! Laws: the three-address code of a program is sound and within its bounds of size and frame.
#![tactic(auto)]

ghost use Rattle.lower_bounds.specs.Laws.{CodeIsSound, FunctionIsSound, CodeIsBounded, CodeIsLowered};

/// The code names only existing things, and has its place.
pub fn code_is_sound()
    ensures { CodeIsSound }
{}

/// So does the code of one function, wherever the things that it may name exist.
pub fn function_is_sound()
    ensures { FunctionIsSound }
{}

/// Each function of it keeps within its stack, and its code within 128 bytes a node and 1024.
pub fn code_is_bounded()
    ensures { CodeIsBounded }
{}

/// The code is all that lowering is to give.
pub fn code_is_lowered()
    ensures { CodeIsLowered }
{}
