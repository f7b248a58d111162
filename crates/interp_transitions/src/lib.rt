//! The transitions of the abstract machine in code: calls, and how frames continue with the results that they waited for, over the steps of `stepping` (ISO/IEC
//! 9899:2011 5.1.2.3, 6.5.2.2).
#![tactic(auto)]

pub mod calling;
pub mod calls;
pub mod leaving;
pub mod returning;
pub mod tally;
