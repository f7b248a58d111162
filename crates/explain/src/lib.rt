//! Explains to a person why the compiler refuses a program: the token, the macro and includes that lead to it, a hint,
//! and the faults of the other functions.
#![tactic(auto)]

mod explaining;
mod undefined;

pub use explaining::{Explained, Stage, USUAL_FAULTS, explain};
pub use undefined::{Interpretation, Run, interpreted};
