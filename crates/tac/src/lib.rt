//! Lowers typed programs to three-address code (ISO/IEC 9899:2011 6.5, 6.7.9, 6.8).
#![tactic(auto)]

mod block_sizes;
mod copies;
mod counts;
mod elements;
mod first_sizes;
mod functions;
mod initialisers;
mod laws;
mod leaves;
mod programs;
mod statement_starts;
mod statements;
mod switches;

pub use functions::lower_function;
pub use laws::{function_is_code, functions_are_code};
pub use programs::lower;
pub use statement_starts::{CodeScope, CodeStart, code_scopes, code_starts};
