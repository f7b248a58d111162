//! The typed AST, which the checker, the interpreter and the code generator share (ISO/IEC 9899:2011 6.2.5, 6.5 to 6.9).
//!
//! Every conversion is explicit, as a type next to the operands that are converted to it. Places, string literals, objects and functions are numbered.
#![tactic(auto)]

mod expressions;
mod initialisers;
mod statements;
mod storage_places;
mod types;
mod units;

pub use expressions::{Argument, Place, Value};
pub use initialisers::Initialiser;
pub use statements::{ForControl, Statement};
pub use storage_places::{Callee, Moment, Storage};
pub use types::{DeclaredType, FunctionType, ObjectType, ParameterType};
pub use units::{Function, Program, Static};
