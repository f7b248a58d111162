//! The claims of an analysis about a program, and their meaning on the abstract machine: abstract values and states, Hoare
//! triples of expressions and statements over `csem`, and their rules. Definitions and laws alone.
#![tactic(auto)]

mod abstract_values;
mod operands;

pub use abstract_values::{AbsValue, ArrayArgument, Fact, Interval};
pub use operands::{Operand, Relation};
