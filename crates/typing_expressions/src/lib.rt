//! The typing rules of names, calls and operators, over parts that are typed (ISO/IEC 9899:2011 6.5).
#![tactic(auto)]

mod arguments;
mod assignments;
mod callees;
mod forms;
mod literal_counts;
mod literals;
mod operations;
mod rules;

pub use arguments::argument;
pub use assignments::{assigned, stepped};
pub use callees::{Called, called_value, function_named, push_argument};
pub use forms::{Checked, Elements, Worth, boxed, broken, effect, valued};
pub use literal_counts::LiteralCount;
pub use literals::{OBJECT_LIMIT, next_literal};
pub use operations::{chosen, operated};
pub use rules::{named, signed, subscripted};
