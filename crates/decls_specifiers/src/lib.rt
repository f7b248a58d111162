//! The specifiers of declarations: storage class, type, lists of enumerators (ISO/IEC 9899:2011 6.7.1 to 6.7.3).
#![tactic(auto)]

mod classes;
mod declaration_specifiers;
mod enumerator_lists;
mod plain_specifiers;

pub use declaration_specifiers::{SpecifiedBase, specified, specified_for};
