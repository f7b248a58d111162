//! Linkage: the meaning of a name declared again (ISO/IEC 9899:2011 6.2.2, 6.2.7, 6.7, 6.9.2).
#![tactic(auto)]

mod block_scope;
mod built_ins;
mod comparisons;
mod composites;
mod file_scope;
mod redeclarations;
mod rules;

pub use block_scope::{fresh, object_at};
pub use built_ins::as_built_in;
pub use composites::{array_of, completed, composite, copied};
pub use file_scope::{file_function, file_object};
pub use redeclarations::Agreed;
pub use rules::{StorageClass, state_of_object};
