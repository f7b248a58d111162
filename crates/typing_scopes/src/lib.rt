//! Scopes: the meanings of names and tags (ISO/IEC 9899:2011 6.2.1 to 6.2.4).
#![tactic(auto)]

mod bindings;
mod built_ins;
mod depth;
mod first_names;
mod newest_names;
mod scopes;

pub use bindings::{Binding, Linkage, Meaning, State, StaticObject, Tag};
pub use built_ins::{BuiltIn, built_in, is_called};
pub use scopes::{Block, Scope};
