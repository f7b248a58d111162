//! The meaning of a program's names, for an editor: declarations, uses and scopes, found by the tokens of its files.
#![tactic(auto)]

mod calls;
mod declaring;
mod directives;
mod folding;
mod frames;
mod index;
mod scanner;
mod symbols;
mod table;
mod walking;
mod words;

pub use calls::{CallSite, call_at};
pub use folding::Fold;
pub use index::{Index, Source};
pub use symbols::{Lookup, Mention, Parameter, Place, Role, Symbol, SymbolKind, Unresolved};
pub use words::{Class, OFFERED_KEYWORDS, Word, is_name};
