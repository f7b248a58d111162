//! The definition of a translation unit: which tokens a tree spells (`specs/`), and why there is no tree.
#![tactic(auto)]

mod refusal;
mod scope;

pub use refusal::Refusal;
pub use scope::Scope;
