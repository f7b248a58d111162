//! The effects of declarations (ISO/IEC 9899:2011 6.7, 6.7.9).
#![tactic(auto)]

mod laid_values;
mod object_effects;
mod object_initialisers;
mod put_effects;
mod typed_declarations;
mod typed_items;

pub use typed_declarations::declaration_typed;
