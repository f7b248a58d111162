//! Initialisers (ISO/IEC 9899:2011 6.7.9).
#![tactic(auto)]

mod constancy;
mod element_values;
mod forms;
mod literals;
mod parts;
mod typing;

pub use constancy::constant_parts;
pub use element_values::values;
pub use forms::{Wanted, count_of, has_characters, is_character, text_alone, wanted_object};
pub use literals::past_init;
pub use typing::initialiser;
