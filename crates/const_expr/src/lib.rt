//! The types of expressions, and constant expressions (ISO/IEC 9899:2011 6.5, 6.6).
#![tactic(auto)]

mod calls;
mod casts;
mod constant_forms;
mod constants;
mod folding;
mod measures;
mod specifiers;
mod type_names;
mod typing;
mod values;

pub use constant_forms::{constant_form, measurable};
pub use constants::Constant;
pub use folding::folded;
pub use specifiers::{BaseType, base_type};
pub use type_names::{bytes_in, positive};
pub use typing::expression;
pub use values::{constant_value, value};
