//! Which declarations of a source file are visible at one of its tokens (ISO/IEC 9899:2011 6.2.1), by its tokens alone.
#![tactic(auto)]

mod calls;
mod declared;
mod forms;
mod labels;
mod walk;

pub use calls::{Call, call_at, parameter_at, parameter_count};
pub use declared::{Declared, is_array, is_const, last_named};
pub use forms::{
    close_behind, function_around, is_identifier, is_type_word, open_before, specifiers,
};
pub use labels::same_label_before;
pub use walk::visible;
