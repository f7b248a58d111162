//! Macros: the table of definitions, and the operators `#` and `##` (ISO/IEC 9899:2011 6.10.3 to 6.10.3.3, 6.10.3.5).
#![tactic(auto)]

mod faults;
mod operators;
mod reading;
mod reserved;
mod table;
mod tests_of_tokens;

pub use operators::{
    paste, push_shown, push_shown_next, shown_room, string_of, stringize, try_paste, try_stringize,
};
pub use reserved::{is_predefined, is_reserved};
pub use table::{BodyToken, MAX_MACROS, MAX_PARAMETERS, Macro, MacroTable};
pub use tests_of_tokens::{is_hash, is_identifier, is_joint};
