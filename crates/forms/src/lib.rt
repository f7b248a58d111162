//! The forms of a program between its phases, as text or as JSON: tokens, syntax tree, typed program, three-address code, flat code, items.
#![tactic(auto)]

mod items_form;
mod passes;
mod showing;

pub use forms_text::Style;
pub use showing::{Form, show};
