//! The commands that show a built program from inside: a listing with labels and lines, frames, symbols, images and sizes.
#![tactic(auto)]

mod building;
mod images;
mod listing;
mod listing_text;
mod showing;
mod sizes;
mod source_lines;
mod stack_table;
mod symbols;

pub use images::show_image;
pub use listing::{ListForm, list_code};
pub use showing::show_form;
pub use sizes::show_size;
pub use stack_table::show_frames;
pub use symbols::write_symbols;
