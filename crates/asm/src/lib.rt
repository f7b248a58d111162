//! The assembler: items with labels become machine code at an address, or a listing of it.
#![tactic(auto)]

mod addresses;
mod assembling;
mod check;
mod emit;
mod hex;
pub mod item;
pub mod items;
pub mod laws;
mod layout;
mod listing;
mod offset;
mod refusal;
mod text;

pub use addresses::item_addresses;
pub use assembling::assemble;
pub use item::{Item, Label};
pub use items::{Items, ItemsBuilder};
pub use listing::list;
pub use rv32::encode;
