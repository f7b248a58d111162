//! Flattens three-address code: stack frames of words and bytes in place of objects and slots.
#![tactic(auto)]

mod functions;
mod instructions;
mod laws;
mod layout;
mod operations;
mod sizes;
mod starts;
mod statics;

pub use functions::{flatten, flatten_function, object_homes};
pub use laws::{
    arrays_are_apart, data_have_their_size, starts_are_apart, words_agree, words_are_apart,
};
pub use layout::Home;
pub use starts::Starts;
pub use statics::{data, data_alone};
