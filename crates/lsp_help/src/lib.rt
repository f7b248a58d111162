//! The text shown and the items offered at a place of a program: the responses to requests for hover and completion.
#![tactic(auto)]

mod completing;
mod facts;
mod headers;
mod hovering;
mod inquiry;
mod line_start;

pub use completing::completion;
pub use hovering::{Interval, hover};
pub use inquiry::Inquiry;
