//! The places of the tokens of a source file in its bytes, and the same file laid out otherwise.
#![tactic(auto)]

mod function_bodies;
mod layout;
mod places;
mod spots;
mod walking;

pub use function_bodies::{Body, bodies};
pub use layout::{blank, laid_out};
pub use places::{column, source_line};
pub use spots::{Spot, Tokens};
