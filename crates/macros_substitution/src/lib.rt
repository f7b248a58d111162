//! Substitution of the arguments in a macro's replacement list (ISO/IEC 9899:2011 6.10.3.1 to 6.10.3.3), and the hide
//! sets of its tokens (6.10.3.4p2).
#![tactic(auto)]

mod feeding;
mod firsts;
mod front;
mod hide_sets;
mod joining;
mod piece;
mod plain;
mod reading;
mod substituting;

pub use front::put_in_front;
pub use hide_sets::{HideSet, HideSets};
pub use piece::{HiddenToken, Piece, Use};
pub use reading::{pieces, uses};
pub use substituting::substitute;
