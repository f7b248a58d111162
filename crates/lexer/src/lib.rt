//! From preprocessing tokens to C tokens: translation phases 5 to 7 of ISO/IEC 9899:2011 5.1.1.2.
#![tactic(auto)]

pub mod laws;
mod lexing;
pub mod literals;
pub mod numbers;
mod punctuators;
mod reading;
mod token;
mod translation;
mod words;

pub use reading::Lexer;
pub use token::{Keyword, Kind, Punctuator, Token};
pub use translation::tokens;
