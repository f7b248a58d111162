//! From C tokens to declarations (ISO/IEC 9899:2011 6.7).
#![tactic(auto)]

pub mod declarations;
mod enumerators;
mod initialisers;
mod items;
mod parameters;
mod specifiers;
