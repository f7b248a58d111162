//! Evaluates the parts of a typed program that call nothing, by recursion over the tree.
#![tactic(auto)]

pub mod clock;
pub mod definitions;
pub mod expressions;
pub mod initialisers;
pub mod objects;
pub mod parts;
pub mod quick;
pub mod statements;
pub mod switches;
