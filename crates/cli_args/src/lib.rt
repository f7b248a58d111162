//! The words of the command line of `zkc`: their form, and the request that they make.
#![tactic(auto)]

mod asking;
mod commands;
mod forms;
mod habits;
mod making;
mod reading;
mod request;
mod rows;
mod table;

pub use asking::{Asked, ask};
pub use habits::{Refused, plain_words};
pub use reading::{Reading, macro_name};
pub use request::{
    Colours, Command, ImageForm, Program, Request, Role, Rule, ShownForm, Stage, Telling, Trace,
    VerifyWords, Word,
};
