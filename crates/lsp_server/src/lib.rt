//! The language server: the state of a session, and the response to each message of a client.
#![tactic(auto)]

mod answering;
mod commands;
mod diagnosing;
mod edits;
mod lifecycle;
mod server;

pub use server::Server;
