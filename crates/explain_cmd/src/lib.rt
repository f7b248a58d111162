//! The commands that explain and show: the output of `cc explain`.
#![tactic(auto)]

mod answering;
mod knowing;
mod version;
mod watching;

pub use answering::{
    Bounds, Form, Said, explain_faults, explain_run, explain_unread, fault_source, find_faults,
    tell_faults,
};
pub use version::VERSION;
pub use watching::Watching;
