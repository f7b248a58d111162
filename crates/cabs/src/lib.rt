//! Interprets a typed program over a port: the abstract machine of ISO/IEC 9899:2011 5.1.2.3, tick by tick.
#![tactic(auto)]

mod acting;
mod first_objects;
mod leaving;
mod observing;
mod opening;
mod outcome;
mod quick_parts;
mod resting;
mod running;
mod state;
mod sweeping;

pub use observing::{Observer, Unobserved};
pub use outcome::{Interpreted, Run};
pub use running::{interpret, observe};
