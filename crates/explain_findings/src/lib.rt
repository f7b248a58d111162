//! Finds out about a fault, in addition to the compiler's report: its token, its macro and its includes, and what was expected or meant.
#![tactic(auto)]

mod acts;
mod advising;
mod asking;
mod enum_ends;
mod finding;
mod hints;
mod includes;
mod locating;
mod macro_notes;
mod near;
mod noting;
mod passing;
mod related;
mod sources;
mod types;
mod undeclared;

pub use acts::{Certainty, Undefined, act_help, act_title, room_for_line, wants_memory};
pub use asking::{Answer, Asking, Compiler};
pub use finding::{Finding, Fix, Note, Noted, Place, Point, Shown, Topic, show_place};
pub use includes::Includes;
pub use locating::{nth_on_line, place_at, place_of};
pub use noting::notes;
pub use passing::spots_to_pass;
pub use sources::{Source, Sources, add_file};
