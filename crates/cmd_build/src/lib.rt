//! The commands that carry out the operations of `cc::perform` over files and streams: to build, to print tokens or a listing, to run and to interpret.
#![tactic(auto)]

mod building;
mod lines;
mod listed_building;
mod listing_files;
mod printing;
mod running;

pub use building::build;
pub use lines::print_lines;
pub use listing_files::list_files;
pub use printing::print_text;
pub use running::{interp, run};
