//! A machine that is kept between calls: it takes its file and its input byte by byte, runs, and shows registers, memory and output.
#![tactic(auto)]

mod feed;
mod kept;
mod kept_memory;
mod kept_runs;
mod serving;
mod stepping;
mod ticking;

pub use feed::Feed;
pub use kept::Kept;
pub use serving::{Request, request_of};
pub use stepping::{Halt, Reached, cause_number, run_to, show, start};
