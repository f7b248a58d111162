//! `check`: warnings.
#![tactic(auto)]

mod checking;
mod refused;

pub use checking::{Warned, check_program, plain_version, report_form};
pub use refused::{put_refused, put_unread};
