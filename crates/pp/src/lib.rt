//! Translation phase 4: directives, conditionals, includes (ISO/IEC 9899:2011 6.10).
#![tactic(auto)]

mod conditionals;
mod conditions;
mod ends;
mod error_directive;
mod file;
mod files;
mod guards;
mod includes;
mod laws;
mod line_directive;
mod places;
mod preprocessing;
mod printing;
mod pulling;
mod run;
mod scans;
mod state;
mod stream;
mod words;

pub use laws::{rest_grows, stream_grows};
pub use preprocessing::{preprocess, try_preprocess};
pub use printing::print;
pub use stream::Pp;
