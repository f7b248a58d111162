//! A run of an executable file that is traced instruction by instruction.
#![tactic(auto)]

mod instruction;
mod shown;
mod text_trace;
mod tracing;

pub use shown::{machine_text, place_text};
pub use text_trace::TextTrace;
pub use tracing::{TraceEnd, Tracer, traced_run};
