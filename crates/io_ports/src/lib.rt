//! Ports, the input and output of a run, and the error of a refused call.
#![tactic(auto)]

mod io_port;
mod mem_port;
mod port;

pub use io_port::IoPort;
pub use mem_port::MemPort;
pub use port::{Port, PortFault};
