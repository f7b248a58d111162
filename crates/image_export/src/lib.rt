//! The bytes that an executable file loads, in the forms that flash tools and simulators read.
#![tactic(auto)]

mod digits;
mod headers;
mod intel;
mod raw;
mod verilog;

pub use headers::{Piece, Sizes, entry, pieces, sizes_of};
pub use intel::intel_hex;
pub use raw::binary;
pub use verilog::verilog_memory;
