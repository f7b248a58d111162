//! The integer types of C and their arithmetic, over whole numbers within each type's range.
//!
//! The public source is ISO/IEC 9899:2011, "the standard" below; sizes are those of the RISC-V
//! ABI ILP32. Where the standard leaves a choice, the choice of this profile is said with the item.
#![tactic(auto)]

pub mod arithmetic;
pub mod laws;
pub mod operators;
pub mod signs;
pub mod types;

pub use arithmetic::binary;
pub use operators::{BinOp, Undef};
pub use signs::{complement, is_zero, negate};
pub use types::{IntType, compatible, convert, promote, size_of, usual};
