//! The base of every layer of the compiler: the source files of a translation unit, the string
//! interner, the faults with their texts, and the built-in headers.
#![tactic(auto)]

pub mod code;
pub mod fault;
pub mod files;
pub mod headers;
pub mod names;
pub mod refusal;
pub mod writing;

pub use code::{Code, message};
pub use fault::Fault;
pub use files::{FileSet, MAX_FILE_BYTES, MAX_FILES, MAX_NAME_BYTES};
pub use headers::{builtin, find_builtin};
pub use names::Names;
pub use refusal::{Pos, Refusal};
pub use writing::{TRIES, write_text};
