//! The place of each function, statement and object of a built file, the stack that functions take, and the functions that they call.
#![tactic(auto)]

mod debug_bytes;
mod debug_entries;
mod debug_lines;
mod debug_types;
mod debug_variables;
mod depth;
mod files;
mod functions;
mod symbols;
mod table;
mod variables;

pub use depth::{Chain, Cost, deepest};
pub use functions::{DataLoad, Function, Line, Object, SymbolTable, symbol_table};
pub use symbols::symbol_file;
pub use table::{frames_table, sizes_table};
pub use variables::{Block, FunctionVariables, Variable, VariableType};
