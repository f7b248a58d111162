//! `lsp`: the language server, over the standard streams and the compiler.
#![tactic(auto)]

mod console;
mod serving;

pub use serving::serve;
