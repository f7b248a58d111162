//! The text of a document in an editor: positions of the Language Server Protocol, and edits of ranges.
#![tactic(auto)]

mod blocks;
mod document;
mod line_table;
mod units;

pub use document::Document;
pub use line_table::{LineTable, Position, Span};
pub use units::Encoding;
