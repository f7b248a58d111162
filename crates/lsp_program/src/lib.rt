//! A program as an editor has it: its options, its files, its names, and the questions to the compiler.
#![tactic(auto)]

mod definitions;
mod documents;
mod host;
mod json;
mod options;
mod params;
mod paths;
mod unit_files;
mod view;

pub use documents::OpenDocument;
pub use host::{Declared, Enumerated, FunctionFact, Host, ObjectFact, Part, Question, Unit};
pub use json::{put_comma, put_edit, put_location, put_position, put_span, put_text_member};
pub use options::Options;
pub use params::{flag_at, number_at, place_of, position_of, span_of, text_at};
pub use paths::{base_of, folder_of, joined, path_of, uri_of};
pub use unit_files::{
    Origin, Places, Program, UnitFile, gather, is_part, names_of, set_of, unit_of,
};
pub use view::{MAX_WORK, Spot, View, beginning};
