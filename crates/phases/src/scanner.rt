//! The token lines so far.
use crate::line_list::LineBuilder;
use crate::token::Place;
use srcset::Pos;

/// The state of a scan: the part of a file that is scanned.
#[derive(Drop)]
pub struct Scanner<'a> {
    // The number of the file's name.
    pub(crate) file: usize,
    // The lines so far, and the tokens of the line that is not ended yet.
    pub(crate) list: LineBuilder<'a>,
    // The place of the next token, and whether white space precedes it.
    pub(crate) place: Place,
    pub(crate) space: bool,
    // The first token that is too long.
    pub(crate) overlong: Option<Pos>,
    // The comment that is not closed.
    pub(crate) unclosed: Option<Pos>,
}
