//! Tokens with their hide sets, and the pieces of a replacement list.
use crate::hide_sets::HideSet;
use phases::PpToken;

/// A token, and the names that may not replace it again (ISO/IEC 9899:2011 6.10.3.4p2).
#[derive(Drop)]
pub struct HiddenToken<'a> {
    pub token: PpToken<'a>,
    pub hides: HideSet,
}

/// A piece of a replacement list whose `#` operators are done.
#[derive(Drop)]
pub enum Piece<'a> {
    /// A token.
    One(HiddenToken<'a>),
    /// A parameter by its number, with its mark; `beside` where a `##` is directly before it or after it.
    Parameter {
        beside: bool,
        space_before: bool,
        index: usize,
    },
    /// A `##` of the replacement list.
    Joint,
    /// An empty argument next to `##` (6.10.3.3p2), with the mark of its parameter.
    Placemarker {
        space_before: bool,
    },
}

/// How a replacement list uses a parameter.
#[derive(Clone, Copy, Debug, PartialEq, Eq)]
pub struct Use {
    /// Somewhere next to `##`, where its argument is used as it is (ISO/IEC 9899:2011 6.10.3.1p1).
    pub beside: bool,
    /// Somewhere else, where the argument's expansion is used.
    pub expanded: bool,
}
