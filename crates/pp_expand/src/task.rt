//! The effect of a list's first token.
use macros::Macro;
use macros_substitution::{HiddenToken, HideSet};
use srcset::Pos;

/// The macro that a token names where its list is scanned.
pub(crate) enum Named<'a, 't> {
    /// No macro, or one that its hide set has.
    Nothing,
    /// A predefined macro.
    OfCompiler,
    /// A macro of the table, by the number of its name.
    Defined(usize, &'t Macro<'a>),
}

/// A replacement that is to be made of a macro of the table.
#[derive(Drop)]
pub(crate) struct Task<'a, 't> {
    pub(crate) definition: &'t Macro<'a>,
    /// Whether white space precedes the name.
    pub(crate) space_before: bool,
    /// The place of the name.
    pub(crate) at: Pos,
    /// The names that the tokens of the replacement hide in addition to their own.
    pub(crate) hides: HideSet,
    pub(crate) arguments: Vec<Vec<HiddenToken<'a>>>,
}

/// A replacement that is to be made.
#[derive(Drop)]
pub(crate) enum Step<'a, 't> {
    /// Of this name of a predefined macro.
    Predefined(HiddenToken<'a>),
    /// Of a macro of the table.
    Replaced(Task<'a, 't>),
}

/// The effect of a list's first token.
#[derive(Drop)]
pub(crate) enum Turned<'a, 't> {
    /// It is final.
    Stays(HiddenToken<'a>),
    /// It is replaced.
    Takes(Step<'a, 't>),
}
