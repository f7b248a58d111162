//! One warning.

use crate::kinds::Kind;
use srcset::Pos;

/// The details of a warning in addition to the text of its kind.
#[derive(Clone, Copy, Debug, PartialEq, Eq)]
pub enum Detail {
    Nothing,
    /// The place of the other declaration.
    Other(Pos),
    /// The index, and how many elements the array has.
    Index(i64, u32),
    /// The result that a comparison always has.
    Always(bool),
}

/// A warning at a place.
#[derive(Clone, Copy, Debug, PartialEq, Eq)]
pub struct Warning {
    pub kind: Kind,
    pub pos: Pos,
    /// The name that it is about, by its number in the `Names`.
    pub name: Option<usize>,
    pub detail: Detail,
}

impl Warning {
    /// A warning about no name, without details beyond its kind.
    pub fn plain(kind: Kind, pos: Pos) -> Warning {
        Warning {
            kind,
            pos,
            name: None,
            detail: Detail::Nothing,
        }
    }

    /// A warning about a name.
    pub fn named(kind: Kind, pos: Pos, name: usize) -> Warning {
        Warning {
            kind,
            pos,
            name: Some(name),
            detail: Detail::Nothing,
        }
    }
}
