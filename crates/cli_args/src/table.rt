//! The arguments of each command, as a table.

/// How the words of an argument are read.
#[derive(Clone, Copy)]
pub enum Kind {
    /// A word without a name, of which there is one.
    Place,
    /// Words without a name, of which there may be none.
    Places,
    /// A word without a name, which is one of these.
    Choice(&'static [&'static str]),
    /// An option without a value.
    Flag,
    /// An option with a value, given once.
    Text,
    /// An option with a value, which may be given several times.
    Texts,
    /// The same, for a word of another compiler: help does not show it.
    Hidden,
    /// An option with one value or more.
    List,
    /// An option with a number from the first to the second.
    Number(i64, i64),
    /// An option with one of these values.
    One(&'static [&'static str]),
}

/// One argument.
#[derive(Clone, Copy)]
pub struct Row {
    /// The name by which the argument is read, and which help shows where there is no other.
    pub id: &'static str,
    pub short: Option<char>,
    pub long: Option<&'static str>,
    /// The text that help shows in place of the value.
    pub value: Option<&'static str>,
    pub kind: Kind,
    /// The value where the words have none.
    pub default: Option<&'static str>,
    pub help: &'static str,
    /// The arguments that do not go with it.
    pub apart: &'static [&'static str],
}
