//! Symbols and where they are mentioned.

/// The kind of a symbol.
#[derive(Clone, Copy, Debug, PartialEq, Eq)]
pub enum SymbolKind {
    Function,
    Object,
    Parameter,
    Enumerator,
    /// The tag of an enumeration.
    Tag,
    Macro,
    MacroParameter,
}

/// A part of a file: its number and the bytes from `start` up to `end`.
#[derive(Clone, Copy, Debug, PartialEq, Eq)]
pub struct Place {
    pub file: usize,
    pub start: usize,
    pub end: usize,
}

/// A thing with a name.
#[derive(Clone, Copy)]
pub struct Symbol {
    pub kind: SymbolKind,
    /// The number of its name in the table of names.
    pub name: usize,
    /// The name where it is declared; where it is defined, if it is.
    pub at: Place,
    /// The declaration up to a body or an initialiser.
    pub head: Place,
    /// The whole declaration.
    pub whole: Place,
    /// Whether its scope is the file, or the rest of the unit.
    pub is_global: bool,
    /// The number of tokens of the unit read when its scope began: after its tag, the line of its macro, or the token with which its declarator or
    /// its enumerator ended (ISO/IEC 9899:2011 6.2.1p7).
    pub(crate) scope_begin: usize,
    /// Whether it began; until then it counts from the name on.
    pub(crate) has_begun: bool,
    /// Where a scope ends that is not the file's: an offset in its file.
    pub scope_end: usize,
    /// Whether a function has its body, or a name its only declaration, at `at`.
    pub is_defined: bool,
    /// The first of its parameters among those of all functions, and how many it has.
    pub first_parameter: usize,
    pub parameters: usize,
    /// The symbol that its name meant before.
    pub(crate) shadowed: Option<usize>,
}

/// The role of a mention of a symbol.
#[derive(Clone, Copy, Debug, PartialEq, Eq)]
pub enum Role {
    Declares,
    Uses,
}

/// A name that means a symbol.
#[derive(Clone, Copy)]
pub struct Mention {
    pub place: Place,
    /// The number of the symbol.
    pub symbol: usize,
    pub role: Role,
}

/// A name whose symbol was not known where it was met.
#[derive(Clone, Copy)]
pub struct Unresolved {
    pub place: Place,
    /// The number of the name.
    pub name: usize,
    /// Whether it is in a directive, as in the body of a macro.
    pub in_directive: bool,
}

/// A place in a file at which names are looked up.
#[derive(Clone, Copy)]
pub struct Lookup {
    pub(crate) file: usize,
    pub(crate) offset: usize,
    /// How many tokens of the unit are read before it.
    pub(crate) read: usize,
}

/// A parameter of a function.
#[derive(Clone, Copy)]
pub struct Parameter {
    /// Its declaration.
    pub whole: Place,
    /// The number of its name, where it has one.
    pub name: Option<usize>,
}

impl Place {
    /// Whether an offset in a file is in this part, or directly after it.
    pub fn touches(self, file: usize, offset: usize) -> bool {
        self.file == file && self.start <= offset && offset <= self.end
    }

    /// Whether this part begins before or at an offset in a file; files are ordered by their numbers.
    pub fn begins_by(self, file: usize, offset: usize) -> bool {
        self.file < file || self.file == file && self.start <= offset
    }

    /// Whether another part lies in this one.
    pub fn contains(self, other: Place) -> bool {
        self.file == other.file && self.start <= other.start && other.end <= self.end
    }
}
