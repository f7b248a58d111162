//! A declaration.

use source_words::Words;

/// The declaration of a name.
#[derive(Clone, Copy, Debug, PartialEq, Eq)]
pub struct Declared {
    /// The number of the name's token.
    pub name: usize,
    /// The number of the declaration's first token.
    pub front: usize,
    /// How many blocks are open around it: 0 at file scope, 1 for parameters and the outermost block of a function.
    pub depth: usize,
    pub is_function: bool,
}

/// The last of these declarations that declares a name of this spelling.
pub fn last_named(words: &Words<'_>, declared: &[Declared], spelling: &[u8]) -> Option<Declared> {
    let place = declared
        .iter()
        .rposition(|one| words.at(one.name) == spelling)?;
    declared.get(place).copied()
}

/// Whether a declaration is of an array.
pub fn is_array(words: &Words<'_>, declared: Declared) -> bool {
    matches!(words.at(declared.name.saturating_add(1)), b"[")
}

/// Whether a declaration has `const`.
pub fn is_const(words: &Words<'_>, declared: Declared) -> bool {
    (declared.front..declared.name).any(|number| matches!(words.at(number), b"const"))
}
