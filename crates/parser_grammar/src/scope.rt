//! The scope of a declaration.

/// The scope of a declaration (ISO/IEC 9899:2011 6.2.1).
#[derive(Clone, Copy, PartialEq, Eq, Debug)]
pub enum Scope {
    /// Outside of every function.
    File,
    /// In a block, or in the head of a `for`.
    Block,
}
