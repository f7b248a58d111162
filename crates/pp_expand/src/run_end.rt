//! Where a list of tokens ends.

/// Where a list of tokens that is expanded ends (ISO/IEC 9899:2011 6.10.3.4): it decides the meaning of a function-like name
/// that is its last token.
#[derive(Clone, Copy, Debug, PartialEq, Eq)]
pub enum RunEnd {
    /// With its run of text lines. Such a name is refused, since the tokens that would follow it are in another list.
    Run,
    /// With its directive. Such a name is left as it is.
    Directive,
    /// With its argument. Such a name is left as it is.
    Argument,
}
