//! A change that may mend a syntax error, and its message.

use source_words::Words;

/// The expectation at a token that does not fit, or the error in the token.
#[derive(Clone, Copy, Debug, PartialEq, Eq)]
pub enum Expected {
    Semicolon,
    Statement,
    CloseParenthesis,
    CloseBracket,
    CloseBrace,
    OpenParenthesis,
    OpenBrace,
    Comma,
    Colon,
    Operand,
    Name,
    /// `void` between the parentheses of a function without parameters.
    VoidParameters,
    /// An initialiser between braces.
    Initialiser,
    /// `;` in place of the token.
    SemicolonInstead,
    /// `,` in place of the token.
    CommaInstead,
    /// `:` in place of the token.
    ColonInstead,
    /// A type before a name.
    Type,
    /// A word in place of one that is misspelled.
    Word,
    /// `else if` in place of a word that is none of C's.
    ElseIf,
    /// Nothing in place of `then`.
    Then,
    /// An operator in place of two tokens.
    Operator,
    /// No power operator.
    Power,
    /// A type in place of a name that is none.
    TypeName,
    /// A name in place of a keyword.
    KeywordAsName,
    /// A declaration without `*`.
    Pointer,
    /// An operand without `*`.
    Indirection,
    /// An operand without `&`.
    Address,
    /// The brackets after the name.
    BracketsBehindName,
    /// An initialiser without a designator.
    Designator,
    /// A function that returns a number.
    ArrayResult,
    /// An operand that is no compound literal.
    CompoundLiteral,
    /// A function outside of others.
    NestedFunction,
    /// An operand without a member.
    Member,
    /// A comparison in place of an assignment to a value.
    NoObject,
    /// Parameters that are counted.
    Ellipsis,
    /// A label for each value of a range.
    CaseRange,
    /// The body of a function.
    Body,
    /// A closing token for which none is open.
    Unmatched,
    /// Nothing in place of the token.
    Nothing,
}

/// A change of the source: the bytes from `start` up to `end` become `text`.
#[derive(Clone, Copy, Debug, PartialEq, Eq)]
pub struct Candidate {
    pub expected: Expected,
    /// The offset of the change in the file, in bytes.
    pub start: usize,
    /// The offset of the end of the replaced text, in bytes.
    pub end: usize,
    pub text: &'static str,
    /// Whether the change is one to be made, and not only a trial.
    pub is_fix: bool,
}

/// A text after the token before the one with this number.
pub fn inserted(
    words: &Words<'_>,
    number: usize,
    expected: Expected,
    text: &'static str,
) -> Candidate {
    let place = match number.checked_sub(1) {
        Some(before) => words.end(before),
        None => words.start(number),
    };
    Candidate {
        expected,
        start: place,
        end: place,
        text,
        is_fix: true,
    }
}

/// A text in place of the tokens from `first` up to `past`.
pub fn replaced(
    words: &Words<'_>,
    first: usize,
    past: usize,
    expected: Expected,
    text: &'static str,
) -> Candidate {
    Candidate {
        expected,
        start: words.start(first),
        end: words.end(past.saturating_sub(1)),
        text,
        is_fix: true,
    }
}

/// The same change as one that is only tried.
pub fn tried(candidate: Candidate) -> Candidate {
    Candidate {
        is_fix: false,
        ..candidate
    }
}
