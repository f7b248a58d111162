//! The tokens of a file, reduced to the properties that scopes depend on.

use explain_places::{Spot, Tokens};
use phases::{Kind, PpToken};
use srcset::Names;
use std::alloc::{AllocError, Global};

/// The class of a token for the analysis of names.
#[derive(Clone, Copy, Debug, PartialEq, Eq)]
pub enum Class {
    Identifier,
    /// A keyword that begins or continues declaration specifiers, but `enum`.
    TypeWord,
    Enum,
    For,
    Else,
    /// Any other keyword.
    Keyword,
    OpenRound,
    CloseRound,
    OpenSquare,
    CloseSquare,
    OpenBrace,
    CloseBrace,
    Semicolon,
    Comma,
    Assign,
    Hash,
    Number,
    /// A string literal or a character constant.
    Text,
    HeaderName,
    Other,
}

/// A token.
#[derive(Clone, Copy)]
pub struct Word {
    pub class: Class,
    /// The number of its spelling in the table of names.
    pub name: usize,
    /// The number of bytes of the file before it, and before its end.
    pub start: usize,
    pub end: usize,
    /// Its physical line, counted from 1.
    pub line: u32,
    /// Whether it is the first of its line.
    pub is_first: bool,
    pub in_directive: bool,
}

/// The words with which a declaration may begin, but `enum` (ISO/IEC 9899:2011 6.7.1 to 6.7.4).
const TYPE_WORDS: [&str; 23] = [
    "_Atomic",
    "_Bool",
    "_Thread_local",
    "auto",
    "char",
    "const",
    "double",
    "extern",
    "float",
    "inline",
    "int",
    "long",
    "register",
    "restrict",
    "short",
    "signed",
    "static",
    "struct",
    "typedef",
    "union",
    "unsigned",
    "void",
    "volatile",
];

/// The other keywords (6.4.1) but `enum`, `for` and `else`.
const KEYWORDS: [&str; 18] = [
    "_Alignas",
    "_Alignof",
    "_Complex",
    "_Generic",
    "_Imaginary",
    "_Noreturn",
    "_Static_assert",
    "break",
    "case",
    "continue",
    "default",
    "do",
    "goto",
    "if",
    "return",
    "sizeof",
    "switch",
    "while",
];

/// The keywords of the profile, for completion.
pub const OFFERED_KEYWORDS: [&str; 25] = [
    "_Bool",
    "_Static_assert",
    "break",
    "case",
    "char",
    "const",
    "continue",
    "default",
    "do",
    "else",
    "enum",
    "extern",
    "for",
    "if",
    "int",
    "long",
    "return",
    "short",
    "signed",
    "sizeof",
    "static",
    "switch",
    "unsigned",
    "void",
    "while",
];

/// Returns the tokens of a file, whose spellings get numbers; `None` where it breaks a rule of translation phases 1 to 3.
pub fn words_of(
    alloc: Global,
    bytes: &[u8],
    names: &mut Names,
) -> Result<Option<Vec<Word>>, AllocError> {
    let Some(tokens) = Tokens::of(alloc, bytes)? else {
        return Ok(None);
    };
    let mut words = Vec::new(alloc);
    for (number, token) in tokens.all().iter().enumerate() {
        if let Some(spot) = tokens.spot(number) {
            words.push(make_word(token, spot, names)?)?;
        }
    }
    Ok(Some(words))
}

fn make_word(token: &PpToken<'_>, spot: Spot, names: &mut Names) -> Result<Word, AllocError> {
    let Ok(name) = names.intern(token.spelling()) else {
        return Err(AllocError);
    };
    Ok(Word {
        class: class_of(token.kind(), token.spelling()),
        name,
        start: spot.start,
        end: spot.end,
        line: spot.line,
        is_first: spot.is_first,
        in_directive: spot.in_directive,
    })
}

/// Returns the class of a token of this kind and spelling.
fn class_of(kind: Kind, spelling: &[u8]) -> Class {
    match kind {
        Kind::Identifier => word_class(str::from_utf8(spelling).unwrap_or_default()),
        Kind::Number => Class::Number,
        Kind::CharacterConstant => Class::Text,
        Kind::StringLiteral => Class::Text,
        Kind::HeaderName => Class::HeaderName,
        Kind::Punctuator => punctuator_class(str::from_utf8(spelling).unwrap_or_default()),
        Kind::Other => Class::Other,
    }
}

fn word_class(text: &str) -> Class {
    if text == "enum" {
        Class::Enum
    } else if text == "for" {
        Class::For
    } else if text == "else" {
        Class::Else
    } else if is_one_of(text, TYPE_WORDS.as_slice()) {
        Class::TypeWord
    } else if is_one_of(text, KEYWORDS.as_slice()) {
        Class::Keyword
    } else {
        Class::Identifier
    }
}

fn is_one_of(text: &str, words: &[&str]) -> bool {
    for word in words {
        if *word == text {
            return true;
        }
    }
    false
}

fn punctuator_class(text: &str) -> Class {
    match text {
        "(" => Class::OpenRound,
        ")" => Class::CloseRound,
        "[" | "<:" => Class::OpenSquare,
        "]" | ":>" => Class::CloseSquare,
        "{" | "<%" => Class::OpenBrace,
        "}" | "%>" => Class::CloseBrace,
        ";" => Class::Semicolon,
        "," => Class::Comma,
        "=" => Class::Assign,
        "#" | "%:" => Class::Hash,
        _ => Class::Other,
    }
}

/// Whether a text is an identifier and no keyword.
pub fn is_name(text: &str) -> bool {
    let Some(first) = text.chars().next() else {
        return false;
    };
    (first.is_ascii_alphabetic() || first == '_')
        && are_name_letters(text)
        && word_class(text) == Class::Identifier
}

fn are_name_letters(text: &str) -> bool {
    for letter in text.chars() {
        if !(letter.is_ascii_alphanumeric() || letter == '_') {
            return false;
        }
    }
    true
}
