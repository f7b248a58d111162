//! The kind of a text that is one whole preprocessing token, as the operators `#` and `##` need it for the texts that they make
//! (ISO/IEC 9899:2011 6.10.3.2, 6.10.3.3).
ghost use Rattle.std.specs.Prelude.{◌≡◌, drop};
ghost use Rattle.phases.specs.Grammar.{all_word, is_identifier, continues, is_number, is_character, is_string, is_punctuator, plain_kind, character_prefix, string_prefix, is_quoted, closes_quote};
ghost use Rattle.phases.specs.inside.Grammar as signs;
ghost use Rattle.phases.specs.inside.Kinds.{quote_after, closes_from};

use crate::classes::{is_letter, is_single, is_word};
use crate::lexical::{goes_on, is_digit, is_prefix};
use crate::punctuators::{is_pair, is_quadruple, is_triple};
use crate::token::Kind;

// Whether all bytes are letters, digits and underscores.
fn all_word(bytes: &[u8]) -> bool
    ensures { result ≡ all_word bytes.now }
{
    let mut all = true;
    for byte in bytes {
        all = all & is_word(*byte);
    }
    all
}

fn is_identifier(text: &[u8]) -> bool
    ensures { result ≡ is_identifier text.now }
{
    match text {
        [] => false,
        [first, rest @ ..] => is_letter(*first) && all_word(rest),
    }
}

// Whether a preprocessing number continues with all bytes, after the byte `first`.
fn continues(first: u8, bytes: &[u8]) -> bool
    ensures { result ≡ continues first bytes.now }
{
    let mut last = first;
    let mut all = true;
    for byte in bytes {
        all = all & goes_on(last, *byte);
        last = *byte;
    }
    all
}

fn is_number(text: &[u8]) -> bool
    ensures { result ≡ is_number text.now }
{
    match text {
        [] => false,
        [first] => is_digit(*first),
        [first, second, ..] => {
            (is_digit(*first) || (*first == b'.' && is_digit(*second)))
                && continues(*first, &text[1..])
        }
    }
}

/// The state of a literal after its quote and the bytes read so far.
#[derive(Clone, Copy, PartialEq, Eq)]
pub(crate) enum Quote {
    /// It is not closed.
    Open,
    /// It is not closed, and the last byte is a backslash.
    Escaped,
    /// It is closed by the last byte.
    Closed,
    /// It cannot be one literal.
    Broken,
}

// The state after one more byte.
fn quote_after(state: Quote, quote: u8, byte: u8) -> Quote
    ensures { result ≡ quote_after state quote byte }
{
    if byte == b'\n' {
        return Quote::Broken;
    }
    match state {
        Quote::Open => {
            if byte == quote {
                Quote::Closed
            } else if byte == b'\\' {
                Quote::Escaped
            } else {
                Quote::Open
            }
        }
        Quote::Escaped => Quote::Open,
        Quote::Closed => Quote::Broken,
        Quote::Broken => Quote::Broken,
    }
}

// Whether the closing quote is the last byte, and occurs only there.
fn closes_quote(quote: u8, bytes: &[u8]) -> bool
    ensures { result ≡ closes_quote quote bytes.now }
{
    let mut state = Quote::Open;
    for byte in bytes {
        state = quote_after(state, quote, *byte);
    }
    match state {
        Quote::Open => false,
        Quote::Escaped => false,
        Quote::Closed => true,
        Quote::Broken => false,
    }
}

// Whether it is a quote, more than `least` bytes, and the quote again.
fn is_quoted(quote: u8, least: usize, text: &[u8]) -> bool
    ensures { result ≡ is_quoted quote least text.now }
{
    match text {
        [] => false,
        [first, rest @ ..] => *first == quote && least < rest.len() && closes_quote(quote, rest),
    }
}

// The bytes of a character constant's prefix.
fn character_prefix(text: &[u8]) -> usize
    ensures { result ≡ character_prefix text.now }
{
    match text {
        [] => 0,
        [first, ..] => if is_prefix(*first) { 1 } else { 0 },
    }
}

fn is_character(text: &[u8]) -> bool
    ensures { result ≡ is_character text.now }
{
    is_quoted(b'\'', 1, &text[character_prefix(text)..])
}

// The bytes of a string literal's prefix.
fn string_prefix(text: &[u8]) -> usize
    ensures { result ≡ string_prefix text.now }
{
    match text {
        [] => 0,
        [first] => if is_prefix(*first) { 1 } else { 0 },
        [first, second, ..] => {
            if *first == b'u' && *second == b'8' {
                2
            } else if is_prefix(*first) {
                1
            } else {
                0
            }
        }
    }
}

fn is_string(text: &[u8]) -> bool
    ensures { result ≡ is_string text.now }
{
    is_quoted(b'"', 0, &text[string_prefix(text)..])
}

fn is_punctuator(text: &[u8]) -> bool
    ensures { result ≡ is_punctuator text.now }
{
    is_of_signs(text)
}

// The same, by the length and the bytes.
fn is_of_signs(text: &[u8]) -> bool
    ensures { result ≡ signs.is_punctuator text.now }
{
    match text {
        [] => false,
        [a] => is_single(*a),
        [a, b] => is_pair(*a, *b),
        [a, b, c] => is_triple(*a, *b, *c),
        [a, b, c, d] => is_quadruple(*a, *b, *c, *d),
        _ => false,
    }
}

/// The kind of a text that is one whole preprocessing token, or `None` where it is none. The text is taken
/// literally: it has no trigraphs and splices here. No text is a header name, or of the kind `Other`.
pub fn token_kind(text: &[u8]) -> Option<Kind>
    ensures { result ≡ plain_kind text.now }
{
    if is_character(text) {
        Some(Kind::CharacterConstant)
    } else if is_string(text) {
        Some(Kind::StringLiteral)
    } else if is_identifier(text) {
        Some(Kind::Identifier)
    } else if is_number(text) {
        Some(Kind::Number)
    } else if is_punctuator(text) {
        Some(Kind::Punctuator)
    } else {
        None
    }
}
