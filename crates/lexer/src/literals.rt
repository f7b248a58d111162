//! Character constants and string literals (ISO/IEC 9899:2011 6.4.4.4, 6.4.5).
ghost use Rattle.std.specs.Prelude.{◌≡◌, ◌<◌, ℕ, ◌∷◌, [], if◌then◌else◌, MatchOption, IfOk, IfErr, OnOk, length, drop, take, slice_index};
ghost use Rattle.lexer.specs.Digits.{value_of};
ghost use Rattle.lexer.specs.Literals.{numbered, simple, octal, hexadecimal, escape, is_plain, is_prefixed, between_quotes, character_of, character, string, elements};
ghost use Rattle.lexer.specs.inside.Decoding.{part_at, fault_of, IsDecoded, IsAppended, IsRefusal};

use crate::numbers::{Constant, behind, byte_at, digit_count, is_digit, value};
use ctypes::IntType;
use srcset::{Code, Pos, Refusal};
use std::alloc::AllocError;

/// The text in a literal that denotes one character.
#[derive(Clone, Copy, PartialEq, Eq, Debug)]
pub enum Element {
    /// A character, as its number.
    Byte(u8),
    /// An escape sequence with a number over 255.
    Large,
    /// A byte that may not appear in a literal, or a backslash that begins no escape sequence.
    Unreadable,
    /// The beginning of a universal character name (6.4.3).
    Universal,
}

/// The element that the first bytes of a text denote.
#[derive(Clone, Copy, PartialEq, Eq, Debug)]
pub struct Part {
    /// How many bytes they are.
    pub count: usize,
    /// The element that they denote.
    pub element: Element,
}

/// The faults found so far between the quotes of a string literal.
#[derive(Clone, Copy, PartialEq, Eq, Debug)]
pub struct Met {
    /// A universal character name, or a prefix.
    pub universal: bool,
    /// A bad escape or byte.
    pub unreadable: bool,
    /// A number over 255.
    pub large: bool,
}

// The character with this number, which is `None` where it is over 18446744073709551615.
fn numbered(value: Option<u64>) -> Element
    ensures { (v : ℕ) → MatchOption value (18446744073709551615 < v) (λ w. w ≡ v) → result ≡ numbered v }
{
    let Some(value) = value else {
        return Element::Large;
    };
    match u8::try_from(value) {
        Ok(byte) => Element::Byte(byte),
        Err(_) => Element::Large,
    }
}

// The element that a backslash and this byte denote.
#[tactic(auto, unfolding(crate::specs::Literals::simple))]
fn simple(byte: u8) -> Element
    ensures { result ≡ simple byte }
{
    match byte {
        b'\'' => Element::Byte(b'\''),
        b'"' => Element::Byte(b'"'),
        b'?' => Element::Byte(b'?'),
        b'\\' => Element::Byte(b'\\'),
        b'a' => Element::Byte(7),
        b'b' => Element::Byte(8),
        b't' => Element::Byte(9),
        b'n' => Element::Byte(10),
        b'v' => Element::Byte(11),
        b'f' => Element::Byte(12),
        b'r' => Element::Byte(13),
        b'u' | b'U' => Element::Universal,
        _ => Element::Unreadable,
    }
}

// The text's first bytes, or all where there are fewer.
fn front(text: &[u8], count: usize) -> &[u8]
    ensures { result.now ≡ take count text.now }
{
    if count <= text.len() {
        &text[..count]
    } else {
        text
    }
}

// The octal escape sequence whose digits come first.
fn octal(text: &[u8]) -> Part
    ensures { result ≡ octal text.now }
{
    let count = digit_count(8, front(text, 3));
    Part {
        count: 1 + count,
        element: numbered(value(8, front(text, count))),
    }
}

// The hexadecimal escape sequence whose digits come first.
fn hexadecimal(text: &[u8]) -> Part
    requires { length text.now < 9223372036854775807 }
    ensures { result ≡ hexadecimal text.now }
{
    let count = digit_count(16, text);
    if count == 0 {
        return Part {
            count: 2,
            element: Element::Unreadable,
        };
    }
    Part {
        count: 2 + count,
        element: numbered(value(16, front(text, count))),
    }
}

// The first part of a backslash followed by this text.
fn escape(text: &[u8]) -> Part
    ensures { result ≡ escape text.now }
{
    let [byte, rest @ ..] = text else {
        return Part {
            count: 1,
            element: Element::Unreadable,
        };
    };
    if is_digit(8, *byte) {
        octal(text)
    } else if *byte == b'x' {
        hexadecimal(rest)
    } else {
        Part {
            count: 2,
            element: simple(*byte),
        }
    }
}

// Whether the byte is a tab or printable.
fn is_plain(byte: u8) -> bool
    ensures { result ≡ is_plain byte }
{
    byte == b'\t' || (b' ' <= byte && byte <= b'~')
}

// The element of a byte that denotes itself.
fn plain(byte: u8) -> Element
    ensures { result ≡ (if is_plain byte then Element.Byte byte else Element.Unreadable) }
{
    if is_plain(byte) {
        Element::Byte(byte)
    } else {
        Element::Unreadable
    }
}

// The first part of a text that is not empty.
fn first_part(text: &[u8]) -> Part
    requires { 0 < length text.now }
    ensures part { result ≡ part_at text.now }
    ensures some { 0 < result.count }
{
    let byte = byte_at(text, 0);
    if byte == b'\\' {
        escape(behind(text, 1))
    } else {
        Part {
            count: 1,
            element: plain(byte),
        }
    }
}

// Whether a literal has a prefix.
fn is_prefixed(quote: u8, spelling: &[u8]) -> bool
    ensures { result ≡ is_prefixed quote spelling.now }
{
    byte_at(spelling, 0) != quote
}

fn between_quotes(spelling: &[u8]) -> &[u8]
    ensures { result.now ≡ between_quotes spelling.now }
{
    front(behind(spelling, 1), spelling.len().saturating_sub(2))
}

// The constant that one character makes.
fn character_of(element: Element) -> Result<Constant, Code>
    ensures { result ≡ character_of element }
{
    match element {
        Element::Universal => Err(Code::LeftOutLiteral),
        Element::Unreadable => Err(Code::BadLiteral),
        Element::Large => Err(Code::ConstantOutOfRange),
        Element::Byte(byte) => Ok(Constant {
            of: IntType::Int,
            value: u32::from(byte),
        }),
    }
}

/// The constant that a character constant is, or the code of its fault.
pub fn character(spelling: &[u8]) -> Result<Constant, Code>
    ensures { result ≡ character spelling.now }
{
    if is_prefixed(b'\'', spelling) {
        return Err(Code::LeftOutLiteral);
    }
    let text = between_quotes(spelling);
    if text.is_empty() {
        return Err(Code::LeftOutLiteral);
    }
    let part = first_part(text);
    if part.count < text.len() {
        return Err(Code::LeftOutLiteral);
    }
    character_of(part.element)
}

// Appends the byte of an element, if it has one, and collects its fault, if it has one.
fn put(element: Element, met: Met, bytes: &mut Vec<u8>) -> Result<Met, AllocError>
    ensures { IfOk result (λ after. IsDecoded bytes.old.items met (element ∷ []) bytes.new.items after) }
{
    match element {
        Element::Byte(byte) => {
            bytes.push(byte)?;
            Ok(met)
        }
        Element::Large => Ok(Met { large: true, ..met }),
        Element::Unreadable => Ok(Met {
            unreadable: true,
            ..met
        }),
        Element::Universal => Ok(Met {
            universal: true,
            ..met
        }),
    }
}

// Appends the bytes of the elements between the quotes, and collects their faults.
fn decode(text: &[u8], before: Met, bytes: &mut Vec<u8>) -> Result<Met, AllocError>
    ensures { IfOk result (λ after. IsDecoded bytes.old.items before (elements 0 text.now) bytes.new.items after) }
{
    let mut met = before;
    let mut rest = text;
    while !rest.is_empty() {
        let part = first_part(rest);
        met = put(part.element, met, bytes)?;
        rest = behind(rest, part.count);
    }
    Ok(met)
}

// The code of the fault that comes first.
fn fault_of(met: Met) -> Option<Code>
    ensures { result ≡ fault_of met }
{
    if met.universal {
        Some(Code::LeftOutLiteral)
    } else if met.unreadable {
        Some(Code::BadLiteral)
    } else if met.large {
        Some(Code::ConstantOutOfRange)
    } else {
        None
    }
}

/// Appends the bytes of a string literal, without a terminating zero byte.
///
/// Fails with 801 where memory runs out, and with the literal's fault, at `pos`.
pub(crate) fn string(spelling: &[u8], pos: Pos, bytes: &mut Vec<u8>) -> Result<(), Refusal>
    ensures ok { OnOk result (IsAppended (string spelling.now) bytes.old.items bytes.new.items) }
    ensures err { IfErr result (λ e. IsRefusal e pos (string spelling.now)) }
{
    let before = Met {
        universal: is_prefixed(b'"', spelling),
        unreadable: false,
        large: false,
    };
    let met = decode(between_quotes(spelling), before, bytes)?;
    match fault_of(met) {
        Some(code) => Err(Refusal::At { code, pos }),
        None => Ok(()),
    }
}
