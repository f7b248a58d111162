//! Names at a place that requires a type.

use crate::expectation::{Candidate, Expected, replaced, tried};
use crate::vocabulary::{is_front, is_identifier};
use source_words::Words;

/// The type of the language for a name that people know from elsewhere; empty where it is none of these.
pub fn known_type(name: &[u8]) -> &'static str {
    match name {
        b"bool" | b"boolean" | b"Boolean" => "_Bool",
        b"byte" | b"uint8_t" | b"u8" | b"uchar" => "unsigned char",
        b"int8_t" | b"i8" => "signed char",
        b"uint16_t" | b"u16" | b"ushort" => "unsigned short",
        b"int16_t" | b"i16" => "short",
        b"uint32_t" | b"u32" | b"uint" | b"size_t" => "unsigned int",
        b"int32_t" | b"i32" | b"ssize_t" | b"integer" => "int",
        _ => "",
    }
}

/// The number of the name at a place that requires a type, where the token with this number does not fit.
fn name_for_type(words: &Words<'_>, number: usize) -> Option<usize> {
    let next = number.saturating_add(1);
    if is_identifier(words.at(number))
        && is_identifier(words.at(next))
        && is_front(words.before(number))
    {
        return Some(number);
    }
    let before = number.checked_sub(1)?;
    if !is_identifier(words.at(before)) {
        return cast_name(words, before);
    }
    if is_identifier(words.at(number)) && is_front(words.before(before)) {
        return Some(before);
    }
    None
}

/// The name between parentheses that end with this token, where it is alone.
fn cast_name(words: &Words<'_>, close: usize) -> Option<usize> {
    let name = close.checked_sub(1)?;
    let is_alone = matches!(words.at(close), b")") && matches!(words.before(name), b"(");
    if is_alone && is_identifier(words.at(name)) {
        return Some(name);
    }
    None
}

/// A type in place of a name, where one is wanted at the token with this number.
pub fn type_name(words: &Words<'_>, number: usize) -> Option<Candidate> {
    let name = name_for_type(words, number)?;
    let known = known_type(words.at(name));
    let past = name.saturating_add(1);
    if known.is_empty() {
        return Some(tried(replaced(words, name, past, Expected::TypeName, "int")));
    }
    Some(replaced(words, name, past, Expected::TypeName, known))
}

/// The same, for a name that is known from elsewhere.
pub fn known_type_name(words: &Words<'_>, number: usize) -> Option<Candidate> {
    let candidate = type_name(words, number)?;
    if candidate.is_fix {
        Some(candidate)
    } else {
        None
    }
}
