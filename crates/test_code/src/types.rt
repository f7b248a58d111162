//! The meanings of letters and of words of digits.

use ctypes::IntType;
use test_rows::{Words, decimal};

/// The type that a letter denotes.
pub fn int_type(letter: u8) -> IntType {
    match letter {
        b'b' => IntType::Bool,
        b'c' => IntType::Char,
        b'a' => IntType::SChar,
        b'h' => IntType::UChar,
        b's' => IntType::Short,
        b't' => IntType::UShort,
        b'j' => IntType::UInt,
        b'l' => IntType::Long,
        b'm' => IntType::ULong,
        _ => IntType::Int,
    }
}

/// The first byte of a word, or 0.
pub fn letter_of(word: &[u8]) -> u8 {
    match word {
        [letter, ..] => *letter,
        [] => 0,
    }
}

/// The number in a word, whatever letter precedes it.
pub fn place_of(word: &[u8]) -> usize {
    usize::try_from(decimal(word)).unwrap_or(0)
}

/// The word of a number, which may be negative.
pub fn constant(digits: &[u8]) -> u32 {
    let value = decimal(digits);
    match u32::try_from(value) {
        Ok(word) => word,
        Err(_) => 0u32.wrapping_sub(u32::try_from(0i64.wrapping_sub(value)).unwrap_or(0)),
    }
}

/// The next word's letter.
pub fn next_letter(words: &mut Words<'_>) -> u8 {
    letter_of(words.word())
}

/// The next word's number.
pub fn next_place(words: &mut Words<'_>) -> usize {
    place_of(words.word())
}
