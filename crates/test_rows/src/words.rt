//! The words of a field, and numbers.

use std::alloc::Global;

/// The rest of a field, with this byte between its words.
#[derive(Drop)]
pub struct Words<'w> {
    rest: &'w [u8],
    between: u8,
    is_over: bool,
}

impl<'w> Words<'w> {
    /// All words of a field.
    pub fn new(field: &'w [u8], between: u8) -> Words<'w> {
        Words {
            rest: field,
            between,
            is_over: false,
        }
    }

    /// Whether no word is left.
    pub fn is_over(&self) -> bool {
        self.is_over
    }

    /// The next word; after the last one, an empty one.
    pub fn word(&mut self) -> &'w [u8] {
        let rest = self.rest;
        for index in 0..rest.len() {
            if rest[index] == self.between {
                self.rest = &rest[index + 1..];
                return &rest[..index];
            }
        }
        self.rest = b"";
        self.is_over = true;
        rest
    }

    /// The next word as a number, as `decimal` reads it.
    pub fn number(&mut self) -> i64 {
        decimal(self.word())
    }
}

/// The number of these digits, which a minus may precede. Other characters count as no digits, and a number that is too large wraps.
pub fn decimal(digits: &[u8]) -> i64 {
    let mut value: i64 = 0;
    let mut is_negative = false;
    for byte in digits {
        if byte.is_ascii_digit() {
            let digit = i64::from(byte.wrapping_sub(b'0'));
            value = value.wrapping_mul(10).wrapping_add(digit);
        } else if *byte == b'-' {
            is_negative = true;
        }
    }
    if is_negative {
        0_i64.wrapping_sub(value)
    } else {
        value
    }
}

/// The value of a hexadecimal digit.
pub fn digit(byte: u8) -> u8 {
    match byte {
        b'0'..=b'9' => byte - b'0',
        b'a'..=b'f' => byte - b'a' + 10,
        b'A'..=b'F' => byte - b'A' + 10,
        _ => 0,
    }
}

/// The number of these hexadecimal digits. A number that is too large wraps.
pub fn hexadecimal(digits: &[u8]) -> u32 {
    let mut value: u32 = 0;
    for byte in digits {
        value = value.wrapping_mul(16).wrapping_add(u32::from(digit(*byte)));
    }
    value
}

/// Bytes of two hexadecimal digits each. Where memory runs out, some are missing.
pub fn bytes(alloc: Global, digits: &[u8]) -> Vec<u8> {
    let mut bytes = Vec::new(alloc);
    for pair in digits.chunks(2) {
        let byte = (hexadecimal(pair) % 0x100) as u8;
        if bytes.push(byte).is_err() {
            return bytes;
        }
    }
    bytes
}
