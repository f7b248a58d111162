//! Hexadecimal digits.

use std::alloc::AllocError;

/// Puts a byte as two hexadecimal digits, with A to F capital.
pub fn put_byte(out: &mut Vec<u8>, byte: u8) -> Result<(), AllocError> {
    out.push(digit(byte / 16))?;
    out.push(digit(byte % 16))?;
    Ok(())
}

/// Puts a word as eight hexadecimal digits.
pub fn put_word(out: &mut Vec<u8>, word: u32) -> Result<(), AllocError> {
    for byte in word.to_be_bytes() {
        put_byte(out, byte)?;
    }
    Ok(())
}

fn digit(value: u8) -> u8 {
    match b"0123456789ABCDEF".get(value as usize) {
        Some(letter) => *letter,
        None => b'0',
    }
}
