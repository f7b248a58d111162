//! Numbers and texts as the sections for debuggers have them.

use std::alloc::AllocError;

/// Its low 32 bits.
pub(crate) fn low_word(count: usize) -> u32 {
    (count % 0x1_0000_0000) as u32
}

/// A text and a zero byte.
pub(crate) fn put_text(bytes: &mut Vec<u8>, text: &str) -> Result<(), AllocError> {
    bytes.extend_from_slice(text.as_bytes())?;
    bytes.push(0)?;
    Ok(())
}

pub(crate) fn put_word(bytes: &mut Vec<u8>, word: u32) -> Result<(), AllocError> {
    bytes.extend_from_slice(&word.to_le_bytes())
}

/// A number in groups of seven bits, the lowest first, of which all but the last have their high bit set (7.6, LEB128).
pub(crate) fn put_number(bytes: &mut Vec<u8>, number: u32) -> Result<(), AllocError> {
    let mut left = number;
    for _ in 0..4 {
        if left < 0x80 {
            break;
        }
        bytes.push((left % 0x80) as u8 | 0x80)?;
        left /= 0x80;
    }
    bytes.push((left % 0x80) as u8)?;
    Ok(())
}

/// A number with a sign in such groups: the second highest bit of the last is the sign.
pub(crate) fn put_signed(bytes: &mut Vec<u8>, number: u32) -> Result<(), AllocError> {
    let sign = if number < 0x8000_0000 { 0 } else { 0xFE00_0000 };
    let mut left = number;
    for _ in 0..5 {
        let low = (left % 0x80) as u8;
        left = (left / 0x80).wrapping_add(sign);
        let is_end = (left == 0 && low < 0x40) || (left == 0xFFFF_FFFF && low >= 0x40);
        bytes.push(if is_end { low } else { low | 0x80 })?;
        if is_end {
            break;
        }
    }
    Ok(())
}
