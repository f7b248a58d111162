//! Values as JSON (RFC 8259).

use std::alloc::{AllocError, Global};

/// Appends a string with its quotes. It escapes `"`, `\` and the characters below U+0020 (RFC 8259, section 7).
pub fn put_string(alloc: Global, text: &str, out: &mut String) -> Result<(), AllocError> {
    out.push('"')?;
    for letter in text.chars() {
        match letter {
            '"' => out.push_str("\\\"")?,
            '\\' => out.push_str("\\\\")?,
            '\n' => out.push_str("\\n")?,
            '\0'..='\x1f' | '\x7f' => {
                let number = letter as u32;
                out.push_str(format!(in alloc; "\\u{number:04x}")?.as_str())?;
            }
            _ => out.push(letter)?,
        }
    }
    out.push('"')
}

/// Appends a number.
pub fn put_number(alloc: Global, number: i64, out: &mut String) -> Result<(), AllocError> {
    out.push_str(format!(in alloc; "{number}")?.as_str())
}
