//! A source file laid out otherwise, so that the line of a compiler's message identifies the token that it is about.

use crate::spots::Spot;
use std::alloc::{AllocError, Global};

/// The same file where each token of this line but the first begins a line of its own: the k-th token, counted from 0, is then k lines further on. Tokens of
/// directives stay.
pub fn laid_out(
    alloc: Global,
    bytes: &[u8],
    spots: &[Spot],
    line: u32,
) -> Result<Vec<u8>, AllocError> {
    let mut text = Vec::new(alloc);
    let mut done = 0;
    let mut is_first = true;
    for spot in spots {
        if spot.line == line && !spot.in_directive {
            if !is_first {
                text.extend_from_slice(bytes.get(done..spot.start).unwrap_or_default())?;
                text.push(b'\n')?;
                done = spot.start;
            }
            is_first = false;
        }
    }
    text.extend_from_slice(bytes.get(done..).unwrap_or_default())?;
    Ok(text)
}

/// Puts spaces in the place of tokens, but of those of directives: lines stay where they are.
pub fn blank(bytes: &mut [u8], spots: &[Spot]) {
    for spot in spots {
        if !spot.in_directive {
            if let Some(token) = bytes.get_mut(spot.start..spot.end) {
                blank_bytes(token);
            }
        }
    }
}

fn blank_bytes(bytes: &mut [u8]) {
    for byte in bytes.iter_mut() {
        if *byte != b'\n' && *byte != b'\r' {
            *byte = b' ';
        }
    }
}
