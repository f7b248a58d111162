//! The form that `$readmemh` reads (IEEE 1800-2017, 21.4), for a memory of bytes.

use crate::digits::{put_byte, put_word};
use crate::headers::Piece;
use std::alloc::{AllocError, Global};

/// Bytes of a line.
const WIDTH: usize = 16;

/// Each piece after a line `@ADDRESS`, its bytes as two digits each, 16 a line.
pub fn verilog_memory(alloc: Global, file: &[u8], pieces: &[Piece]) -> Result<Vec<u8>, AllocError> {
    let mut out = Vec::new(alloc);
    for piece in pieces {
        out.push(b'@')?;
        put_word(&mut out, piece.address)?;
        out.push(b'\n')?;
        put_lines(
            &mut out,
            file.get(piece.start..piece.end).unwrap_or_default(),
        )?;
    }
    Ok(out)
}

fn put_lines(out: &mut Vec<u8>, bytes: &[u8]) -> Result<(), AllocError> {
    for (number, byte) in bytes.iter().enumerate() {
        put_byte(out, *byte)?;
        let ends_line = number % WIDTH == WIDTH - 1;
        if ends_line {
            out.push(b'\n')?;
        } else {
            out.push(b' ')?;
        }
    }
    if bytes.len() % WIDTH != 0 {
        out.push(b'\n')?;
    }
    Ok(())
}
