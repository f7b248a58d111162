//! Intel's hexadecimal object file format (Intel, revision A of 1988).

use crate::digits::put_byte;
use crate::headers::Piece;
use std::alloc::{AllocError, Global};

/// Bytes of a record of data.
const WIDTH: usize = 16;

/// The pieces as records of data (00), each after a record of the upper half of its address (04) where that changes, then the
/// address of the first instruction (05) and the end (01). Lines end in a newline.
pub fn intel_hex(
    alloc: Global,
    file: &[u8],
    pieces: &[Piece],
    entry: u32,
) -> Result<Vec<u8>, AllocError> {
    let mut out = Vec::new(alloc);
    let mut upper = 0;
    for piece in pieces {
        let bytes = file.get(piece.start..piece.end).unwrap_or_default();
        upper = put_piece(&mut out, piece.address, bytes, upper)?;
    }
    put_record(&mut out, 0, 5, &entry.to_be_bytes())?;
    put_record(&mut out, 0, 1, &[])?;
    Ok(out)
}

/// Puts the bytes at an address, where the last record of an upper half had this one; returns that of the last byte.
fn put_piece(out: &mut Vec<u8>, address: u32, bytes: &[u8], upper: u32) -> Result<u32, AllocError> {
    let mut upper = upper;
    let mut at = address;
    let mut rest = bytes;
    for _ in 0..bytes.len() {
        if rest.is_empty() {
            break;
        }
        if at / 0x1_0000 != upper {
            upper = at / 0x1_0000;
            put_record(out, 0, 4, &((upper % 0x1_0000) as u16).to_be_bytes())?;
        }
        let count = (WIDTH - at as usize % WIDTH).min(rest.len());
        let (line, behind) = rest.split_at(count);
        put_record(out, (at % 0x1_0000) as u16, 0, line)?;
        at = at.wrapping_add(count as u32);
        rest = behind;
    }
    Ok(upper)
}

/// Puts a record: its length, its offset, its type, its bytes and the two's complement of the sum of all these.
fn put_record(out: &mut Vec<u8>, offset: u16, kind: u8, bytes: &[u8]) -> Result<(), AllocError> {
    let [high, low] = offset.to_be_bytes();
    let length = (bytes.len() % 256) as u8;
    out.push(b':')?;
    let mut sum: u8 = 0;
    for byte in [length, high, low, kind] {
        put_byte(out, byte)?;
        sum = sum.wrapping_add(byte);
    }
    for byte in bytes {
        put_byte(out, *byte)?;
        sum = sum.wrapping_add(*byte);
    }
    put_byte(out, sum.wrapping_neg())?;
    out.push(b'\n')?;
    Ok(())
}
