//! The bytes alone.

use crate::headers::Piece;
use std::alloc::{AllocError, Global};

/// The most bytes of an image: those that the segments of a file may have together.
const MAX_IMAGE: usize = 134_217_728;

/// The bytes from the first that a file loads to the last, with zeros between its pieces; the stack and the zeros loaded
/// at the end are left out. `None` where they are more than 134,217,728.
pub fn binary(alloc: Global, file: &[u8], pieces: &[Piece]) -> Result<Option<Vec<u8>>, AllocError> {
    let mut image = Vec::new(alloc);
    let Some(first) = pieces.first() else {
        return Ok(Some(image));
    };
    for piece in pieces {
        let bytes = file.get(piece.start..piece.end).unwrap_or_default();
        let place = piece.address.saturating_sub(first.address) as usize;
        if place.saturating_add(bytes.len()) > MAX_IMAGE {
            return Ok(None);
        }
        image.resize(place, 0)?;
        image.extend_from_slice(bytes)?;
    }
    Ok(Some(image))
}
