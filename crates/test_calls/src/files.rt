//! Files described by a text.

use std::alloc::Global;
use test_rows::{Words, bytes};

/// A file of `SIZE PLACE=BYTES PLACE=BYTES ..`: `SIZE` bytes, 0 where no others are given.
pub fn file_of(alloc: Global, text: &[u8]) -> Vec<u8> {
    let mut words = Words::new(text, b' ');
    let size = usize::try_from(words.number()).unwrap_or(0);
    let mut file = vec![in alloc; 0; size].unwrap_or(Vec::new(alloc));
    for _ in 0..text.len() {
        if words.is_over() {
            break;
        }
        let mut parts = Words::new(words.word(), b'=');
        let place = usize::try_from(parts.number()).unwrap_or(0);
        put(
            file.as_mut_slice(),
            place,
            bytes(alloc, parts.word()).as_slice(),
        );
    }
    file
}

fn put(file: &mut [u8], place: usize, bytes: &[u8]) {
    let mut at = place;
    for byte in bytes {
        if at < file.len() {
            file[at] = *byte;
            at += 1;
        }
    }
}
