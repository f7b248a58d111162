//! The pieces of a file's bytes that its program headers load.

use loader::{LoadFault, load};
use std::alloc::{AllocError, Global};

/// `PT_LOAD` (System V gABI, chapter 5).
const LOAD: u32 = 1;

/// Bytes of a file that are loaded at an address.
#[derive(Clone, Copy, Debug)]
pub struct Piece {
    pub address: u32,
    /// The number of bytes of the file before them.
    pub start: usize,
    /// How many bytes of the file there are up to their end.
    pub end: usize,
}

/// The bytes that a file loads, by rising addresses; pieces that are loaded as zeros alone are left out. Refuses as `load` does.
pub fn pieces(alloc: Global, file: &[u8]) -> Result<Vec<Piece>, LoadFault> {
    match load(alloc, file) {
        Ok(_) => match loaded_pieces(alloc, file) {
            Ok(found) => Ok(found),
            Err(_) => Err(LoadFault::Memory),
        },
        Err(fault) => Err(fault),
    }
}

/// The address of a file's first instruction.
pub fn entry(file: &[u8]) -> u32 {
    number(file, 24, 4)
}

/// The pieces that the program headers name.
fn loaded_pieces(alloc: Global, file: &[u8]) -> Result<Vec<Piece>, AllocError> {
    let table = number(file, 28, 4) as usize;
    let mut found = Vec::new(alloc);
    for header in 0..number(file, 44, 2) as usize {
        let at = table.saturating_add(header.saturating_mul(32));
        if number(file, at, 4) == LOAD {
            let start = number(file, at.saturating_add(4), 4) as usize;
            let size = number(file, at.saturating_add(16), 4) as usize;
            let piece = Piece {
                address: number(file, at.saturating_add(8), 4),
                start,
                end: start.saturating_add(size),
            };
            if size != 0 {
                put(&mut found, piece)?;
            }
        }
    }
    Ok(found)
}

/// Puts a piece before the first that has a higher address.
fn put(found: &mut Vec<Piece>, piece: Piece) -> Result<(), AllocError> {
    let at = match found.iter().position(|other| other.address > piece.address) {
        Some(at) => at,
        None => found.len(),
    };
    found.insert(at, piece)?;
    Ok(())
}

/// The number in `size` bytes from `at` on, at most four, the lowest first; bytes past the file's end are zero.
fn number(file: &[u8], at: usize, size: usize) -> u32 {
    let mut sum: u32 = 0;
    for place in (0..size).rev() {
        let byte = match file.get(at.saturating_add(place)) {
            Some(byte) => *byte,
            None => 0,
        };
        sum = sum.wrapping_mul(256).wrapping_add(u32::from(byte));
    }
    sum
}

/// How many bytes the parts of a file have in memory.
#[derive(Clone, Copy, Debug)]
pub struct Sizes {
    /// The bytes that can be executed.
    pub text: u32,
    /// The bytes that are loaded from the file, and cannot be executed.
    pub data: u32,
    /// The bytes that are loaded as zeros after such data.
    pub zeros: u32,
    /// The bytes that are loaded as zeros alone.
    pub stack: u32,
}

/// `PF_X` (System V gABI, chapter 5).
const EXECUTES: u32 = 1;

/// How many bytes the parts of a file have that can be loaded.
pub fn sizes_of(file: &[u8]) -> Sizes {
    let table = number(file, 28, 4) as usize;
    let mut all = Sizes {
        text: 0,
        data: 0,
        zeros: 0,
        stack: 0,
    };
    for header in 0..number(file, 44, 2) as usize {
        let at = table.saturating_add(header.saturating_mul(32));
        if number(file, at, 4) == LOAD {
            all = with_header(all, file, at);
        }
    }
    all
}

/// The sums with the part whose program header is at `at`.
fn with_header(all: Sizes, file: &[u8], at: usize) -> Sizes {
    let stored = number(file, at.saturating_add(16), 4);
    let whole = number(file, at.saturating_add(20), 4);
    let mut all = all;
    if number(file, at.saturating_add(24), 4) % 2 == EXECUTES {
        all.text = all.text.wrapping_add(whole);
    } else if stored == 0 {
        all.stack = all.stack.wrapping_add(whole);
    } else {
        all.data = all.data.wrapping_add(stored);
        all.zeros = all.zeros.wrapping_add(whole.wrapping_sub(stored));
    }
    all
}
