//! The elements of an object.

use interp_store::Reference;
use std::alloc::{AllocError, Global};

/// How many elements of an array are reported where all get first values.
const MOST: usize = 16;

/// The first elements of an object.
#[derive(Drop)]
pub(crate) struct Parts {
    pub list: Vec<Reference>,
    /// Whether there are further ones.
    pub has_more: bool,
}

/// The first elements of the object with this number, whose arrays have these lengths. An object that is no array is its only element.
pub(crate) fn first_parts(
    alloc: Global,
    object: usize,
    lengths: &[u32],
) -> Result<Parts, AllocError> {
    let count = count_of(lengths);
    let mut list = Vec::new(alloc);
    for number in 0..count.min(MOST) {
        list.push(part_of(alloc, object, lengths, number)?)?;
    }
    Ok(Parts {
        list,
        has_more: count > MOST,
    })
}

/// How many elements there are.
fn count_of(lengths: &[u32]) -> usize {
    let mut count: usize = 1;
    for length in lengths {
        count = count.saturating_mul(*length as usize);
    }
    count
}

/// The element with this number, counted from 0 in the order in which they lie (6.5.2.1p3).
fn part_of(
    alloc: Global,
    object: usize,
    lengths: &[u32],
    number: usize,
) -> Result<Reference, AllocError> {
    let mut part = Reference::whole(object);
    let mut rest = number;
    for place in 0..lengths.len() {
        let inner = count_of(lengths.get(place.saturating_add(1)..).unwrap_or_default());
        part = part.into_part(alloc, rest.checked_div(inner).unwrap_or_default())?;
        rest = rest.checked_rem(inner).unwrap_or_default();
    }
    Ok(part)
}
