//! The work of a program: that of its files, each as often as it may be included.

use crate::lines::is_directive;
use crate::macros::Macros;
use crate::meter::{Meter, Scaled};
use lsp_names::{Index, Word};
use std::alloc::{AllocError, Global};

/// How deep files include one another at most (the limit of the compiler), the main one among them.
const LEVELS: usize = 33;

/// An `#include` of one file in another.
#[derive(Clone, Copy)]
struct Included {
    by: usize,
    file: usize,
}

/// The work with a program of `files` files: how many tokens the preprocessor handles, each counted as often as macros copy it, once more for each
/// call around it, and as often as its file may be included. A file that begins with `#ifndef` counts once.
pub fn work_of(alloc: Global, index: &Index, files: usize) -> Result<u64, AllocError> {
    let macros = Macros::of(alloc, index, files)?;
    let mut own = Vec::new(alloc);
    let mut includes = Vec::new(alloc);
    for file in 0..files {
        own.push(own_work(alloc, index, &macros, file)?)?;
        put_includes(index, file, &mut includes)?;
    }
    let mut whole = Vec::from_slice(alloc, own.as_slice())?;
    for _ in 0..LEVELS {
        whole = one_level(alloc, own.as_slice(), whole.as_slice(), includes.as_slice())?;
    }
    Ok(sum_of(index, whole.as_slice()))
}

/// The work with the text of a file, its directives among it.
fn own_work(alloc: Global, index: &Index, macros: &Macros, file: usize) -> Result<u64, AllocError> {
    let words = index.words(file);
    let mut meter = Meter::new(alloc, macros, None);
    let mut directives: u64 = 1;
    for (number, word) in words.iter().enumerate() {
        if word.in_directive {
            directives = directives.saturating_add(1);
        } else {
            meter.take(*word, words.get(number.saturating_add(1)))?;
        }
    }
    let Scaled(size) = meter.scaled();
    Ok(size.saturating_add(directives))
}

/// Puts the files that a file includes, but files that are guarded.
fn put_includes(
    index: &Index,
    file: usize,
    includes: &mut Vec<Included>,
) -> Result<(), AllocError> {
    let words = index.words(file);
    for (number, word) in words.iter().enumerate() {
        if word.is_first && is_directive(index, words, number, "include") {
            if let Some(other) = included_at(index, words, number) {
                includes.push(Included {
                    by: file,
                    file: other,
                })?;
            }
        }
    }
    Ok(())
}

/// The file that the directive names which begins with this token; `None` where it is guarded, or not known.
fn included_at(index: &Index, words: &[Word], first: usize) -> Option<usize> {
    let name = words.get(first.saturating_add(2))?;
    let other = index.file_of(name.name)?;
    if is_guarded(index, other) {
        None
    } else {
        Some(other)
    }
}

fn is_guarded(index: &Index, file: usize) -> bool {
    is_directive(index, index.words(file), 0, "ifndef")
}

/// The work of each file with those that it includes, where that of the included ones is known one level less deep.
fn one_level(
    alloc: Global,
    own: &[u64],
    whole: &[u64],
    includes: &[Included],
) -> Result<Vec<u64>, AllocError> {
    let mut next = Vec::from_slice(alloc, own)?;
    for include in includes {
        let more = whole.get(include.file).copied().unwrap_or(0);
        if let Some(entry) = next.get_mut(include.by) {
            *entry = entry.saturating_add(more);
        }
    }
    Ok(next)
}

/// The work of the first file, with that of each guarded file once.
fn sum_of(index: &Index, whole: &[u64]) -> u64 {
    let mut sum: u64 = 0;
    for (file, work) in whole.iter().enumerate() {
        if file == 0 || is_guarded(index, file) {
            sum = sum.saturating_add(*work);
        }
    }
    sum
}
