//! Leaf functions with words of their frames in temporaries.

ghost use Rattle.std.specs.Prelude.{◌≡◌, ◌≤◌, ◌<◌, ◌+◌, length, true, IfOk, IfSome};
ghost use Rattle.std.specs.Bool.{OnTrue};
ghost use Rattle.std.specs.List.{list_all};
ghost use Rattle.frames_code.specs.Code.{function_of};
ghost use Rattle.frames_leaf.specs.layer.Moving.{is_leaf};
ghost use Rattle.frames_leaf.specs.layer.Functions.{IsMoved, IsLeafAllocated};

use crate::choosing::chosen;
use crate::instructions::{all_moved, are_leaf, home_of};
use frames_code::Function;
use frames_hoist::first_free;
use std::alloc::{AllocError, Global};

/// Words of a frame that live in temporaries, the first one in temporary `first`.
#[derive(Drop)]
struct Words {
    first: usize,
    list: Vec<usize>,
}

/// The words of a leaf function that are used most, where there are temporaries for them.
fn words_of(alloc: Global, function: &Function) -> Result<Option<Words>, AllocError>
    ensures { IfOk result (λ o. IfSome o (λ w. (0 < w.first) × (w.first + length w.list.items ≤ 8) × (list_all (is_leaf w.first) function.now.code.items ≡ true))) }
{
    let first = first_free(&function.code);
    if first == 0 || first >= 8 {
        return Ok(None);
    }
    let list = chosen(alloc, function, first)?;
    if list.is_empty() || list.len() > 8 - first || !are_leaf(first, &function.code) {
        return Ok(None);
    }
    Ok(Some(Words { first, list }))
}

/// A leaf function with these words in temporaries.
fn with_words(alloc: Global, function: Function, words: &Words) -> Result<Function, AllocError>
    requires some { 0 < words.now.first }
    requires few { words.now.first + length words.now.list.items ≤ 8 }
    requires leaf { list_all (is_leaf words.now.first) function.code.items ≡ true }
    ensures { IfOk result (λ g. IsMoved (function_of function) (function_of g)) }
{
    let code = all_moved(alloc, words.first, &words.list, &function.code)?;
    Ok(Function {
        code,
        cells: function.cells,
        resident: function.resident,
        area: function.area,
        outgoing: function.outgoing,
        gives: function.gives,
    })
}

/// A function, where it calls nothing with the words that are used most in those of the temporaries 1 to 7 that it does not name; as it was, where it calls.
pub fn allocate_leaf(alloc: Global, function: Function) -> Result<Function, AllocError>
    ensures { IfOk result (λ g. IsLeafAllocated (function_of function) (function_of g)) }
{
    match words_of(alloc, &function)? {
        Some(words) => {
            let made = with_words(alloc, function, &words)?;
            Ok(made)
        }
        None => Ok(function),
    }
}

/// For each of so many words the temporary that it lives in, if it does.
fn homes_in(
    alloc: Global,
    first: usize,
    words: &[usize],
    count: usize,
) -> Result<Vec<Option<usize>>, AllocError>
    requires { first + length words.now ≤ 8 }
    ensures { IfOk result (λ homes. length homes.items ≡ count) }
{
    let mut homes = Vec::with_capacity(alloc, count)?;
    for word in 0..count {
        homes.push(home_of(first, words, word))?;
    }
    Ok(homes)
}

/// For each word of a function's frame, by its number, the temporary that `allocate_leaf` puts it into, if it does. It is for debuggers.
pub fn leaf_words(alloc: Global, function: &Function) -> Result<Vec<Option<usize>>, AllocError>
    ensures { IfOk result (λ homes. length homes.items ≡ function.now.cells) }
{
    match words_of(alloc, function)? {
        Some(words) => homes_in(alloc, words.first, &words.list, function.cells),
        None => {
            let mut homes = Vec::new(alloc);
            homes.resize(function.cells, None)?;
            Ok(homes)
        }
    }
}
