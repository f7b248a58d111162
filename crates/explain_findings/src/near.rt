//! Names that may have been meant.

use crate::sources::Sources;
use declaration_places::visible;
use explain_places::Tokens;
use source_words::Words;
use std::alloc::{AllocError, Global};
use std::str;
use strsim::osa_distance;

/// The longest name that is compared.
const MAX_NAME: usize = 63;

/// The functions of the built-in header.
const BUILT_INS: [&str; 3] = ["rv_getbyte", "rv_putbyte", "rv_exit"];

/// The words of preprocessing directives.
const DIRECTIVES: [&str; 10] = [
    "include", "define", "undef", "ifdef", "ifndef", "endif", "elif", "else", "error", "pragma",
];

/// The nearest name so far, and how far it is.
#[derive(Drop)]
struct Nearby {
    name: String,
    distance: usize,
}

impl Nearby {
    /// No name yet for one of `length` letters: at most a third of them may differ, and one at least.
    fn of(alloc: Global, length: usize) -> Nearby {
        Nearby {
            name: String::new(alloc),
            distance: (length / 3).max(1).saturating_add(1),
        }
    }

    /// The name, where one was near.
    fn found(self) -> Option<String> {
        if self.name.is_empty() {
            None
        } else {
            Some(self.name)
        }
    }
}

/// The name that is visible at the token with this number and nearest to it: a function's where it is called, and else another's.
pub fn nearest_visible(
    alloc: Global,
    sources: &Sources,
    words: &Words<'_>,
    number: usize,
) -> Result<Option<String>, AllocError> {
    let Ok(name) = str::from_utf8(words.at(number)) else {
        return Ok(None);
    };
    if name.len() < 2 || name.len() > MAX_NAME {
        return Ok(None);
    }
    let is_call = matches!(words.at(number.saturating_add(1)), b"(");
    let mut best = Nearby::of(alloc, name.len());
    try_visible(alloc, words, number, is_call, name, &mut best)?;
    for file in &sources.files {
        try_file(
            alloc,
            file.text.as_slice(),
            words.bytes(),
            is_call,
            name,
            &mut best,
        )?;
    }
    if is_call {
        for built_in in BUILT_INS {
            try_name(alloc, name, built_in, &mut best)?;
        }
    }
    Ok(best.found())
}

/// A name as it is written; empty where it has a splice or a trigraph in it.
fn plain_name(written: &[u8]) -> &str {
    if written.iter().any(|byte| matches!(*byte, b'\\' | b'?')) {
        return "";
    }
    str::from_utf8(written).unwrap_or_default()
}

/// Tries the names that are visible at a token.
fn try_visible(
    alloc: Global,
    words: &Words<'_>,
    number: usize,
    is_call: bool,
    name: &str,
    best: &mut Nearby,
) -> Result<(), AllocError> {
    for declared in &visible(alloc, words, number)? {
        if declared.is_function == is_call {
            try_name(alloc, name, plain_name(words.at(declared.name)), best)?;
        }
    }
    Ok(())
}

/// Tries the macros of a file, and, where it is not the file in question, the names that it declares at file scope.
fn try_file(
    alloc: Global,
    text: &[u8],
    asked: &[u8],
    is_call: bool,
    name: &str,
    best: &mut Nearby,
) -> Result<(), AllocError> {
    if text != asked {
        if let Some(words) = Words::of(alloc, text)? {
            try_visible(alloc, &words, words.list.len(), is_call, name, best)?;
        }
    }
    match Tokens::of(alloc, text)? {
        Some(tokens) => try_macros(alloc, &tokens, name, best),
        None => Ok(()),
    }
}

/// Tries the names of the macros that a file defines.
fn try_macros(
    alloc: Global,
    tokens: &Tokens<'_>,
    name: &str,
    best: &mut Nearby,
) -> Result<(), AllocError> {
    for (number, spot) in tokens.spots.iter().enumerate() {
        let defines = spot.in_directive
            && spot.is_first
            && tokens.spelling(number.saturating_add(1)) == b"define".as_slice();
        if defines {
            let other = str::from_utf8(tokens.spelling(number.saturating_add(
                2,
            ))).unwrap_or_default();
            try_name(alloc, name, other, best)?;
        }
    }
    Ok(())
}

/// The name of the file that is nearest to the header's name in these quotes; `None` where none is.
pub fn nearest_file(
    alloc: Global,
    sources: &Sources,
    header: &[u8],
) -> Result<Option<String>, AllocError> {
    let Ok(header) = str::from_utf8(header) else {
        return Ok(None);
    };
    let name = header.trim_matches('"');
    if name.len() > MAX_NAME {
        return Ok(None);
    }
    let mut best = Nearby::of(alloc, name.len());
    for file in &sources.files {
        try_name(alloc, name, file.name.as_str(), &mut best)?;
    }
    Ok(best.found())
}

/// The directive that is nearest to this word; `None` where none is.
pub fn nearest_directive(alloc: Global, word: &[u8]) -> Result<Option<String>, AllocError> {
    let Ok(name) = str::from_utf8(word) else {
        return Ok(None);
    };
    if name.len() > MAX_NAME {
        return Ok(None);
    }
    let mut best = Nearby::of(alloc, name.len());
    for directive in DIRECTIVES {
        try_name(alloc, name, directive, &mut best)?;
    }
    Ok(best.found())
}

/// Takes a name that is nearer than the nearest so far.
fn try_name(alloc: Global, name: &str, other: &str, best: &mut Nearby) -> Result<(), AllocError> {
    if other == name
        || other.is_empty()
        || other.len() > MAX_NAME
        || name.len().abs_diff(other.len()) >= best.distance
    {
        return Ok(());
    }
    let distance = osa_distance(alloc, name, other)?;
    if distance < best.distance {
        best.name = String::from_str(alloc, other)?;
        best.distance = distance;
    }
    Ok(())
}
