//! The macro that made a token.

use crate::finding::{Noted, Place, Topic, point_at};
use crate::sources::Sources;
use explain_places::Tokens;
use std::alloc::{AllocError, Global};

/// Where a macro is defined.
#[derive(Clone, Copy)]
pub struct MacroPlace {
    /// The number of the file.
    pub file: usize,
    /// The number of the directive's `#` among the tokens of the file.
    pub hash: usize,
    /// The number of bytes before the macro's name.
    start: usize,
}

/// Where a macro of this name is defined in the files.
pub fn find_macro(
    alloc: Global,
    sources: &Sources,
    name: &[u8],
) -> Result<Option<MacroPlace>, AllocError> {
    for (file, source) in sources.files.iter().enumerate() {
        if let Some(tokens) = Tokens::of(alloc, source.text.as_slice())? {
            if let Some((hash, start)) = definition(&tokens, name) {
                return Ok(Some(MacroPlace { file, hash, start }));
            }
        }
    }
    Ok(None)
}

/// Puts a note where a macro of this name is defined in the files.
pub fn put_macro_note(
    alloc: Global,
    sources: &Sources,
    name: &[u8],
    noted: &mut Noted,
) -> Result<(), AllocError> {
    match find_macro(alloc, sources, name)? {
        Some(found) => noted.put_at(
            alloc,
            Topic::Macro,
            sources.name(found.file),
            point_at(sources.text(found.file), found.start),
            "the token is a macro, or made by one, which is defined here",
        ),
        None => Ok(()),
    }
}

/// Puts where the macro with the name at this place is defined in the files elsewhere, where that is one place.
pub fn put_first_definition(
    alloc: Global,
    sources: &Sources,
    place: Place,
    noted: &mut Noted,
) -> Result<(), AllocError> {
    let mut found = Vec::new(alloc);
    for file in 0..sources.files.len() {
        put_others(alloc, sources, file, place, &mut found)?;
    }
    if found.len() != 1 {
        return Ok(());
    }
    match found.first().copied() {
        Some((file, start)) => put_definition(alloc, sources, file, start, noted),
        None => Ok(()),
    }
}

/// Appends the places of a file that define the macro with the name at this place, but that place itself.
fn put_others(
    alloc: Global,
    sources: &Sources,
    file: usize,
    place: Place,
    found: &mut Vec<(usize, usize)>,
) -> Result<(), AllocError> {
    let name = sources
        .text(place.file)
        .get(place.start..place.end)
        .unwrap_or_default();
    for start in &definitions(alloc, sources.text(file), name)? {
        if file != place.file || *start != place.start {
            found.push((file, *start))?;
        }
    }
    Ok(())
}

/// Puts that a macro is defined at this place before. Where `#line` changes the lines of a file, none is named.
fn put_definition(
    alloc: Global,
    sources: &Sources,
    file: usize,
    start: usize,
    noted: &mut Noted,
) -> Result<(), AllocError> {
    let text = sources.text(file);
    if has_line(alloc, text)? {
        return Ok(());
    }
    noted.put_at(
        alloc,
        Topic::Related,
        sources.name(file),
        point_at(text, start),
        "defined here before",
    )
}

/// Whether a file has a `#line`.
fn has_line(alloc: Global, text: &[u8]) -> Result<bool, AllocError> {
    match Tokens::of(alloc, text)? {
        Some(tokens) => Ok((0..tokens.spots.len()).any(|number| {
            begins(&tokens, number, b"line")
        })),
        None => Ok(true),
    }
}

/// Where a file defines a macro of this name: how many bytes are before its name.
fn definitions(alloc: Global, text: &[u8], name: &[u8]) -> Result<Vec<usize>, AllocError> {
    let mut found = Vec::new(alloc);
    let Some(tokens) = Tokens::of(alloc, text)? else {
        return Ok(found);
    };
    for number in 0..tokens.spots.len() {
        if defines(&tokens, number, name) {
            if let Some(spot) = tokens.spot(number.saturating_add(2)) {
                found.push(spot.start)?;
            }
        }
    }
    Ok(found)
}

/// The number of the first token that a macro stands for, whose definition has its `#` there.
pub fn replacement(tokens: &Tokens<'_>, hash: usize) -> usize {
    let open = hash.saturating_add(3);
    if !has_parameters(tokens, open) {
        return open;
    }
    let close = (open..tokens.spots.len()).find(|number| {
        matches!(tokens.spelling(*number), b")")
    });
    match close {
        Some(close) => close.saturating_add(1),
        None => open,
    }
}

/// Whether the token with this number is a `(` directly behind the macro's name.
fn has_parameters(tokens: &Tokens<'_>, open: usize) -> bool {
    match (tokens.spot(open.saturating_sub(1)), tokens.spot(open)) {
        (Some(name), Some(spot)) => {
            matches!(tokens.spelling(open), b"(") && name.end == spot.start
        }
        _ => false,
    }
}

/// Whether a macro, whose definition has its `#` there, has a parameter that is spelled so.
pub fn is_parameter(tokens: &Tokens<'_>, hash: usize, spelling: &[u8]) -> bool {
    let first = hash.saturating_add(3);
    (first..replacement(tokens, hash)).any(|number| {
        is_spelled(tokens.spelling(number), spelling)
    })
}

/// Whether a token among the parameters of a macro is the name that is looked for: `...` is `__VA_ARGS__`.
fn is_spelled(token: &[u8], wanted: &[u8]) -> bool {
    token == wanted || matches!((token, wanted), (b"...", b"__VA_ARGS__"))
}

/// The number of the `#` of the directive that defines a macro, and the number of bytes before the name.
fn definition(tokens: &Tokens<'_>, name: &[u8]) -> Option<(usize, usize)> {
    let hash = (0..tokens.spots.len()).find(|number| defines(tokens, *number, name))?;
    let spot = tokens.spot(hash.saturating_add(2))?;
    Some((hash, spot.start))
}

/// Whether the token with this number begins a directive that defines this name.
fn defines(tokens: &Tokens<'_>, hash: usize, name: &[u8]) -> bool {
    begins(tokens, hash, b"define") && tokens.spelling(hash.saturating_add(2)) == name
}

/// Whether the token with this number begins the directive of this word.
fn begins(tokens: &Tokens<'_>, hash: usize, word: &[u8]) -> bool {
    let is_directive = match tokens.spot(hash) {
        Some(spot) => spot.in_directive && spot.is_first,
        None => false,
    };
    is_directive && tokens.spelling(hash.saturating_add(1)) == word
}
