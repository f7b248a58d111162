//! A `;` that is missing behind the enumerators of a declaration (511).

use crate::asking::{Answer, Asking, Compiler};
use crate::finding::{Noted, Place, Topic, point_at};
use declaration_places::{close_behind, is_identifier, is_type_word};
use source_words::Words;
use srcset::Fault;
use std::alloc::{AllocError, Global};

/// Puts that a `;` is missing behind the `}` of the enumeration at this place, where the program has no fault up to there with it.
pub fn put_enum_end<C: Compiler>(
    alloc: Global,
    asking: &Asking<'_, C>,
    place: Place,
    fault: &Fault,
    noted: &mut Noted,
) -> Result<(), AllocError> {
    let text = asking.sources.text(place.file);
    let Some(words) = Words::of(alloc, text)? else {
        return Ok(());
    };
    let Some(close) = list_end(&words, place.start) else {
        return Ok(());
    };
    let end = words.end(close);
    if !helps(alloc, asking, place.file, end, fault)? {
        return Ok(());
    }
    let at = point_at(text, end);
    let file = asking.sources.name(place.file);
    noted.put_at(alloc, Topic::Expected, file, at, "expected `;` after `}`")?;
    noted.put_fix(alloc, at, at, ";")
}

/// The number of the `}` that ends the enumerators of the `enum` at this offset, where the next token begins a declaration.
fn list_end(words: &Words<'_>, start: usize) -> Option<usize> {
    let number = words.number_at(start)?;
    if !matches!(words.at(number), b"enum") {
        return None;
    }
    let next = number.saturating_add(1);
    let open = if is_identifier(words.at(next)) {
        next.saturating_add(1)
    } else {
        next
    };
    if !matches!(words.at(open), b"{") {
        return None;
    }
    let close = close_behind(words, open)?;
    if is_type_word(words.at(close.saturating_add(1))) {
        Some(close)
    } else {
        None
    }
}

/// Whether the fault is gone where a `;` is at this offset of its file.
fn helps<C: Compiler>(
    alloc: Global,
    asking: &Asking<'_, C>,
    file: usize,
    offset: usize,
    fault: &Fault,
) -> Result<bool, AllocError> {
    let text = asking.sources.text(file);
    let mut changed = Vec::from_slice(alloc, text.get(..offset).unwrap_or_default())?;
    changed.push(b';')?;
    changed.extend_from_slice(text.get(offset..).unwrap_or_default())?;
    Ok(match asking.answer_with(alloc, file, &changed)? {
        Answer::Accepted => true,
        Answer::Refused(other) => {
            other.code > 500 && (other.code != fault.code || other.line != fault.line)
        }
        Answer::NotTaken => false,
    })
}
