//! The notes on a fault.

use crate::advising::put_advice;
use crate::asking::{Asking, Compiler};
use crate::enum_ends::put_enum_end;
use crate::finding::{Noted, Place, Topic, point_at};
use crate::hints::hint;
use crate::includes::Includes;
use crate::macro_notes::{find_macro, put_first_definition, put_macro_note};
use crate::near::{nearest_directive, nearest_file};
use crate::related::put_related;
use crate::sources::Sources;
use crate::undeclared::put_undeclared;
use explain_places::{Spot, Tokens};
use srcset::Fault;
use std::alloc::{AllocError, Global};
use std::str;

/// How an `#include` names a header.
const HEADER_FORM: &str = "a header is named as in #include \"NAME\" or #include <NAME>";

/// The notes of a fault: the macro of its token, the includes that lead to it, what was expected or meant, the other place that is involved,
/// a hint, and the files that nothing includes, where the fault may come from that.
pub fn notes<C: Compiler>(
    alloc: Global,
    asking: &Asking<'_, C>,
    includes: &Includes,
    place: Option<Place>,
    fault: &Fault,
) -> Result<Noted, AllocError> {
    let mut noted = Noted::new(alloc);
    match place {
        Some(at) => put_place_notes(alloc, asking, includes, at, fault, &mut noted)?,
        None => put_file_notes(alloc, asking.sources, fault, &mut noted)?,
    }
    if matches!(fault.code, 232 | 551 | 552) {
        put_unused_files(alloc, asking.sources, includes, &mut noted)?;
    }
    Ok(noted)
}

/// Puts the notes of a fault whose place is not known, or that is about a file.
fn put_file_notes(
    alloc: Global,
    sources: &Sources,
    fault: &Fault,
    noted: &mut Noted,
) -> Result<(), AllocError> {
    if fault.code == 111 {
        if let Some(file) = sources.number(fault.file.as_str()) {
            let text = sources.text(file);
            let end = point_at(text, text.len());
            noted.put_fix(alloc, end, end, "\n")?;
        }
    }
    noted.put_text(alloc, Topic::Hint, hint(fault.code, b""))
}

/// Puts the notes of a fault whose place is known.
fn put_place_notes<C: Compiler>(
    alloc: Global,
    asking: &Asking<'_, C>,
    includes: &Includes,
    place: Place,
    fault: &Fault,
    noted: &mut Noted,
) -> Result<(), AllocError> {
    let sources = asking.sources;
    let token = sources
        .text(place.file)
        .get(place.start..place.end)
        .unwrap_or_default();
    match fault.code {
        401 => put_advice(alloc, asking, place, noted)?,
        511 => put_enum_end(alloc, asking, place, fault, noted)?,
        528 => put_undeclared(alloc, asking, place, fault, noted)?,
        201 => put_first_definition(alloc, sources, place, noted)?,
        232 | 233 => put_directive_notes(alloc, sources, place, fault.code, noted)?,
        code => put_related(alloc, sources, place, code, noted)?,
    }
    let is_told = !noted.fixes.is_empty() && matches!(fault.code, 232 | 511);
    if fault.code > 208 {
        put_macro_note(alloc, sources, token, noted)?;
    }
    includes.put_notes(alloc, sources, place.file, &mut noted.notes)?;
    put_bytes(alloc, fault.code, token, noted)?;
    if is_told {
        return Ok(());
    }
    noted.put_text(
        alloc,
        Topic::Hint,
        hint(fault.code, with_quote(sources, place)),
    )
}

/// The token at a place; with the quote behind it where both are an empty character constant.
fn with_quote(sources: &Sources, place: Place) -> &[u8] {
    let text = sources.text(place.file);
    let token = text.get(place.start..place.end).unwrap_or_default();
    let longer = text
        .get(place.start..place.end.saturating_add(1))
        .unwrap_or_default();
    if matches!(longer, b"''") {
        longer
    } else {
        token
    }
}

/// Puts the header or directive that may be meant, and the superfluous tokens in it.
fn put_directive_notes(
    alloc: Global,
    sources: &Sources,
    place: Place,
    code: u16,
    noted: &mut Noted,
) -> Result<(), AllocError> {
    let text = sources.text(place.file);
    let token = text.get(place.start..place.end).unwrap_or_default();
    if code == 232 {
        return put_header_name(alloc, sources, place, noted);
    }
    let Some(tokens) = Tokens::of(alloc, text)? else {
        return Ok(());
    };
    if matches!(token, b"include") {
        return put_header_notes(alloc, sources, &tokens, place, noted);
    }
    if !hint(code, token).is_empty() {
        return Ok(());
    }
    let meant = nearest_directive(alloc, token)?;
    put_suggestion(alloc, meant, noted)
}

/// Puts the file that is meant by the name of a header: the one of this name in quotes, or one whose name is similar.
fn put_header_name(
    alloc: Global,
    sources: &Sources,
    place: Place,
    noted: &mut Noted,
) -> Result<(), AllocError> {
    let text = sources.text(place.file);
    let token = text.get(place.start..place.end).unwrap_or_default();
    let Some(name) = bracketed(token) else {
        let meant = nearest_file(alloc, sources, token)?;
        return put_suggestion(alloc, meant, noted);
    };
    if sources.number(name).is_none() {
        return Ok(());
    }
    noted.put_text(
        alloc,
        Topic::Hint,
        "it is one of the files that are given: in angle brackets stands a built-in header, so write its name in quotes",
    )?;
    let quoted = format!(in alloc; "\"{name}\"")?;
    let (start, end) = (point_at(text, place.start), point_at(text, place.end));
    noted.put_fix(alloc, start, end, quoted.as_str())
}

/// The text between angle brackets.
fn bracketed(token: &[u8]) -> Option<&str> {
    let Ok(text) = str::from_utf8(token) else {
        return None;
    };
    text.strip_prefix("<")?.strip_suffix(">")
}

/// Puts how an `#include` names a header, where it does not, or else the token after the header.
fn put_header_notes(
    alloc: Global,
    sources: &Sources,
    tokens: &Tokens<'_>,
    place: Place,
    noted: &mut Noted,
) -> Result<(), AllocError> {
    let header = match token_behind(tokens, place.start, 1) {
        Some(spot) => spelled(sources.text(place.file), spot),
        None => b"".as_slice(),
    };
    if !names_header(header) {
        return match find_macro(alloc, sources, header)? {
            Some(_) => Ok(()),
            None => noted.put_text(alloc, Topic::Hint, HEADER_FORM),
        };
    }
    match token_behind(tokens, place.start, 2) {
        Some(spot) => put_superfluous(alloc, sources, place.file, spot, noted),
        None => Ok(()),
    }
}

/// Puts a token after the header of an `#include`.
fn put_superfluous(
    alloc: Global,
    sources: &Sources,
    file: usize,
    spot: Spot,
    noted: &mut Noted,
) -> Result<(), AllocError> {
    let text = sources.text(file);
    let (start, end) = (point_at(text, spot.start), point_at(text, spot.end));
    noted.put_at(
        alloc,
        Topic::Expected,
        sources.name(file),
        start,
        "nothing stands behind the header's name",
    )?;
    noted.put_fix(alloc, start, end, "")
}

/// A token as it is written.
fn spelled(text: &[u8], spot: Spot) -> &[u8] {
    text.get(spot.start..spot.end).unwrap_or_default()
}

/// Whether a token is a header's name in its quotes or brackets.
fn names_header(token: &[u8]) -> bool {
    token.len() > 2
        && (token.starts_with(b"\"") && token.ends_with(b"\"")
            || token.starts_with(b"<") && token.ends_with(b">"))
}

/// The token that is so many tokens after the one that begins there, where it is of the same directive.
fn token_behind(tokens: &Tokens<'_>, start: usize, count: usize) -> Option<Spot> {
    let number = tokens.spots.iter().position(|spot| spot.start == start)?;
    let spot = tokens.spot(number.saturating_add(count))?;
    if spot.in_directive && !spot.is_first {
        Some(spot)
    } else {
        None
    }
}

/// Puts the bytes of a literal that are no characters of C, as escapes.
fn put_bytes(alloc: Global, code: u16, token: &[u8], noted: &mut Noted) -> Result<(), AllocError> {
    if !matches!(code, 302 | 607) || token.iter().all(|byte| *byte < 0x80) {
        return Ok(());
    }
    let mut text = String::from_str(alloc, "write the bytes as escapes: ")?;
    for byte in token {
        if *byte < 0x80 {
            text.push(*byte as char)?;
        } else {
            text.push_str(format!(in alloc; "\\x{byte:02x}")?.as_str())?;
        }
    }
    noted.put_text(alloc, Topic::Hint, text.as_str())
}

fn put_suggestion(
    alloc: Global,
    meant: Option<String>,
    noted: &mut Noted,
) -> Result<(), AllocError> {
    match meant {
        Some(name) => {
            let name = name.as_str();
            let text = format!(in alloc; "did you mean `{name}`?")?;
            noted.put_text(alloc, Topic::Suggestion, text.as_str())
        }
        None => Ok(()),
    }
}

/// Puts a note for each file that nothing includes, but the first file.
fn put_unused_files(
    alloc: Global,
    sources: &Sources,
    includes: &Includes,
    noted: &mut Noted,
) -> Result<(), AllocError> {
    for (number, file) in sources.files.iter().enumerate() {
        if includes.passes_by(number) {
            let name = file.name.as_str();
            let text = format!(in alloc; "`{name}` of FILES is included by nothing")?;
            noted.put_text(alloc, Topic::Hint, text.as_str())?;
        }
    }
    Ok(())
}
