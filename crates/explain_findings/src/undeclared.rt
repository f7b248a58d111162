//! A name that nothing declares (528).

use crate::advising::token_point;
use crate::asking::{Answer, Asking, Compiler};
use crate::finding::{Noted, Place, Topic, point_at};
use crate::macro_notes::{MacroPlace, find_macro, is_parameter, replacement};
use crate::near::nearest_visible;
use crate::sources::Sources;
use declaration_places::{is_identifier, last_named, visible};
use explain_places::Tokens;
use source_words::Words;
use srcset::Fault;
use std::alloc::{AllocError, Global};

/// The most names of a macro that are tried.
const MAX_TRIED: usize = 16;

/// Puts the name that may be meant by the undeclared name at this place, or the file or header that declares it.
pub fn put_undeclared<C: Compiler>(
    alloc: Global,
    asking: &Asking<'_, C>,
    place: Place,
    fault: &Fault,
    noted: &mut Noted,
) -> Result<(), AllocError> {
    let sources = asking.sources;
    let Some(words) = Words::of(alloc, sources.text(place.file))? else {
        return Ok(());
    };
    let Some(number) = words.number_at(place.start) else {
        return Ok(());
    };
    if let Some(found) = find_macro(alloc, sources, words.at(number))? {
        return put_name_in_macro(alloc, asking, fault, found, noted);
    }
    let known = library_help(words.at(number));
    if !known.is_empty() {
        return noted.put_text(alloc, Topic::Hint, known);
    }
    if put_later(alloc, sources.name(place.file), &words, number, noted)? {
        return Ok(());
    }
    if is_counter(&words, number) {
        return noted.put_text(
            alloc,
            Topic::Hint,
            "declare it in the head: for (int i = 0; ..",
        );
    }
    put_nearest(alloc, sources, place, &words, number, noted)
}

/// Whether the name with this number is given its first value in the head of a `for`.
fn is_counter(words: &Words<'_>, number: usize) -> bool {
    let open = number.saturating_sub(1);
    matches!(
        (
            words.before(open),
            words.at(open),
            words.at(number.saturating_add(1))
        ),
        (b"for", b"(", b"=")
    )
}

/// Puts the nearest visible name, as a suggestion.
fn put_nearest(
    alloc: Global,
    sources: &Sources,
    place: Place,
    words: &Words<'_>,
    number: usize,
    noted: &mut Noted,
) -> Result<(), AllocError> {
    let Some(name) = nearest_visible(alloc, sources, words, number)? else {
        return Ok(());
    };
    let meant = name.as_str();
    let text = format!(in alloc; "did you mean `{meant}`?")?;
    noted.put_text(alloc, Topic::Suggestion, text.as_str())?;
    let bytes = words.bytes();
    let (start, end) = (point_at(bytes, place.start), point_at(bytes, place.end));
    noted.put_fix(alloc, start, end, meant)
}

/// Puts where a file declares the name after its use; returns whether it does.
fn put_later(
    alloc: Global,
    file: &str,
    words: &Words<'_>,
    number: usize,
    noted: &mut Noted,
) -> Result<bool, AllocError> {
    let declared = visible(alloc, words, words.list.len())?;
    match last_named(words, declared.as_slice(), words.at(number)) {
        Some(later) if later.name > number => {
            noted.put_at(
                alloc,
                Topic::Related,
                file,
                token_point(words, later.name),
                "declared here, behind this use: a name is declared before it is used",
            )?;
            Ok(true)
        }
        _ => Ok(false),
    }
}

/// The header or declaration of a well-known name; empty for any other name.
fn library_help(name: &[u8]) -> &'static str {
    match name {
        b"rv_getbyte" | b"rv_putbyte" | b"rv_exit" => "`#include <rvio.h>` declares it",
        b"true" | b"false" | b"bool" => "`#include <stdbool.h>` defines it",
        b"CHAR_BIT"
        | b"CHAR_MAX"
        | b"CHAR_MIN"
        | b"INT_MAX"
        | b"INT_MIN"
        | b"UINT_MAX"
        | b"LONG_MAX"
        | b"LONG_MIN"
        | b"ULONG_MAX"
        | b"SHRT_MAX"
        | b"SHRT_MIN"
        | b"SCHAR_MAX"
        | b"SCHAR_MIN"
        | b"UCHAR_MAX"
        | b"USHRT_MAX" => "`#include <limits.h>` defines it",
        b"and" | b"or" | b"not" | b"xor" | b"bitand" | b"bitor" | b"compl" =>
            "`#include <iso646.h>` defines it",
        b"NULL" => "there are no pointers: write 0, or test a number",
        b"printf" | b"puts" | b"putchar" | b"fprintf" =>
            "there is no C library: write a byte by rv_putbyte of <rvio.h>",
        b"getchar" | b"scanf" | b"gets" | b"fgets" =>
            "there is no C library: read a byte by rv_getbyte of <rvio.h>",
        b"exit" | b"abort" => "there is no C library: end the program by rv_exit of <rvio.h>",
        b"malloc" | b"calloc" | b"free" => "there is no C library: declare an array",
        _ => "",
    }
}

/// Puts which name of a macro nothing declares: the one without which the fault is another.
fn put_name_in_macro<C: Compiler>(
    alloc: Global,
    asking: &Asking<'_, C>,
    fault: &Fault,
    found: MacroPlace,
    noted: &mut Noted,
) -> Result<(), AllocError> {
    let text = asking.sources.text(found.file);
    let Some(tokens) = Tokens::of(alloc, text)? else {
        return Ok(());
    };
    let first = replacement(&tokens, found.hash);
    let mut is_found = false;
    for number in first..first.saturating_add(MAX_TRIED) {
        if !is_found && is_own_name(&tokens, found.hash, number) {
            is_found = is_cause(alloc, asking, fault, found.file, &tokens, number)?;
            if is_found {
                put_inner(alloc, asking.sources, found.file, &tokens, number, noted)?;
            }
        }
    }
    Ok(())
}

/// Whether the token with this number is a name of the macro's own that the program has as it stands: no parameter, and no part of what `##` makes.
fn is_own_name(tokens: &Tokens<'_>, hash: usize, number: usize) -> bool {
    let name = tokens.spelling(number);
    let is_joined = is_paste(tokens.spelling(number.saturating_sub(1)))
        || is_paste(tokens.spelling(number.saturating_add(1)));
    let is_inside = match tokens.spot(number) {
        Some(spot) => spot.in_directive && !spot.is_first,
        None => false,
    };
    is_inside && !is_joined && is_identifier(name) && !is_parameter(tokens, hash, name)
}

/// Whether a token joins those around it.
fn is_paste(token: &[u8]) -> bool {
    matches!(token, b"##" | b"%:%:")
}

/// Whether the source has no fault up to this one and at its line where this token is a number.
fn is_cause<C: Compiler>(
    alloc: Global,
    asking: &Asking<'_, C>,
    fault: &Fault,
    file: usize,
    tokens: &Tokens<'_>,
    number: usize,
) -> Result<bool, AllocError> {
    let Some(spot) = tokens.spot(number) else {
        return Ok(false);
    };
    let text = asking.sources.text(file);
    let mut changed = Vec::from_slice(alloc, text.get(..spot.start).unwrap_or_default())?;
    changed.push(b'0')?;
    changed.extend_from_slice(text.get(spot.end..).unwrap_or_default())?;
    Ok(match asking.answer_with(alloc, file, &changed)? {
        Answer::Accepted => true,
        Answer::Refused(other) => is_later(&other, fault),
        Answer::NotTaken => false,
    })
}

/// Whether a fault is found behind another: at the end of the program, on a later line, or in another file.
fn is_later(other: &Fault, fault: &Fault) -> bool {
    matches!(other.code, 551 | 552)
        || other.code > 500
            && (other.file.as_str() != fault.file.as_str() || other.line > fault.line)
}

/// Puts that a name in a macro is not declared, at its place.
fn put_inner(
    alloc: Global,
    sources: &Sources,
    file: usize,
    tokens: &Tokens<'_>,
    number: usize,
    noted: &mut Noted,
) -> Result<(), AllocError> {
    let Some(spot) = tokens.spot(number) else {
        return Ok(());
    };
    let name = String::from_utf8_lossy(alloc, tokens.spelling(number))?;
    let name = name.as_str();
    let text = format!(in alloc; "`{name}`, which the macro makes, is the undeclared name")?;
    let at = point_at(sources.text(file), spot.start);
    noted.put_at(alloc, Topic::Related, sources.name(file), at, text.as_str())
}
