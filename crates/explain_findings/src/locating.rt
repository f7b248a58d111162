//! The token that a fault is about.

use crate::asking::{Asking, Compiler};
use crate::finding::Place;
use crate::macro_notes::{is_parameter, replacement};
use explain_places::{Spot, Tokens, column, laid_out};
use srcset::Fault;
use std::alloc::{AllocError, Global};
use std::str;

/// The place of a fault. On a line of a directive it follows from the subject of the fault; any other line is laid out
/// anew, one token a line, and compiled again.
pub fn place_of<C: Compiler>(
    alloc: Global,
    asking: &Asking<'_, C>,
    fault: &Fault,
) -> Result<Option<Place>, AllocError> {
    if !speaks_of_token(fault.code) {
        return Ok(None);
    }
    let Some(file) = asking.sources.number(fault.file.as_str()) else {
        return Ok(None);
    };
    let text = asking.sources.text(file);
    let Some(tokens) = Tokens::of(alloc, text)? else {
        return Ok(None);
    };
    let spot = match directive_at(&tokens, fault.line) {
        Some(hash) => match in_directive(&tokens, hash, fault.code) {
            Some(number) => tokens.spot(number),
            None => None,
        },
        None => {
            let again = laid_out(alloc, text, &tokens.spots, fault.line)?;
            match asking.line_again(alloc, fault, file, &again)? {
                Some(line) => nth_on_line(
                    &tokens.spots,
                    fault.line,
                    line.saturating_sub(fault.line),
                ),
                None => None,
            }
        }
    };
    Ok(match spot {
        Some(spot) => Some(whole_character(text, place_at(file, text, spot))),
        None => None,
    })
}

/// The place up to the end of a character of UTF-8 whose first byte it has.
fn whole_character(text: &[u8], place: Place) -> Place {
    let rest = text.get(place.start..).unwrap_or_default();
    let count: usize = match rest {
        [0xc2..=0xdf, 0x80..=0xbf, ..] => 2,
        [0xe0..=0xef, 0x80..=0xbf, 0x80..=0xbf, ..] => 3,
        [0xf0..=0xf4, 0x80..=0xbf, 0x80..=0xbf, 0x80..=0xbf, ..] => 4,
        _ => return place,
    };
    Place {
        end: place.start.saturating_add(count),
        ..place
    }
}

/// Whether the fault with this code is about a token, and not about a file or the whole program.
fn speaks_of_token(code: u16) -> bool {
    !matches!(code, 101..=113 | 551 | 701..=703 | 708 | 711 | 713 | 715 | 716 | 801..=907)
}

/// The place of a token of a file with this number and text.
pub fn place_at(file: usize, text: &[u8], spot: Spot) -> Place {
    Place {
        file,
        start: spot.start,
        end: spot.end,
        line: spot.line,
        column: column(text, spot.start),
    }
}

/// The token of a line after the first `count`; those of directives do not count.
pub fn nth_on_line(spots: &[Spot], line: u32, count: u32) -> Option<Spot> {
    spots
        .iter()
        .filter(|spot| spot.line == line && !spot.in_directive)
        .nth(count as usize)
        .copied()
}

/// The number of the `#` that begins a directive on this line.
fn directive_at(tokens: &Tokens<'_>, line: u32) -> Option<usize> {
    tokens.spots.iter().position(|spot| spot.line == line && spot.is_first && spot.in_directive)
}

/// The token of a directive that a fault of this code is about, by its number; `None` where that is not sure.
fn in_directive(tokens: &Tokens<'_>, hash: usize, code: u16) -> Option<usize> {
    let second = hash.saturating_add(2);
    let number = match code {
        201 | 202 | 204 | 205 | 208 | 232 | 704 | 705 => second,
        203 => stray_hash(tokens, hash)?,
        221 => wrong_operand(tokens, hash)?,
        222 | 223 => lone_operand(tokens, hash)?,
        235 => wrong_line(tokens, hash)?,
        _ => hash.saturating_add(1),
    };
    if is_behind(tokens, number) {
        Some(number)
    } else {
        Some(hash)
    }
}

/// Whether the token with this number is in a directive, and not its first token.
fn is_behind(tokens: &Tokens<'_>, number: usize) -> bool {
    match tokens.spot(number) {
        Some(spot) => spot.in_directive && !spot.is_first,
        None => false,
    }
}

/// The first `#` in what a macro stands for that is before no parameter.
fn stray_hash(tokens: &Tokens<'_>, hash: usize) -> Option<usize> {
    for number in replacement(tokens, hash)..tokens.spots.len() {
        if !is_behind(tokens, number) {
            return None;
        }
        if is_stray(tokens, hash, number) {
            return Some(number);
        }
    }
    None
}

/// Whether the token with this number is a `#` before no parameter of the macro.
fn is_stray(tokens: &Tokens<'_>, hash: usize, number: usize) -> bool {
    let next = number.saturating_add(1);
    let is_before_parameter = is_behind(tokens, next)
        && is_parameter(tokens, hash, tokens.spelling(next));
    matches!(tokens.spelling(number), b"#" | b"%:") && !is_before_parameter
}

/// The one token of a condition; `None` where it has several, any of which may be wrong. The word of the directive, where it has none.
fn lone_operand(tokens: &Tokens<'_>, hash: usize) -> Option<usize> {
    let first = hash.saturating_add(2);
    if !is_behind(tokens, first) {
        return Some(hash.saturating_add(1));
    }
    if is_behind(tokens, first.saturating_add(1)) {
        return None;
    }
    Some(first)
}

/// The one token of a condition, or the first that no condition has, where no name is before it.
fn wrong_operand(tokens: &Tokens<'_>, hash: usize) -> Option<usize> {
    let lone = lone_operand(tokens, hash);
    if lone.is_some() {
        return lone;
    }
    for number in hash.saturating_add(2)..tokens.spots.len() {
        if !is_behind(tokens, number) || is_made(tokens, number) {
            return None;
        }
        if is_no_operand(tokens.spelling(number)) {
            return Some(number);
        }
    }
    None
}

/// Whether the token with this number is a name in a directive, which may be a macro.
fn is_made(tokens: &Tokens<'_>, number: usize) -> bool {
    is_behind(tokens, number) && is_name(tokens.spelling(number))
}

/// Whether a token begins as a name does.
fn is_name(token: &[u8]) -> bool {
    match token.first() {
        Some(letter) => letter.is_ascii_alphabetic() || *letter == b'_',
        None => false,
    }
}

/// Whether a token is a string, a number with a point, or an operator that changes an object: no condition has one (6.10.1p1).
fn is_no_operand(token: &[u8]) -> bool {
    match token {
        [b'"', ..] => true,
        [b'0'..=b'9', ..] => token.contains(&b'.'),
        b"="
        | b"++"
        | b"--"
        | b"+="
        | b"-="
        | b"*="
        | b"/="
        | b"%="
        | b"<<="
        | b">>="
        | b"&="
        | b"^="
        | b"|=" => true,
        _ => false,
    }
}

/// The token of a `#line` that is wrong (6.10.4): the number, or else the name behind it, or else what is behind that; `None` where a macro may make one of them.
fn wrong_line(tokens: &Tokens<'_>, hash: usize) -> Option<usize> {
    let first = hash.saturating_add(2);
    let (second, third) = (first.saturating_add(1), first.saturating_add(2));
    if is_made(tokens, first) || is_made(tokens, second) {
        return None;
    }
    if !is_line_number(tokens.spelling(first)) || !is_behind(tokens, second) {
        return Some(first);
    }
    if tokens.spelling(second).starts_with(b"\"") && is_behind(tokens, third) {
        return Some(third);
    }
    Some(second)
}

/// Whether a token is a number of digits from 1 to 2147483647.
fn is_line_number(token: &[u8]) -> bool {
    match str::from_utf8(token).unwrap_or_default().parse::<u32>() {
        Ok(value) => value >= 1 && value <= 0x7fff_ffff,
        Err(_) => false,
    }
}
