//! What was expected at a syntax error: the change of the source with which parsing gets furthest shows it.

use crate::asking::{Answer, Asking, Compiler};
use crate::finding::{Noted, Place, Point, Topic, point_at};
use crate::macro_notes::{MacroPlace, find_macro};
use crate::sources::Sources;
use explain_places::{Spot, Tokens};
use source_words::Words;
use srcset::Fault;
use std::alloc::{AllocError, Global};
use syntax_advice::{
    Candidate, Expected, LoneElse, Trial, candidates, expected_help, expected_text, head,
    lone_else, open_before, trial_text,
};

/// How far a source is read that has no syntax error left.
const TO_THE_END: u32 = 0xffff_ffff;

/// How the function looks with which a program begins.
const MAIN_FORM: &str = "a program begins with `int main(void)`, which takes no arguments";

/// The place of a syntax error.
#[derive(Clone, Copy)]
struct Site<'a> {
    sources: &'a Sources,
    file: usize,
    // The number of the token that does not fit.
    number: usize,
}

/// Puts what was expected at this place, where a change of the source that is tried moves the fault on.
pub fn put_advice<C: Compiler>(
    alloc: Global,
    asking: &Asking<'_, C>,
    place: Place,
    noted: &mut Noted,
) -> Result<(), AllocError> {
    let sources = asking.sources;
    let Some(words) = Words::of(alloc, sources.text(place.file))? else {
        return Ok(());
    };
    let Some(number) = words.number_at(place.start) else {
        return Ok(());
    };
    let site = Site {
        sources,
        file: place.file,
        number,
    };
    if matches!(words.at(number), b"else") {
        return put_lone_else(alloc, site, &words, noted);
    }
    let maker = find_macro(alloc, sources, words.at(number))?;
    if let Some(found) = maker {
        if put_macro_body(alloc, asking, found, noted)? {
            return Ok(());
        }
    }
    match best(alloc, asking, site, &words, maker.is_some())? {
        Some(candidate) => put_candidate(alloc, site, &words, candidate, noted),
        None => put_open_at_end(alloc, site, &words, noted),
    }
}

/// Puts the bracket or block that is open at the end of the file, where the last token is the one that does not fit.
fn put_open_at_end(
    alloc: Global,
    site: Site<'_>,
    words: &Words<'_>,
    noted: &mut Noted,
) -> Result<(), AllocError> {
    let past = site.number.saturating_add(1);
    if past < words.list.len() {
        return Ok(());
    }
    match open_before(words, past) {
        Some(open) => put_token(
            alloc,
            site,
            words,
            open,
            "is open at the end of the file",
            noted,
        ),
        None => Ok(()),
    }
}

/// Puts the superfluous part of the macro that makes the token; returns whether the source can be parsed without it.
fn put_macro_body<C: Compiler>(
    alloc: Global,
    asking: &Asking<'_, C>,
    found: MacroPlace,
    noted: &mut Noted,
) -> Result<bool, AllocError> {
    let text = asking.sources.text(found.file);
    let Some(tokens) = Tokens::of(alloc, text)? else {
        return Ok(false);
    };
    let Some(spot) = stray_token(&tokens, found.hash) else {
        return Ok(false);
    };
    if !helps_without(alloc, asking, found.file, spot)? {
        return Ok(false);
    }
    noted.put_at(
        alloc,
        Topic::Expected,
        asking.sources.name(found.file),
        point_at(text, spot.start),
        "this is a part of what the macro stands for",
    )?;
    Ok(true)
}

/// The `=` with which the text of a macro begins, or the `;` with which it ends.
fn stray_token(tokens: &Tokens<'_>, hash: usize) -> Option<Spot> {
    let first = hash.saturating_add(3);
    if matches!(tokens.spelling(first), b"=") {
        return tokens.spot(first);
    }
    let last = last_of_directive(tokens, first);
    if matches!(tokens.spelling(last), b";") {
        tokens.spot(last)
    } else {
        None
    }
}

/// The last token of the directive that contains the token with this number.
fn last_of_directive(tokens: &Tokens<'_>, first: usize) -> usize {
    let mut last = first;
    for number in first..tokens.spots.len() {
        match tokens.spot(number) {
            Some(spot) if spot.in_directive && !spot.is_first => last = number,
            _ => break,
        }
    }
    last
}

/// Whether the source has no syntax error without this token.
fn helps_without<C: Compiler>(
    alloc: Global,
    asking: &Asking<'_, C>,
    file: usize,
    spot: Spot,
) -> Result<bool, AllocError> {
    let mut text = Vec::from_slice(alloc, asking.sources.text(file))?;
    blank(text.as_mut_slice(), spot);
    Ok(match asking.answer_with(alloc, file, &text)? {
        Answer::Accepted => true,
        Answer::Refused(fault) => matches!(fault.code, 501..=553 | 620..=623 | 712..=716),
        Answer::NotTaken => false,
    })
}

/// Puts a space in the place of a token of one character.
fn blank(text: &mut [u8], spot: Spot) {
    if let Some(byte) = text.get_mut(spot.start) {
        *byte = b' ';
    }
}

/// The change with which the source is read furthest, the first of those; `None` where none moves the fault on.
fn best<C: Compiler>(
    alloc: Global,
    asking: &Asking<'_, C>,
    site: Site<'_>,
    words: &Words<'_>,
    is_macro: bool,
) -> Result<Option<Candidate>, AllocError> {
    let sure = head(words, site.number);
    if sure.is_some() {
        return Ok(sure);
    }
    let list = candidates(alloc, words, site.number)?;
    let mut best = list.len();
    let mut furthest = 0;
    for (number, candidate) in list.iter().enumerate() {
        let is_apt = (!is_macro || candidate.start == candidate.end)
            && !closes_open(words, site.number, candidate.expected);
        if is_apt && furthest != TO_THE_END {
            let reached = reached(alloc, asking, site, words, *candidate)?;
            if reached > furthest {
                furthest = reached;
                best = number;
            }
        }
    }
    Ok(list.get(best).copied())
}

/// Whether a token that would be superfluous, as nothing is open that it closes, closes what is open.
fn closes_open(words: &Words<'_>, number: usize, expected: Expected) -> bool {
    if !matches!(expected, Expected::Unmatched) {
        return false;
    }
    let mut place = number;
    for _ in 0..words.list.len() {
        let Some(open) = open_before(words, place) else {
            return false;
        };
        if is_pair(words.at(open), words.at(number)) {
            return true;
        }
        place = open;
    }
    false
}

/// Whether one token opens what the other closes.
fn is_pair(open: &[u8], close: &[u8]) -> bool {
    matches!((open, close), (b"(", b")") | (b"[", b"]") | (b"{", b"}"))
}

/// The line up to which the source is read with a change; 0 where it does not help.
fn reached<C: Compiler>(
    alloc: Global,
    asking: &Asking<'_, C>,
    site: Site<'_>,
    words: &Words<'_>,
    candidate: Candidate,
) -> Result<u32, AllocError> {
    let file = site.sources.name(site.file);
    let trial = trial_text(alloc, words, site.number, candidate, file == asking.main)?;
    match asking.answer_with(alloc, site.file, &trial.text)? {
        Answer::Accepted => Ok(TO_THE_END),
        Answer::Refused(fault) => Ok(line_reached(&fault, file, &trial)),
        Answer::NotTaken => Ok(0),
    }
}

/// The line up to which a trial is read that has this fault.
fn line_reached(fault: &Fault, file: &str, trial: &Trial) -> u32 {
    match fault.code {
        501..=553 | 620..=623 | 712..=716 => TO_THE_END,
        401 if fault.file.as_str() != file || fault.line >= trial.last => TO_THE_END,
        401 if fault.line >= trial.helps_from => fault.line,
        _ => 0,
    }
}

/// Puts what a change shows about the token that does not fit.
fn put_candidate(
    alloc: Global,
    site: Site<'_>,
    words: &Words<'_>,
    candidate: Candidate,
    noted: &mut Noted,
) -> Result<(), AllocError> {
    let bytes = words.bytes();
    let replaced = bytes
        .get(candidate.start..candidate.end)
        .unwrap_or_default();
    put_expected(alloc, site, words, candidate, replaced, noted)?;
    put_open(alloc, site, words, candidate, noted)?;
    noted.put_text(
        alloc,
        Topic::Hint,
        expected_help(candidate.expected, replaced),
    )?;
    if is_head_of_main(words, site.number) && !matches!(candidate.expected, Expected::Body) {
        noted.put_text(alloc, Topic::Hint, MAIN_FORM)?;
    }
    if candidate.is_fix {
        let start = point_at(bytes, candidate.start);
        let end = point_at(bytes, candidate.end);
        noted.put_fix(alloc, start, end, candidate.text)?;
    }
    Ok(())
}

/// Whether the token with this number is between the parentheses after `main`.
fn is_head_of_main(words: &Words<'_>, number: usize) -> bool {
    match open_before(words, number) {
        Some(open) => matches!(words.before(open), b"main"),
        None => false,
    }
}

/// Puts the text of a change, at its place.
fn put_expected(
    alloc: Global,
    site: Site<'_>,
    words: &Words<'_>,
    candidate: Candidate,
    replaced: &[u8],
    noted: &mut Noted,
) -> Result<(), AllocError> {
    let token = String::from_utf8_lossy(alloc, token_of(words, site.number, candidate))?;
    let word = String::from_utf8_lossy(alloc, replaced)?;
    let text = expected_text(
        alloc,
        candidate.expected,
        token.as_str(),
        word.as_str(),
        candidate.text,
    )?;
    let at = point_at(words.bytes(), candidate.start);
    let file = site.sources.name(site.file);
    noted.put_at(alloc, Topic::Expected, file, at, text.as_str())
}

/// The token that a change is about: the one that follows an insertion, or else the one that does not fit.
fn token_of<'b>(words: &Words<'b>, number: usize, candidate: Candidate) -> &'b [u8] {
    if candidate.start != candidate.end {
        return words.at(number);
    }
    let place = candidate.end;
    match words.list.iter().position(|word| word.start >= place) {
        Some(behind) => words.at(behind),
        None => b"the end of the file",
    }
}

/// Puts where that is open which a change closes.
fn put_open(
    alloc: Global,
    site: Site<'_>,
    words: &Words<'_>,
    candidate: Candidate,
    noted: &mut Noted,
) -> Result<(), AllocError> {
    let closes = matches!(
        candidate.expected,
        Expected::CloseParenthesis | Expected::CloseBracket | Expected::CloseBrace
    );
    if !closes {
        return Ok(());
    }
    match open_before(words, site.number) {
        Some(open) => put_token(alloc, site, words, open, "is open", noted),
        None => Ok(()),
    }
}

/// Puts that the token with this number does something.
fn put_token(
    alloc: Global,
    site: Site<'_>,
    words: &Words<'_>,
    number: usize,
    does: &str,
    noted: &mut Noted,
) -> Result<(), AllocError> {
    let token = String::from_utf8_lossy(alloc, words.at(number))?;
    let token = token.as_str();
    let text = format!(in alloc; "this `{token}` {does}")?;
    let at = token_point(words, number);
    noted.put_at(
        alloc,
        Topic::Related,
        site.sources.name(site.file),
        at,
        text.as_str(),
    )
}

/// The place of the token with this number.
pub(crate) fn token_point(words: &Words<'_>, number: usize) -> Point {
    point_at(words.bytes(), words.start(number))
}

/// Puts why an `else` has no `if`.
fn put_lone_else(
    alloc: Global,
    site: Site<'_>,
    words: &Words<'_>,
    noted: &mut Noted,
) -> Result<(), AllocError> {
    let file = site.sources.name(site.file);
    let at = token_point(words, site.number);
    noted.put_at(alloc, Topic::Expected, file, at, "`else` without `if`")?;
    match lone_else(words, site.number) {
        LoneElse::NoIf => Ok(()),
        LoneElse::EmptyBody(semicolon) => put_token(
            alloc,
            site,
            words,
            semicolon,
            "is the whole body of the `if`",
            noted,
        ),
        LoneElse::Ended(start) => {
            put_token(
                alloc,
                site,
                words,
                start,
                "ended with its first statement",
                noted,
            )?;
            noted.put_text(
                alloc,
                Topic::Hint,
                "put braces around the statements between the `if` and the `else`",
            )
        }
    }
}
