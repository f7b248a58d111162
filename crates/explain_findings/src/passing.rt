//! The tokens that are skipped so that the next fault is found.

use declaration_places::{close_behind, is_identifier, is_type_word, open_before};
use explain_places::{Spot, Tokens, bodies};
use source_words::{Span, Words};
use std::alloc::{AllocError, Global};

/// The places of the tokens that are skipped for a fault of this code at byte `start`: of its statement, where nothing else
/// depends on that, or else of the function body around it; none where it is in none.
pub fn spots_to_pass(
    alloc: Global,
    text: &[u8],
    start: usize,
    code: u16,
) -> Result<Vec<Spot>, AllocError> {
    let body = body_spots(alloc, text, start)?;
    if code < 501 || body.is_empty() {
        return Ok(body);
    }
    let statements = statement_spots(alloc, text, start, code, body.as_slice())?;
    if statements.is_empty() {
        Ok(body)
    } else {
        Ok(statements)
    }
}

/// The places of the tokens of the function body that contains byte `start`; empty where it is in none.
fn body_spots(alloc: Global, text: &[u8], start: usize) -> Result<Vec<Spot>, AllocError> {
    let none = Vec::new(alloc);
    let Some(tokens) = Tokens::of(alloc, text)? else {
        return Ok(none);
    };
    for body in &bodies(alloc, &tokens)? {
        let spots = tokens.spots.get(body.first..body.past).unwrap_or_default();
        if is_within(spots, start) {
            return Vec::from_slice(alloc, spots);
        }
    }
    Ok(none)
}

/// Whether byte `start` is between the first of these tokens and the last.
fn is_within(spots: &[Spot], start: usize) -> bool {
    match (spots.first(), spots.last()) {
        (Some(first), Some(last)) => first.start <= start && start < last.end,
        _ => false,
    }
}

/// The most uses of an undeclared name whose statements are looked for.
const MAX_USES: usize = 64;

/// The places of the tokens of the statement, and, for an undeclared name, of all others of the body that have it; empty where one of
/// them is no simple one, or where they are many.
fn statement_spots(
    alloc: Global,
    text: &[u8],
    start: usize,
    code: u16,
    body: &[Spot],
) -> Result<Vec<Spot>, AllocError> {
    let mut found = Vec::new(alloc);
    let Some(words) = Words::of(alloc, text)? else {
        return Ok(found);
    };
    let Some(number) = words.number_at(start) else {
        return Ok(found);
    };
    let uses = uses(alloc, &words, number, code, body)?;
    if uses.len() > MAX_USES {
        return Ok(found);
    }
    for number in &uses {
        match simple_statement(&words, *number) {
            Some(statement) => put_spots(&words, statement, &mut found)?,
            None => return Ok(Vec::new(alloc)),
        }
    }
    Ok(found)
}

/// The token with this number, and, for an undeclared name, all others of the body that are spelled so.
fn uses(
    alloc: Global,
    words: &Words<'_>,
    number: usize,
    code: u16,
    body: &[Spot],
) -> Result<Vec<usize>, AllocError> {
    let mut found = vec![in alloc; number]?;
    let end = match body.last() {
        Some(last) => last.end,
        None => 0,
    };
    let name = words.at(number);
    for other in number.saturating_add(1)..words.list.len() {
        if code != 528 || words.start(other) >= end {
            break;
        }
        if words.at(other) == name {
            found.push(other)?;
        }
    }
    Ok(found)
}

/// Puts the places of some tokens.
fn put_spots(words: &Words<'_>, span: Span, found: &mut Vec<Spot>) -> Result<(), AllocError> {
    for place in span.first..span.past {
        found.push(Spot {
            start: words.start(place),
            end: words.end(place),
            line: words.line(place),
            is_first: false,
            in_directive: false,
        })?;
    }
    Ok(())
}

/// The tokens up to its `;` of the statement around a token, where it is an expression or `return`, and declares nothing.
fn simple_statement(words: &Words<'_>, number: usize) -> Option<Span> {
    let outer = outer_token(words, number)?;
    let first = statement_front(words, outer);
    let past = statement_end(words, first)?;
    let front = words.at(first);
    let next = words.at(first.saturating_add(1));
    let declares = is_type_word(front)
        || is_identifier(front) && (is_identifier(next) || is_type_word(next));
    let is_simple = matches!(
        front,
        b"return" | b"(" | b"++" | b"--" | b"-" | b"+" | b"!" | b"~"
    ) || is_identifier(front);
    if is_simple && !declares {
        Some(Span { first, past })
    } else {
        None
    }
}

/// The token with this number, or the outermost `(` or `[` around it in its block.
fn outer_token(words: &Words<'_>, number: usize) -> Option<usize> {
    let mut outer = number;
    for _ in 0..words.list.len() {
        let open = open_before(words, outer)?;
        if matches!(words.at(open), b"{") {
            return Some(outer);
        }
        outer = open;
    }
    None
}

/// The first token of the statement whose token this is, after its labels and after the heads of the statements around it.
fn statement_front(words: &Words<'_>, number: usize) -> usize {
    let mut first = run_front(words, number);
    for _ in 0..number {
        match past_prefix(words, first) {
            Some(past) if past <= number => first = past,
            _ => break,
        }
    }
    first
}

/// The token after the last `;`, `{` or `}` before a token. A `;` in parentheses, as in the head of a `for`, does not count.
fn run_front(words: &Words<'_>, number: usize) -> usize {
    let mut depth: usize = 0;
    let mut first = number;
    for place in (0..number).rev() {
        let token = words.at(place);
        if matches!(token, b"{" | b"}") || depth == 0 && matches!(token, b";") {
            break;
        }
        depth = depth_before(token, depth);
        first = place;
    }
    first
}

/// How many parentheses are closed behind a token and open before it, where so many are after it.
fn depth_before(token: &[u8], depth: usize) -> usize {
    match token {
        b")" => depth.saturating_add(1),
        b"(" => depth.saturating_sub(1),
        _ => depth,
    }
}

/// The token after the label or the head of a statement that begins with this token; `None` where none begins there.
fn past_prefix(words: &Words<'_>, first: usize) -> Option<usize> {
    let next = first.saturating_add(1);
    match words.at(first) {
        b"else" | b"do" => Some(next),
        b"if" | b"while" | b"for" | b"switch" => past_head(words, next),
        b"case" | b"default" => past_colon(words, next),
        _ => None,
    }
}

/// The token after the parentheses that open here.
fn past_head(words: &Words<'_>, open: usize) -> Option<usize> {
    if matches!(words.at(open), b"(") {
        Some(close_behind(words, open)?.saturating_add(1))
    } else {
        None
    }
}

/// The token after the `:` of the label whose expression begins here.
fn past_colon(words: &Words<'_>, first: usize) -> Option<usize> {
    let mut asked: usize = 0;
    for place in first..words.list.len() {
        match words.at(place) {
            b"?" => asked = asked.saturating_add(1),
            b":" if asked == 0 => return Some(place.saturating_add(1)),
            b":" => asked = asked.saturating_sub(1),
            b";" | b"{" | b"}" => return None,
            _ => {}
        }
    }
    None
}

/// The `;` that ends the statement, where no block precedes it.
fn statement_end(words: &Words<'_>, first: usize) -> Option<usize> {
    let mut number = first;
    for _ in first..words.list.len() {
        number = match words.at(number) {
            b";" => return Some(number),
            b"(" | b"[" => close_behind(words, number)?.saturating_add(1),
            b"{" | b"}" | b"" => return None,
            _ => number.saturating_add(1),
        };
    }
    None
}
