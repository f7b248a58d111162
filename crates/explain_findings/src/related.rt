//! The other place that a fault has to do with: an earlier declaration, a label, a parameter.

use crate::advising::token_point;
use crate::finding::{Noted, Place, Topic};
use crate::sources::Sources;
use crate::types::{element_type, is_of_one_type};
use declaration_places::{
    Declared, call_at, close_behind, function_around, is_array, is_const, is_identifier,
    last_named, open_before, parameter_at, parameter_count, same_label_before, specifiers, visible,
};
use source_words::{Span, Words};
use std::alloc::{AllocError, Global};

/// A file in which a fault is looked for, and the number of its token.
#[derive(Clone, Copy)]
pub struct Spot<'a> {
    pub file: &'a str,
    pub number: usize,
}

/// Puts the other place of a fault of this code.
pub fn put_related(
    alloc: Global,
    sources: &Sources,
    place: Place,
    code: u16,
    noted: &mut Noted,
) -> Result<(), AllocError> {
    let Some(words) = Words::of(alloc, sources.text(place.file))? else {
        return Ok(());
    };
    let Some(number) = words.number_at(place.start) else {
        return Ok(());
    };
    let spot = Spot {
        file: sources.name(place.file),
        number,
    };
    match code {
        514..=517 | 552 => put_earlier(alloc, &words, spot, code, noted),
        529 | 533 => put_object(alloc, &words, spot, code, noted),
        530 | 620 => put_named(alloc, &words, spot, code, noted),
        518 => put_sizes(alloc, &words, spot, noted),
        523 => put_message(alloc, &words, spot, noted),
        531 => put_count(alloc, sources, &words, spot, noted),
        532 => put_argument(alloc, &words, spot, noted),
        540 => put_label(alloc, &words, spot, noted),
        543 => put_return(alloc, &words, spot, noted),
        _ => Ok(()),
    }
}

/// Puts a text at the token with this number.
fn put_token(
    alloc: Global,
    words: &Words<'_>,
    file: &str,
    number: usize,
    text: &str,
    noted: &mut Noted,
) -> Result<(), AllocError> {
    noted.put_at(
        alloc,
        Topic::Related,
        file,
        token_point(words, number),
        text,
    )
}

/// Puts where the name was declared before.
fn put_earlier(
    alloc: Global,
    words: &Words<'_>,
    spot: Spot<'_>,
    code: u16,
    noted: &mut Noted,
) -> Result<(), AllocError> {
    let first = if code == 552 {
        declared_at(alloc, words, spot.number)?
    } else {
        earlier(alloc, words, spot.number, code == 517)?
    };
    let Some(first) = first else {
        return Ok(());
    };
    let text = match code {
        552 => "declared here, without a body",
        517 => "defined here before",
        _ => "declared here before",
    };
    put_token(alloc, words, spot.file, first, text, noted)
}

/// The number of the name by which the one with this number is declared.
fn declared_at(
    alloc: Global,
    words: &Words<'_>,
    number: usize,
) -> Result<Option<usize>, AllocError> {
    let declared = visible(alloc, words, number)?;
    match last_named(words, declared.as_slice(), words.at(number)) {
        Some(one) if one.name < number => Ok(Some(one.name)),
        _ => Ok(None),
    }
}

/// The number of the name that is declared in the same scope before the one with this number, or defined there.
fn earlier(
    alloc: Global,
    words: &Words<'_>,
    number: usize,
    is_defined: bool,
) -> Result<Option<usize>, AllocError> {
    let parameter = parameter_before(words, number);
    if parameter.is_some() {
        return Ok(parameter);
    }
    let declared = visible(alloc, words, number.saturating_add(1))?;
    let Some(depth) = depth_of(declared.as_slice(), number) else {
        return Ok(None);
    };
    let mut found = None;
    for one in &declared {
        let is_same = one.name < number
            && one.depth == depth
            && words.at(one.name) == words.at(number);
        if is_same && (!is_defined || is_definition(words, one.name)) {
            found = Some(one.name);
        }
    }
    Ok(found)
}

/// How many blocks are open around the declaration of the name with this number.
fn depth_of(declared: &[Declared], number: usize) -> Option<usize> {
    let place = declared.iter().position(|one| one.name == number)?;
    Some(declared.get(place)?.depth)
}

/// The number of the parameter in the same list that has the name of the one with this number.
fn parameter_before(words: &Words<'_>, number: usize) -> Option<usize> {
    let open = open_before(words, number)?;
    if !matches!(words.at(open), b"(") {
        return None;
    }
    for place in (open..number).rev() {
        let is_named = words.at(place) == words.at(number)
            && matches!(words.at(place.saturating_add(1)), b"," | b"[");
        if is_named && is_inside(words, place, open) {
            return Some(place);
        }
    }
    None
}

/// Whether the token with this number is between the parentheses that open there, and in no others.
fn is_inside(words: &Words<'_>, number: usize, open: usize) -> bool {
    match open_before(words, number) {
        Some(around) => around == open,
        None => false,
    }
}

/// Whether the declaration of the name with this number has a body or an initialiser.
fn is_definition(words: &Words<'_>, name: usize) -> bool {
    let mut place = name.saturating_add(1);
    for _ in name..words.list.len() {
        if !matches!(words.at(place), b"(" | b"[") {
            break;
        }
        match close_behind(words, place) {
            Some(close) => place = close.saturating_add(1),
            None => return false,
        }
    }
    matches!(words.at(place), b"{" | b"=")
}

/// Puts the text of an assertion, as it is written.
fn put_message(
    alloc: Global,
    words: &Words<'_>,
    spot: Spot<'_>,
    noted: &mut Noted,
) -> Result<(), AllocError> {
    let Some(close) = close_behind(words, spot.number.saturating_add(1)) else {
        return Ok(());
    };
    let mut first = close;
    for place in (spot.number..close).rev() {
        if !words.at(place).starts_with(b"\"") {
            break;
        }
        first = place;
    }
    if first == close {
        return Ok(());
    }
    let shown = words.text(alloc, Span { first, past: close })?;
    let shown = shown.as_str();
    let text = format!(in alloc; "the message is {shown}")?;
    put_token(alloc, words, spot.file, first, text.as_str(), noted)
}

/// The declaration of the object before the operator with this number, and whether that is one name alone.
fn object_declared(
    alloc: Global,
    words: &Words<'_>,
    number: usize,
) -> Result<Option<Declared>, AllocError> {
    let Some(before) = number.checked_sub(1) else {
        return Ok(None);
    };
    let declared = visible(alloc, words, number)?;
    Ok(last_named(words, declared.as_slice(), words.at(before)))
}

/// Puts why the operand before an operator can be neither assigned nor subscripted.
fn put_object(
    alloc: Global,
    words: &Words<'_>,
    spot: Spot<'_>,
    code: u16,
    noted: &mut Noted,
) -> Result<(), AllocError> {
    if code == 533 && is_of_value(words, spot.number) {
        return noted.put_text(
            alloc,
            Topic::Related,
            "what stands before it is a value: only an object or an element can be assigned",
        );
    }
    let Some(declared) = object_declared(alloc, words, spot.number)? else {
        return Ok(());
    };
    let text = object_text(words, declared, code);
    if text.is_empty() {
        return Ok(());
    }
    put_token(alloc, words, spot.file, declared.name, text, noted)
}

fn object_text(words: &Words<'_>, declared: Declared, code: u16) -> &'static str {
    match (code, is_const(words, declared), is_array(words, declared)) {
        (529, _, false) => "declared here, and not as an array",
        (533, true, _) => "declared `const` here",
        (533, false, true) => "declared here as an array, which is assigned element by element",
        _ => "",
    }
}

/// Whether the operand before the operator with this number is no name or element: it ends an operation, or is a constant or a call.
fn is_of_value(words: &Words<'_>, number: usize) -> bool {
    let Some(last) = number.checked_sub(1) else {
        return false;
    };
    let token = words.at(last);
    let is_operation = matches!(
        words.before(last),
        b"+" | b"-"
            | b"*"
            | b"/"
            | b"%"
            | b"<<"
            | b">>"
            | b"&"
            | b"|"
            | b"^"
            | b"<"
            | b">"
            | b"<="
            | b">="
            | b"=="
            | b"!="
            | b"&&"
            | b"||"
            | b"~"
            | b"!"
    );
    let is_constant = match token.first() {
        Some(letter) => letter.is_ascii_digit() || *letter == b'\'',
        None => false,
    };
    is_constant || is_operation && is_identifier(token)
}

/// Puts where the name with this number is declared.
fn put_named(
    alloc: Global,
    words: &Words<'_>,
    spot: Spot<'_>,
    code: u16,
    noted: &mut Noted,
) -> Result<(), AllocError> {
    let declared = visible(alloc, words, spot.number)?;
    let Some(one) = last_named(words, declared.as_slice(), words.at(spot.number)) else {
        return put_literal_hint(alloc, words.at(spot.number), code, noted);
    };
    let text = match (code, one.is_function, is_array(words, one)) {
        (620, true, _) => "a function, declared here",
        (620, false, true) => "an array, declared here",
        (530, false, _) => "declared here, and not as a function",
        _ => return Ok(()),
    };
    put_token(alloc, words, spot.file, one.name, text, noted)?;
    if code == 620 && one.is_function {
        return noted.put_text(
            alloc,
            Topic::Hint,
            "a call has parentheses also where it has no arguments: f()",
        );
    }
    put_array_hint(alloc, code, noted)
}

fn put_array_hint(alloc: Global, code: u16, noted: &mut Noted) -> Result<(), AllocError> {
    if code != 620 {
        return Ok(());
    }
    noted.put_text(
        alloc,
        Topic::Hint,
        "an array can only be subscripted, passed to a function or measured by `sizeof`",
    )
}

/// Puts the text to write for a string literal where a value is wanted.
fn put_literal_hint(
    alloc: Global,
    token: &[u8],
    code: u16,
    noted: &mut Noted,
) -> Result<(), AllocError> {
    if code == 620 && matches!(token, [b'"', _, b'"']) {
        return noted.put_text(
            alloc,
            Topic::Hint,
            "a string literal is an array: one character is written in single quotes, 'a'",
        );
    }
    put_array_hint(alloc, code, noted)
}

/// Puts how many arguments a call has, how many are wanted, and where its function is declared.
fn put_count(
    alloc: Global,
    sources: &Sources,
    words: &Words<'_>,
    spot: Spot<'_>,
    noted: &mut Noted,
) -> Result<(), AllocError> {
    let Some(call) = call_at(words, spot.number) else {
        return Ok(());
    };
    let name = words.at(spot.number);
    let declared = visible(alloc, words, spot.number)?;
    if let Some(one) = last_named(words, declared.as_slice(), name) {
        return put_counts(alloc, words, spot.file, one.name, call.count, noted);
    }
    for file in &sources.files {
        let (text, shown) = (file.text.as_slice(), file.name.as_str());
        if put_count_of(alloc, text, shown, name, call.count, noted)? {
            return Ok(());
        }
    }
    Ok(())
}

/// Puts both counts where a file declares a function of this name at file scope; returns whether it does.
fn put_count_of(
    alloc: Global,
    text: &[u8],
    file: &str,
    name: &[u8],
    given: usize,
    noted: &mut Noted,
) -> Result<bool, AllocError> {
    let Some(words) = Words::of(alloc, text)? else {
        return Ok(false);
    };
    let declared = visible(alloc, &words, words.list.len())?;
    match last_named(&words, declared.as_slice(), name) {
        Some(one) => {
            put_counts(alloc, &words, file, one.name, given, noted)?;
            Ok(true)
        }
        None => Ok(false),
    }
}

/// Puts both counts, at the declaration of the function.
fn put_counts(
    alloc: Global,
    words: &Words<'_>,
    file: &str,
    name: usize,
    given: usize,
    noted: &mut Noted,
) -> Result<(), AllocError> {
    let Some(wanted) = parameter_count(words, name) else {
        return Ok(());
    };
    if wanted == given {
        return Ok(());
    }
    let text = format!(in alloc; "declared here: expected {wanted}, and the call has {given}")?;
    put_token(alloc, words, file, name, text.as_str(), noted)
}

/// The most parameters that are compared with arguments.
const MAX_PARAMETERS: usize = 64;

/// Puts which argument it is, and the parameter that it is for.
fn put_argument(
    alloc: Global,
    words: &Words<'_>,
    spot: Spot<'_>,
    noted: &mut Noted,
) -> Result<(), AllocError> {
    let declared = visible(alloc, words, spot.number)?;
    let Some(one) = last_named(words, declared.as_slice(), words.at(spot.number)) else {
        return Ok(());
    };
    let Some(turn) = mismatch(words, declared.as_slice(), spot.number, one.name) else {
        return put_token(alloc, words, spot.file, one.name, "declared here", noted);
    };
    let Some(parameter) = parameter_at(words, one.name, turn) else {
        return Ok(());
    };
    let shown = words.text(alloc, parameter)?;
    let (shown, turn) = (shown.as_str(), turn.saturating_add(1));
    let text = format!(in alloc; "argument {turn} is for the parameter `{shown}`")?;
    put_token(
        alloc,
        words,
        spot.file,
        parameter.first,
        text.as_str(),
        noted,
    )
}

/// The number of the first argument that is an array where its parameter is none, or the other way round; or else of the first one whose elements are of
/// another type.
fn mismatch(
    words: &Words<'_>,
    declared: &[Declared],
    call: usize,
    function: usize,
) -> Option<usize> {
    let count = parameter_count(words, function)
        .unwrap_or(0)
        .min(MAX_PARAMETERS);
    match (0..count).find(|turn| is_mismatch(words, declared, call, function, *turn)) {
        Some(turn) => Some(turn),
        None => (0..count).find(|turn| is_other_type(words, declared, call, function, *turn)),
    }
}

/// Whether an argument and its parameter are arrays whose elements are of two types.
fn is_other_type(
    words: &Words<'_>,
    declared: &[Declared],
    call: usize,
    function: usize,
    turn: usize,
) -> bool {
    let (Some(parameter), Some(argument)) = (
        parameter_at(words, function, turn),
        parameter_at(words, call, turn),
    ) else {
        return false;
    };
    if !has_brackets(words, parameter) || argument.past != argument.first.saturating_add(1) {
        return false;
    }
    let Some(one) = last_named(words, declared, words.at(argument.first)) else {
        return false;
    };
    match (
        element_type(words, parameter.first),
        element_type(words, type_front(words, one)),
    ) {
        (Some(wanted), Some(given)) => !is_of_one_type(wanted, given),
        _ => false,
    }
}

/// The number of the token with which the type of a declared name begins. A parameter has its own.
fn type_front(words: &Words<'_>, declared: Declared) -> usize {
    if matches!(words.before(declared.front), b"(") {
        specifiers(words, declared.name).first
    } else {
        declared.front
    }
}

/// Whether one of an argument and its parameter is an array, and the other is none.
fn is_mismatch(
    words: &Words<'_>,
    declared: &[Declared],
    call: usize,
    function: usize,
    turn: usize,
) -> bool {
    match (
        parameter_at(words, function, turn),
        parameter_at(words, call, turn),
    ) {
        (Some(parameter), Some(argument)) => {
            has_brackets(words, parameter) != is_array_name(words, declared, argument)
        }
        _ => false,
    }
}

fn has_brackets(words: &Words<'_>, span: Span) -> bool {
    (span.first..span.past).any(|number| matches!(words.at(number), b"["))
}

/// Whether an argument is a string literal, or the name of an array alone.
fn is_array_name(words: &Words<'_>, declared: &[Declared], argument: Span) -> bool {
    if argument.past != argument.first.saturating_add(1) {
        return false;
    }
    let token = words.at(argument.first);
    match last_named(words, declared, token) {
        Some(one) => is_array(words, one),
        None => matches!(token, [b'"', ..]),
    }
}

/// Puts which size of an array is wanted, where one after the first is left out.
fn put_sizes(
    alloc: Global,
    words: &Words<'_>,
    spot: Spot<'_>,
    noted: &mut Noted,
) -> Result<(), AllocError> {
    let Some(close) = close_behind(words, spot.number.saturating_add(1)) else {
        return Ok(());
    };
    let open = close.saturating_add(1);
    if matches!(words.at(open), b"[") && matches!(words.at(open.saturating_add(1)), b"]") {
        return noted.put_text(
            alloc,
            Topic::Hint,
            "only the first size of an array may be left out: int a[][3]",
        );
    }
    Ok(())
}

/// Puts the label that is the same.
fn put_label(
    alloc: Global,
    words: &Words<'_>,
    spot: Spot<'_>,
    noted: &mut Noted,
) -> Result<(), AllocError> {
    match same_label_before(words, spot.number) {
        Some(first) => put_token(
            alloc,
            words,
            spot.file,
            first,
            "the same label before",
            noted,
        ),
        None => Ok(()),
    }
}

/// Puts the type that the function around a `return` returns.
fn put_return(
    alloc: Global,
    words: &Words<'_>,
    spot: Spot<'_>,
    noted: &mut Noted,
) -> Result<(), AllocError> {
    let Some(name) = function_around(words, spot.number) else {
        return Ok(());
    };
    let Span { first, past } = specifiers(words, name);
    let shown = words.text(alloc, Span { first, past })?;
    let is_alone = matches!(words.at(spot.number.saturating_add(1)), b";");
    let shown = shown.as_str();
    let text = if is_alone {
        format!(in alloc; "a function of type `{shown}`, which returns a value")?
    } else {
        format!(in alloc; "a function of type `{shown}`, which returns none")?
    };
    put_token(alloc, words, spot.file, name, text.as_str(), noted)
}
