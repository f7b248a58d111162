//! The operators `#` and `##` (ISO/IEC 9899:2011 6.10.3.2, 6.10.3.3).
ghost use Rattle.std.specs.Prelude.{◌≡◌, ◌++◌, IfOk, IfErr, OnOk, Ok};
ghost use Rattle.macros.specs.Operators.{escaped, is_literal, is_string_kind, string_text, shown_behind, shown_all, shown, shown_next, stringized, string_of, pasted, code_of, IsRefusalOf};
ghost use Rattle.std.specs.List.{flat_map};
ghost use Rattle.phases.specs.Grammar.{plain_kind};
ghost use Rattle.srcset.specs.Fault.{IsFaultOf};
ghost use Rattle.srcset.specs.NameTable.{file_name_of};

use phases::{Kind, PpToken, token_kind};
use srcset::{Code, Fault, Names, Pos, Refusal};
use std::alloc::{AllocError, Global};
use std::borrow::CowSlice;

// Appends a byte of a literal, with a backslash before a quote or a backslash.
fn push_escaped(text: &mut Vec<u8>, byte: u8) -> Result<(), AllocError>
    ensures { OnOk result (text.new.items ≡ text.old.items ++ escaped byte) }
{
    if byte == b'"' || byte == b'\\' {
        text.extend_from_slice(&[b'\\', byte])?;
        return Ok(());
    }
    text.push(byte)?;
    Ok(())
}

// Appends the bytes of a literal.
fn push_literal(text: &mut Vec<u8>, literal: &[u8]) -> Result<(), AllocError>
    ensures { OnOk result (text.new.items ≡ text.old.items ++ flat_map escaped literal.now) }
{
    for byte in literal {
        push_escaped(text, *byte)?;
    }
    Ok(())
}

// Whether it is a character constant or a string literal.
fn is_literal(kind: Kind) -> bool
    ensures { result ≡ is_literal kind }
{
    match kind {
        Kind::Identifier => false,
        Kind::Number => false,
        Kind::CharacterConstant => true,
        Kind::StringLiteral => true,
        Kind::HeaderName => false,
        Kind::Punctuator => false,
        Kind::Other => false,
    }
}

/// Appends a token's text to that of an unfinished string, as the first of its argument (6.10.3.2p2): in a literal a backslash precedes each quote and
/// backslash. `text` begins with the opening quote.
pub fn push_shown(text: &mut Vec<u8>, token: &PpToken) -> Result<(), AllocError>
    ensures { OnOk result (text.new.items ≡ text.old.items ++ shown token.now) }
{
    if is_literal(token.kind()) {
        return push_literal(text, token.spelling());
    }
    text.extend_from_slice(token.spelling())?;
    Ok(())
}

/// The same of a token that is not the first: one space precedes it where white space precedes the token.
pub fn push_shown_next(text: &mut Vec<u8>, token: &PpToken) -> Result<(), AllocError>
    ensures { OnOk result (text.new.items ≡ text.old.items ++ shown_next token.now) }
{
    if token.space_before() {
        text.push(b' ')?;
    }
    push_shown(text, token)
}

// How many bytes more than its spelling a literal takes, in which a backslash precedes each quote and backslash.
fn count_escapes(literal: &[u8]) -> usize {
    let mut count: usize = 0;
    for byte in literal {
        if *byte == b'"' || *byte == b'\\' {
            count = count.saturating_add(1);
        }
    }
    count
}

/// The most bytes that a token takes in a string, with a space before it.
pub fn shown_room(token: &PpToken) -> usize {
    let length = token.spelling().len().saturating_add(1);
    if is_literal(token.kind()) {
        return length.saturating_add(count_escapes(token.spelling()));
    }
    length
}

// Appends the texts of the tokens after the first.
fn push_behind(text: &mut Vec<u8>, tokens: &[PpToken]) -> Result<(), AllocError>
    ensures { OnOk result (text.new.items ≡ text.old.items ++ shown_behind tokens.now) }
{
    for token in tokens {
        push_shown_next(text, token)?;
    }
    Ok(())
}

// Appends the texts of all tokens.
fn push_all(text: &mut Vec<u8>, tokens: &[PpToken]) -> Result<(), AllocError>
    ensures { OnOk result (text.new.items ≡ text.old.items ++ shown_all tokens.now) }
{
    match tokens {
        [] => Ok(()),
        [first, rest @ ..] => {
            push_shown(text, first)?;
            push_behind(text, rest)
        }
    }
}

// The most bytes of the string that an argument becomes. Room for it is taken once, since such a string may be long.
fn string_room(argument: &[PpToken]) -> usize {
    let mut room: usize = 2;
    for token in argument {
        room = room.saturating_add(shown_room(token));
    }
    room
}

// The text of the string that an argument becomes.
fn string_text(alloc: Global, argument: &[PpToken]) -> Result<Vec<u8>, AllocError>
    ensures { IfOk result (λ text. text.items ≡ string_text argument.now) }
{
    let mut text = Vec::new(alloc);
    text.reserve_exact(string_room(argument))?;
    text.push(b'"')?;
    push_all(&mut text, argument)?;
    text.push(b'"')?;
    Ok(text)
}

// Whether it is one string literal.
fn is_string(text: &[u8]) -> bool
    ensures { result ≡ is_string_kind (plain_kind text.now) }
{
    match token_kind(text) {
        None => false,
        Some(Kind::Identifier) => false,
        Some(Kind::Number) => false,
        Some(Kind::CharacterConstant) => false,
        Some(Kind::StringLiteral) => true,
        Some(Kind::HeaderName) => false,
        Some(Kind::Punctuator) => false,
        Some(Kind::Other) => false,
    }
}

/// The string literal that has this text, its quotes included, at a place. No white space precedes it.
///
/// Fails with 207 at the place where the text is no string literal, and where memory runs out.
pub fn string_of<'a>(text: Vec<u8>, at: Pos) -> Result<PpToken<'a>, Refusal>
    ensures ok { IfOk result (λ token. string_of text.items at ≡ Ok token) }
    ensures err { IfErr result (IsRefusalOf (string_of text.items at) at) }
{
    if !is_string(text.as_slice()) {
        return Err(Refusal::At {
            code: Code::HashMakesNoString,
            pos: at,
        });
    }
    let Ok(token) = PpToken::new(Kind::StringLiteral, CowSlice::Owned(text), false, at) else {
        return Err(Refusal::Memory);
    };
    Ok(token)
}

/// The string literal that `#` makes of an argument, at a place (6.10.3.2p2). No white space precedes it.
///
/// Fails with 207 at the place where the text is no string literal, and where memory runs out.
pub fn try_stringize<'a>(
    alloc: Global,
    argument: &[PpToken<'a>],
    at: Pos,
) -> Result<PpToken<'a>, Refusal>
    ensures ok { IfOk result (λ token. stringized argument.now at ≡ Ok token) }
    ensures err { IfErr result (IsRefusalOf (stringized argument.now at) at) }
{
    let Ok(text) = string_text(alloc, argument) else {
        return Err(Refusal::Memory);
    };
    string_of(text, at)
}

/// The same, and the fault names the file by `names`.
pub fn stringize<'a>(
    alloc: Global,
    argument: &[PpToken<'a>],
    at: Pos,
    names: &Names,
) -> Result<PpToken<'a>, Fault>
    ensures ok { IfOk result (λ token. stringized argument.now at ≡ Ok token) }
    ensures err { IfErr result (λ fault. IsFaultOf fault (code_of (stringized argument.now at)) (file_name_of names.now at.file) at.line) }
{
    match try_stringize(alloc, argument, at) {
        Ok(token) => Ok(token),
        Err(refusal) => Err(refusal.to_fault(alloc, names)),
    }
}

// The spellings of both, one after the other.
fn both_spellings(alloc: Global, left: &PpToken, right: &PpToken) -> Result<Vec<u8>, AllocError>
    ensures { IfOk result (λ text. text.items ≡ left.now.spelling ++ right.now.spelling) }
{
    let mut text = Vec::new(alloc);
    text.reserve_exact(left.spelling().len().saturating_add(right.spelling().len()))?;
    text.extend_from_slice(left.spelling())?;
    text.extend_from_slice(right.spelling())?;
    Ok(text)
}

/// The token that `##` makes of two, at a place (6.10.3.3p3). White space precedes it where it precedes the left one.
///
/// Fails with 206 at the place where both texts together are no token, and where memory runs out.
pub fn try_paste<'a>(
    alloc: Global,
    left: &PpToken<'a>,
    right: &PpToken<'a>,
    at: Pos,
) -> Result<PpToken<'a>, Refusal>
    ensures ok { IfOk result (λ token. pasted left.now right.now at ≡ Ok token) }
    ensures err { IfErr result (IsRefusalOf (pasted left.now right.now at) at) }
{
    let Ok(text) = both_spellings(alloc, left, right) else {
        return Err(Refusal::Memory);
    };
    let Some(kind) = token_kind(text.as_slice()) else {
        return Err(Refusal::At {
            code: Code::PasteMakesNoToken,
            pos: at,
        });
    };
    let Ok(token) = PpToken::new(kind, CowSlice::Owned(text), left.space_before(), at) else {
        return Err(Refusal::Memory);
    };
    Ok(token)
}

/// The same, and the fault names the file by `names`.
pub fn paste<'a>(
    alloc: Global,
    left: &PpToken<'a>,
    right: &PpToken<'a>,
    at: Pos,
    names: &Names,
) -> Result<PpToken<'a>, Fault>
    ensures ok { IfOk result (λ token. pasted left.now right.now at ≡ Ok token) }
    ensures err { IfErr result (λ fault. IsFaultOf fault (code_of (pasted left.now right.now at)) (file_name_of names.now at.file) at.line) }
{
    match try_paste(alloc, left, right, at) {
        Ok(token) => Ok(token),
        Err(refusal) => Err(refusal.to_fault(alloc, names)),
    }
}
