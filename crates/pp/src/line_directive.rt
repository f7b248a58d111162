//! `#line` (ISO/IEC 9899:2011 6.10.4).
ghost use Rattle.std.specs.Prelude.{◌≡◌, ◌≤◌, [], ◌∷◌, ℕ, All, Some, OnOk};
ghost use Rattle.std.specs.List.{list_all};
ghost use Rattle.srcset.specs.NameTable.{KeepsNumbers, Texts};
ghost use Rattle.phases.specs.Token.{Token};
ghost use Rattle.srcset.specs.declared.refusal.Refusal.TheVariants.{At};
ghost use Rattle.srcset.specs.declared.code.Code.TheVariants.{BadLineDirective};
ghost use Rattle.pp.specs.Phase4.{is_file_byte, is_file_text, is_plain_string, is_string_kind, inside, line_made, line_done, presume};
ghost use Rattle.pp.specs.Held.{IsSound};
ghost use Rattle.pp.specs.inside.Stepping.{IsNear, Does, IsNextDigit, IsLineNumber};

use crate::places::{GivenLine, Presumed};
use crate::state::State;
use phases::{Kind, PpToken};
use srcset::{Code, Names, Pos, Refusal};
use std::alloc::Global;

/// A `#line` has a number and the name of a file: with one token more it is wrong, whatever follows.
const MOST_TOKENS: usize = 3;

/// The greatest line that a `#line` may give.
const MAX_LINE: u64 = 2147483647;

// The number with a further digit; `None` where the byte is no digit, and past the greatest line.
fn with_digit(value: u32, byte: u8) -> Option<u32>
    requires { value ≤ 2147483647 }
    ensures { IsNextDigit result value byte }
{
    if byte < b'0' || byte > b'9' {
        return None;
    }
    let next = u64::from(value) * 10 + u64::from(byte - b'0');
    if next > MAX_LINE {
        return None;
    }
    Some(next as u32)
}

// The line that the digits give; `None` where they give none.
fn line_number(text: &[u8]) -> Option<GivenLine>
    ensures { IsLineNumber result text.now }
{
    let mut value = 0;
    for byte in text {
        let Some(next) = with_digit(value, *byte) else {
            return None;
        };
        value = next;
    }
    if value == 0 {
        None
    } else {
        Some(GivenLine::new(value))
    }
}

/// The text between the quotes or brackets.
pub fn inside(text: &[u8]) -> &[u8]
    ensures { result.now ≡ inside text.now }
{
    if text.len() < 2 {
        return b"".as_slice();
    }
    &text[1..text.len() - 1]
}

// Whether the byte may appear in the name of a file.
fn is_file_byte(byte: u8) -> bool
    ensures { result ≡ is_file_byte byte }
{
    byte >= 32 && byte <= 126 && byte != b'\\'
}

// Whether each byte may appear in the name of a file.
fn are_file_bytes(text: &[u8]) -> bool
    ensures { result ≡ list_all is_file_byte text.now }
{
    text.iter().all(|byte| is_file_byte(*byte))
}

// Whether it is a string literal, with a prefix or not.
fn is_string_kind(kind: Kind) -> bool
    ensures { result ≡ is_string_kind kind }
{
    match kind {
        Kind::StringLiteral => true,
        Kind::Identifier => false,
        Kind::Number => false,
        Kind::CharacterConstant => false,
        Kind::HeaderName => false,
        Kind::Punctuator => false,
        Kind::Other => false,
    }
}

/// Whether it is a string literal without a prefix.
pub fn is_plain_string(token: &PpToken) -> bool
    ensures { result ≡ is_plain_string token.now }
{
    is_string_kind(token.kind()) && token.spelling().starts_with(b"\"")
}

// Whether it is a string literal that gives the name of a file.
fn is_file_text(token: &PpToken) -> bool
    ensures { result ≡ is_file_text token.now }
{
    is_plain_string(token) && are_file_bytes(inside(token.spelling()))
}

fn bad_line(at: Pos) -> Refusal
    ensures { result ≡ At BadLineDirective at }
{
    Refusal::At {
        code: Code::BadLineDirective,
        pos: at,
    }
}

// Presumes that the line after this physical one has this number, in the file that the string literal gives.
fn rename<'a>(
    state: &mut State<'a>,
    end: u32,
    line: GivenLine,
    name: &PpToken<'a>,
    at: Pos,
    names: &mut Names,
) -> Result<(), Refusal>
    requires sound { IsSound names.old state.old }
    ensures does { (texts : Texts) (number : Token) → KeepsNumbers names.new texts → IsLineNumber (Some line) number.spelling → Does result names.old state.old names.new state.new (λ s. line_made texts end at (number ∷ name.now ∷ [], s)) }
    ensures sound { OnOk result (IsSound names.new state.new) }
    ensures given { state.new.given ≡ state.old.given }
    ensures keeps { KeepsNumbers names.old names.new }
{
    if !is_file_text(name) {
        return Err(bad_line(at));
    }
    let Ok(file) = names.intern(inside(name.spelling())) else {
        return Err(Refusal::Memory);
    };
    state.presumed = Presumed {
        behind: end,
        line,
        file,
    };
    Ok(())
}

// Presumes that the line after this physical one has this number, in this file or in that of a string literal.
fn renumber<'a>(
    state: &mut State<'a>,
    end: u32,
    line: GivenLine,
    further: &[PpToken<'a>],
    at: Pos,
    names: &mut Names,
) -> Result<(), Refusal>
    requires sound { IsSound names.old state.old }
    ensures does { (texts : Texts) (number : Token) → KeepsNumbers names.new texts → IsLineNumber (Some line) number.spelling → Does result names.old state.old names.new state.new (λ s. line_made texts end at (number ∷ further.now, s)) }
    ensures sound { OnOk result (IsSound names.new state.new) }
    ensures given { state.new.given ≡ state.old.given }
    ensures keeps { KeepsNumbers names.old names.new }
{
    match further {
        [] => {
            state.presumed = Presumed {
                behind: end,
                line,
                file: state.presumed.file,
            };
            Ok(())
        }
        [name] => rename(state, end, line, name, at, names),
        _ => Err(bad_line(at)),
    }
}

/// Executes a `#line` that ends on this physical line, by the tokens after its name.
pub fn line_done<'a>(
    state: &mut State<'a>,
    alloc: Global,
    further: &[PpToken<'a>],
    end: u32,
    at: Pos,
    names: &mut Names,
) -> Result<(), Refusal>
    requires sound { IsSound names.old state.old }
    requires near { All IsNear further.now }
    ensures does { (texts : Texts) → KeepsNumbers names.new texts → Does result names.old state.old names.new state.new (λ s. line_done texts end at (presume s further.now) s) }
    ensures sound { OnOk result (IsSound names.new state.new) }
    ensures given { state.new.given ≡ state.old.given }
    ensures keeps { KeepsNumbers names.old names.new }
{
    let mut placed = Vec::new(alloc);
    state.presumed.put(further, &mut placed)?;
    let tokens = state.expand_first(alloc, &placed, MOST_TOKENS, names)?;
    let [number, name @ ..] = tokens.as_slice() else {
        return Err(bad_line(at));
    };
    let Some(line) = line_number(number.spelling()) else {
        return Err(bad_line(at));
    };
    renumber(state, end, line, name, at, names)
}
