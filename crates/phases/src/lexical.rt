//! The fronts of a text that are tokens (ISO/IEC 9899:2011 6.4).
ghost use Rattle.std.specs.Prelude.{◌≡◌, ◌+◌, ◌<◌, true, false, Some, None, MatchOption};
ghost use Rattle.phases.specs.inside.Lexical.{is_digit, is_sign, is_exponent, goes_on, word_len, name_len, number_more, number_len, closes, escapes_next, to_close, enclosed, character_prefix, character_len, string_prefix, string_len, header_len, is_prefix, begins_digit, begins_number};
ghost use Rattle.phases.specs.inside.Reading.{bytes_at, IsStep, Spans};
ghost use Rattle.phases.specs.inside.Along.{plus};
ghost use Rattle.phases.specs.inside.Fronts.{IsFront, IsSomeFront, IsCloseFront, IsAhead};
ghost use Rattle.phases.specs.inside.Closing.{unclosed_for};

use crate::classes::{is_letter, is_word};
use crate::cursor::{Cursor, Span, Step};

#[inline(always)]
pub(crate) fn is_digit(byte: u8) -> bool
    ensures { result ≡ is_digit byte }
{
    byte >= b'0' && byte <= b'9'
}

#[inline(always)]
fn is_sign(byte: u8) -> bool
    ensures { result ≡ is_sign byte }
{
    byte == b'+' || byte == b'-'
}

#[inline(always)]
fn is_exponent(byte: u8) -> bool
    ensures { result ≡ is_exponent byte }
{
    byte == b'e' || byte == b'E' || byte == b'p' || byte == b'P'
}

// Whether a preprocessing number continues with `byte` after `last`.
#[inline(always)]
pub(crate) fn goes_on(last: u8, byte: u8) -> bool
    ensures { result ≡ goes_on last byte }
{
    is_word(byte) || byte == b'.' || (is_sign(byte) && is_exponent(last))
}

#[inline(always)]
pub(crate) fn is_prefix(byte: u8) -> bool
    ensures { result ≡ is_prefix byte }
{
    byte == b'L' || byte == b'u' || byte == b'U'
}

// Whether `byte` is the closing `close`, after a backslash or not.
#[inline(always)]
pub(crate) fn closes(close: u8, escaped: bool, byte: u8) -> bool
    ensures { result ≡ closes close escaped byte }
{
    byte == close && !escaped
}

// Whether the byte after `byte` is escaped.
#[inline(always)]
pub(crate) fn escapes_next(escapes: bool, escaped: bool, byte: u8) -> bool
    ensures { result ≡ escapes_next escapes escaped byte }
{
    escapes && !escaped && byte == b'\\'
}

// Whether a preprocessing number begins with this character.
#[inline(always)]
pub(crate) fn begins_number<'a>(first: Step<'a>) -> bool
    ensures { result ≡ begins_number first.entry.byte (bytes_at first.entry.next) }
{
    is_digit(first.byte) || (first.byte == b'.' && first.next.begins_digit())
}
