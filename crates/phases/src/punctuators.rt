//! Punctuators (ISO/IEC 9899:2011 6.4.6).
ghost use Rattle.std.specs.Prelude.{◌≡◌, MatchOption};
ghost use Rattle.phases.specs.inside.Lexical.{seconds, is_pair, is_triple, is_quadruple, punctuator_len};
ghost use Rattle.phases.specs.inside.Quick.{is_second};
ghost use Rattle.phases.specs.inside.Reading.{bytes_at};
ghost use Rattle.phases.specs.inside.Fronts.{IsSomeFront};

use crate::classes::is_single;
use crate::cursor::{Cursor, Span};

// The characters that form a punctuator of two after this one.
#[tactic(auto, unfolding(crate::specs::inside::Lexical::seconds))]
fn seconds(first: u8) -> &'static [u8]
    ensures { result.now ≡ seconds first }
{
    match first {
        b'-' => b">-=",
        b'+' => b"+=",
        b'&' => b"&=",
        b'|' => b"|=",
        b'<' => b"<=:%",
        b'>' => b">=",
        b'%' => b"=>:",
        b':' => b">",
        b'#' => b"#",
        b'*' => b"=",
        b'/' => b"=",
        b'^' => b"=",
        b'=' => b"=",
        b'!' => b"=",
        _ => b"",
    }
}

// Whether some punctuator has this as its second character.
#[inline(always)]
fn is_second(byte: u8) -> bool
    ensures { result ≡ is_second byte }
{
    byte == b'>'
        || byte == b'-'
        || byte == b'='
        || byte == b'+'
        || byte == b'&'
        || byte == b'|'
        || byte == b'<'
        || byte == b':'
        || byte == b'%'
        || byte == b'#'
}

#[inline(always)]
pub(crate) fn is_pair(first: u8, second: u8) -> bool
    ensures { result ≡ is_pair first second }
{
    is_second(second) && seconds(first).contains(&second)
}

#[inline(always)]
pub(crate) fn is_triple(first: u8, second: u8, third: u8) -> bool
    ensures { result ≡ is_triple first second third }
{
    first == second
        && ((first == b'.' && third == b'.') || ((first == b'<' || first == b'>') && third == b'='))
}

#[inline(always)]
pub(crate) fn is_quadruple(first: u8, second: u8, third: u8, fourth: u8) -> bool
    ensures { result ≡ is_quadruple first second third fourth }
{
    first == b'%' && second == b':' && third == b'%' && fourth == b':'
}
