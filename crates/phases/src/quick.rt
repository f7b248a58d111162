//! The pieces that the raw bytes alone determine: no trigraph, splice, literal or comment can be among them.
ghost use Rattle.std.specs.Prelude.{◌≡◌, true, MatchOption};
ghost use Rattle.phases.specs.declared.token.Place.{Place};
ghost use Rattle.phases.specs.declared.token.Place.TheVariants.{AfterInclude};
ghost use Rattle.phases.specs.inside.Lexical.{is_letter, is_digit, is_single};
ghost use Rattle.phases.specs.inside.Pieces.{front};
ghost use Rattle.phases.specs.inside.Reading.{bytes_at, IsStep};
ghost use Rattle.phases.specs.inside.Fronts.{IsPiece};
ghost use Rattle.phases.specs.inside.Quick.{is_quote, is_opening, is_further, may_go_on};

use crate::classes::{is_letter, is_single, is_white};
use crate::cursor::{Cursor, Front, Span, Step};
use crate::lexical::is_digit;
use crate::punctuators::is_pair;
use crate::runs::{number_bytes, word_bytes};
use crate::token::{Kind, Piece, Place};

#[inline(always)]
pub(crate) fn is_quote(byte: u8) -> bool
    ensures { result ≡ is_quote byte }
{
    byte == b'"' || byte == b'\''
}

#[inline(always)]
fn is_opening(byte: u8) -> bool
    ensures { result ≡ is_opening byte }
{
    byte == b'.' || byte == b'/' || byte == b'%' || byte == b'<' || byte == b'>'
}

#[inline(always)]
fn is_further(byte: u8) -> bool
    ensures { result ≡ is_further byte }
{
    byte == b'.'
        || byte == b'/'
        || byte == b'*'
        || byte == b'<'
        || byte == b'>'
        || byte == b':'
        || is_digit(byte)
}

// Whether these two may begin a comment, a number or a punctuator of more than two characters.
#[inline(always)]
pub(crate) fn may_go_on(first: u8, second: u8) -> bool
    ensures { result ≡ may_go_on first second }
{
    is_opening(first) && is_further(second)
}
