//! The tokens and the gaps of a text (ISO/IEC 9899:2011 5.1.1.2, phase 3).
ghost use Rattle.std.specs.Prelude.{◌≡◌, ◌∷◌, true, false, drop, IfOk, take, slice_index};
ghost use Rattle.std.specs.Cow.{cow_slice_items};
ghost use Rattle.phases.specs.inside.Lexical.{plain_token, header_or, header_len, token_front};
ghost use Rattle.phases.specs.inside.Pieces.{line_len, ends_comment, comment_len, comment_piece, opens, front};
ghost use Rattle.phases.specs.inside.Reading.{bytes_at, IsStep, Spans};
ghost use Rattle.phases.specs.inside.Closing.{IsHopeless};
ghost use Rattle.phases.specs.inside.Along.{longer};
ghost use Rattle.phases.specs.inside.Fronts.{IsFront, IsCommentFront, IsLexeme, IsPiece};

use crate::classes::is_white;
use crate::cursor::{Comment, Cursor, Front, Hopeless, Lexeme, Span, Step};
use crate::token::{Kind, Piece, Place};

// Whether the text here begins with a slash and this byte.
#[inline(always)]
pub(crate) fn opens<'a>(second: u8, first: Step<'a>) -> bool
    ensures { result ≡ opens second first.entry.byte (bytes_at first.entry.next) }
{
    first.byte == b'/' && first.next.ahead().byte == second
}

// Whether `byte` ends a comment, after a `*` or not.
#[inline(always)]
pub(crate) fn ends_comment(star: bool, byte: u8) -> bool
    ensures { result ≡ ends_comment star byte }
{
    star && byte == b'/'
}
