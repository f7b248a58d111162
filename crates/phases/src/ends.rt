//! Where the token lines of a file end.
ghost use Rattle.std.specs.Prelude.{◌≡◌, ◌≤◌, ◌++◌, List, ℕ, IfOk, OnOk, length, take};
ghost use Rattle.srcset.specs.Files.{max_file_bytes};
ghost use Rattle.phases.specs.declared.token.Place.TheVariants.{Start};
ghost use Rattle.phases.specs.Text.{logical};
ghost use Rattle.phases.specs.Lines.{place_after};
ghost use Rattle.phases.specs.LineEnds.{line_ends, with_end};
ghost use Rattle.phases.specs.inside.Pieces.{front};
ghost use Rattle.phases.specs.inside.Reading.{bytes_at, IsStep, Spans};
ghost use Rattle.phases.specs.inside.Closing.{IsHopeless};
ghost use Rattle.phases.specs.inside.Fronts.{IsPiece};

use crate::cursor::{Cursor, Front, Hopeless, Step};
use crate::lines::behind;
use crate::scanning::next_place;
use crate::token::{Piece, Place};
use std::alloc::{AllocError, Global};

// The piece here, by the raw bytes alone where they determine it.
#[inline(always)]
fn front_at<'a>(at: Cursor<'a>, place: Place, first: Step<'a>, hopeless: Hopeless) -> Front<'a>
    requires step { IsStep at first }
    requires hopeless { IsHopeless hopeless (bytes_at at) }
    ensures { IsPiece at.entry (front place first.entry.byte (bytes_at first.entry.next)) result }
{
    if let Some(front) = at.quick(place, first) {
        return front;
    }
    at.front(place, first, hopeless)
}

// The place of the token after this piece.
#[inline(always)]
fn place_behind<'a>(
    alloc: Global,
    at: Cursor<'a>,
    place: Place,
    front: Front<'a>,
) -> Result<Place, AllocError>
    requires { Spans at front.span.count front.span.after }
    ensures { IfOk result (λ next. next ≡ place_after front.entry.piece place (take front.entry.span.count (bytes_at at.entry))) }
{
    match front.piece {
        Piece::Newline => Ok(Place::Start),
        Piece::Gap => Ok(place),
        Piece::Unclosed => Ok(place),
        Piece::Word(_) => {
            let spelling = at.spelled(alloc, front.span)?;
            Ok(next_place(place, spelling.as_slice()))
        }
    }
}

// Adds this line where the piece ends a token line.
#[inline(always)]
fn add_end(ends: &mut Vec<u32>, piece: Piece, line: u32) -> Result<(), AllocError>
    ensures { OnOk result ((rest : List ℕ) → ends.new.items ++ rest ≡ ends.old.items ++ with_end piece line rest) }
{
    match piece {
        Piece::Newline => {
            ends.push(line)?;
            Ok(())
        }
        Piece::Gap => Ok(()),
        Piece::Unclosed => Ok(()),
        Piece::Word(_) => Ok(()),
    }
}

/// The physical line on which each token line of a file ends, counted from 1, for a file of at most 1,048,576 bytes. After
/// such a line the numbering of `#line` begins (ISO/IEC 9899:2011 6.10.4). It reads any bytes, also those for which `scan` has
/// a fault: a last line with no end has no number then. Fails only where memory runs out.
pub fn end_lines(alloc: Global, bytes: &[u8]) -> Result<Vec<u32>, AllocError>
    requires { length bytes.now ≤ max_file_bytes }
    ensures { IfOk result (λ ends. ends.items ≡ line_ends 0 Start (logical 1 bytes.now)) }
{
    let mut ends = Vec::new(alloc);
    let start = Cursor {
        rest: bytes,
        line: 1,
    };
    let mut place = Place::Start;
    let mut known = Hopeless {
        single: 0,
        double: 0,
    };
    let mut at = start.past_splices();
    while let Some(first) = at.read() {
        let hopeless = at.hopeless(first, known);
        let front = front_at(at, place, first, hopeless);
        add_end(&mut ends, front.piece, first.line)?;
        place = place_behind(alloc, at, place, front)?;
        known = behind(hopeless, front.span.count);
        at = front.span.after.past_splices();
    }
    Ok(ends)
}
