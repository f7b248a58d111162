//! The second pass over a replacement list: tokens replace each parameter (ISO/IEC 9899:2011 6.10.3.1).
ghost use Rattle.std.specs.Prelude.{◌≡◌, ℕ, ◌≤◌, List, [], ◌∷◌, length, Bool, IfOk};
ghost use Rattle.srcset.specs.NameTable.{Texts, NumbersOnce};
ghost use Rattle.macros_substitution.specs.HideSets.{Sets, Extends, NamesBelow};
ghost use Rattle.macros_substitution.specs.Meaning.{hidden_all, hidden_lists, piece_as, pieces_as, AreIn, ListsIn, PieceIn, PiecesIn};
ghost use Rattle.macros_substitution.specs.Substitution.{Piece as Pieced, list_at, ones, marked, plain};
ghost use Rattle.macros_substitution.specs.inside.Steps.{JoiningIn, GoesOn, put_of, all_put};

use crate::hide_sets::HideSets;
use crate::joining::{Joining, feed};
use crate::piece::{HiddenToken, Piece};
use srcset::{Pos, Refusal};
use std::alloc::{AllocError, Global};
use std::collections::VecDeque;

pub(crate) fn copy_token<'a>(token: &HiddenToken<'a>) -> Result<HiddenToken<'a>, AllocError>
    ensures { IfOk result (λ copy. copy ≡ token.now) }
{
    let copy = token.token.copy()?;
    Ok(HiddenToken {
        token: copy,
        hides: token.hides,
    })
}

// A copy with this mark.
pub(crate) fn copy_marked<'a>(
    token: &HiddenToken<'a>,
    space_before: bool,
) -> Result<HiddenToken<'a>, AllocError>
    ensures { IfOk result (λ copy. copy ≡ record { token = record token.now.token { space_before = space_before }; hides = token.now.hides }) }
{
    let copy = token.token.copy()?;
    Ok(HiddenToken {
        token: copy.with_space(space_before),
        hides: token.hides,
    })
}

// The pass past copies of these tokens.
fn feed_tokens<'a>(
    alloc: Global,
    joining: Joining<'a>,
    tokens: &[HiddenToken<'a>],
    at: Pos,
    sets: &mut HideSets,
) -> Result<Joining<'a>, Refusal>
    requires known { JoiningIn (length sets.old) joining }
    requires tokens { AreIn (length sets.old) tokens.now }
    ensures value { (texts : Texts) (later : Sets) (behind : List Pieced) → NumbersOnce texts → NamesBelow (length texts) sets.old → Extends sets.new later
        → GoesOn texts later at joining.entry (ones (hidden_all texts later tokens.now)) result behind }
    ensures known { IfOk result (JoiningIn (length sets.new)) }
    ensures keeps { Extends sets.old sets.new }
    ensures names { (count : ℕ) → NamesBelow count sets.old → NamesBelow count sets.new }
{
    let mut joining = joining;
    for token in tokens {
        let copy = copy_token(token)?;
        joining = match feed(alloc, joining, Piece::One(copy), at, sets) {
            Ok(fed) => fed,
            Err(refusal) => return Err(refusal),
        };
    }
    Ok(joining)
}

// The pass past copies of these tokens, the first of which gets this mark.
fn feed_marked<'a>(
    alloc: Global,
    joining: Joining<'a>,
    tokens: &[HiddenToken<'a>],
    space_before: bool,
    at: Pos,
    sets: &mut HideSets,
) -> Result<Joining<'a>, Refusal>
    requires known { JoiningIn (length sets.old) joining }
    requires tokens { AreIn (length sets.old) tokens.now }
    ensures value { (texts : Texts) (later : Sets) (behind : List Pieced) → NumbersOnce texts → NamesBelow (length texts) sets.old → Extends sets.new later
        → GoesOn texts later at joining.entry (ones (marked space_before (hidden_all texts later tokens.now))) result behind }
    ensures known { IfOk result (JoiningIn (length sets.new)) }
    ensures keeps { Extends sets.old sets.new }
    ensures names { (count : ℕ) → NamesBelow count sets.old → NamesBelow count sets.new }
{
    let Some((first, others)) = tokens.split_first() else {
        return Ok(joining);
    };
    let copy = copy_marked(first, space_before)?;
    let joining = match feed(alloc, joining, Piece::One(copy), at, sets) {
        Ok(fed) => fed,
        Err(refusal) => return Err(refusal),
    };
    feed_tokens(alloc, joining, others, at, sets)
}

// The pass after an argument next to `##`: a placemarker where it has no token.
fn feed_plain<'a>(
    alloc: Global,
    joining: Joining<'a>,
    tokens: &[HiddenToken<'a>],
    space_before: bool,
    at: Pos,
    sets: &mut HideSets,
) -> Result<Joining<'a>, Refusal>
    requires known { JoiningIn (length sets.old) joining }
    requires tokens { AreIn (length sets.old) tokens.now }
    ensures value { (texts : Texts) (later : Sets) (behind : List Pieced) → NumbersOnce texts → NamesBelow (length texts) sets.old → Extends sets.new later
        → GoesOn texts later at joining.entry (plain space_before (hidden_all texts later tokens.now)) result behind }
    ensures known { IfOk result (JoiningIn (length sets.new)) }
    ensures keeps { Extends sets.old sets.new }
    ensures names { (count : ℕ) → NamesBelow count sets.old → NamesBelow count sets.new }
{
    if tokens.is_empty() {
        return feed(
            alloc,
            joining,
            Piece::Placemarker { space_before },
            at,
            sets,
        );
    }
    feed_marked(alloc, joining, tokens, space_before, at, sets)
}

// The pass after a parameter next to `##`.
fn feed_argument<'a>(
    alloc: Global,
    joining: Joining<'a>,
    arguments: &[Vec<HiddenToken<'a>>],
    index: usize,
    space_before: bool,
    at: Pos,
    sets: &mut HideSets,
) -> Result<Joining<'a>, Refusal>
    requires known { JoiningIn (length sets.old) joining }
    requires arguments { ListsIn (length sets.old) arguments.now }
    ensures value { (texts : Texts) (later : Sets) (behind : List Pieced) → NumbersOnce texts → NamesBelow (length texts) sets.old → Extends sets.new later
        → GoesOn texts later at joining.entry (plain space_before (list_at index (hidden_lists texts later arguments.now))) result behind }
    ensures known { IfOk result (JoiningIn (length sets.new)) }
    ensures keeps { Extends sets.old sets.new }
    ensures names { (count : ℕ) → NamesBelow count sets.old → NamesBelow count sets.new }
{
    let Some(argument) = arguments.get(index) else {
        return feed(
            alloc,
            joining,
            Piece::Placemarker { space_before },
            at,
            sets,
        );
    };
    feed_plain(alloc, joining, argument.as_slice(), space_before, at, sets)
}

// The pass after a parameter that is not next to `##`.
fn feed_expansion<'a>(
    alloc: Global,
    joining: Joining<'a>,
    full: &[Vec<HiddenToken<'a>>],
    index: usize,
    space_before: bool,
    at: Pos,
    sets: &mut HideSets,
) -> Result<Joining<'a>, Refusal>
    requires known { JoiningIn (length sets.old) joining }
    requires full { ListsIn (length sets.old) full.now }
    ensures value { (texts : Texts) (later : Sets) (behind : List Pieced) → NumbersOnce texts → NamesBelow (length texts) sets.old → Extends sets.new later
        → GoesOn texts later at joining.entry (ones (marked space_before (list_at index (hidden_lists texts later full.now)))) result behind }
    ensures known { IfOk result (JoiningIn (length sets.new)) }
    ensures keeps { Extends sets.old sets.new }
    ensures names { (count : ℕ) → NamesBelow count sets.old → NamesBelow count sets.new }
{
    let Some(expansion) = full.get(index) else {
        return Ok(joining);
    };
    feed_marked(alloc, joining, expansion.as_slice(), space_before, at, sets)
}

/// The pass past a piece, with arguments and expansions in the place of a parameter.
pub(crate) fn feed_piece<'a>(
    alloc: Global,
    joining: Joining<'a>,
    piece: Piece<'a>,
    arguments: &[Vec<HiddenToken<'a>>],
    full: &[Vec<HiddenToken<'a>>],
    at: Pos,
    sets: &mut HideSets,
) -> Result<Joining<'a>, Refusal>
    requires known { JoiningIn (length sets.old) joining }
    requires piece { PieceIn (length sets.old) piece }
    requires arguments { ListsIn (length sets.old) arguments.now }
    requires full { ListsIn (length sets.old) full.now }
    ensures value { (texts : Texts) (later : Sets) (behind : List Pieced) → NumbersOnce texts → NamesBelow (length texts) sets.old → Extends sets.new later
        → GoesOn texts later at joining.entry (put_of (hidden_lists texts later arguments.now) (hidden_lists texts later full.now) (piece_as texts later piece.entry)) result behind }
    ensures known { IfOk result (JoiningIn (length sets.new)) }
    ensures keeps { Extends sets.old sets.new }
    ensures names { (count : ℕ) → NamesBelow count sets.old → NamesBelow count sets.new }
{
    match piece {
        Piece::One(token) => feed(alloc, joining, Piece::One(token), at, sets),
        Piece::Joint => feed(alloc, joining, Piece::Joint, at, sets),
        Piece::Placemarker { space_before } => {
            feed(
                alloc,
                joining,
                Piece::Placemarker { space_before },
                at,
                sets,
            )
        }
        Piece::Parameter {
            beside,
            space_before,
            index,
        } => {
            if beside {
                return feed_argument(alloc, joining, arguments, index, space_before, at, sets);
            }
            feed_expansion(alloc, joining, full, index, space_before, at, sets)
        }
    }
}

/// The pass past all of these pieces.
pub(crate) fn feed_all<'a>(
    alloc: Global,
    joining: Joining<'a>,
    pieces: VecDeque<Piece<'a>>,
    arguments: &[Vec<HiddenToken<'a>>],
    full: &[Vec<HiddenToken<'a>>],
    at: Pos,
    sets: &mut HideSets,
) -> Result<Joining<'a>, Refusal>
    requires known { JoiningIn (length sets.old) joining }
    requires pieces { PiecesIn (length sets.old) pieces.items }
    requires arguments { ListsIn (length sets.old) arguments.now }
    requires full { ListsIn (length sets.old) full.now }
    ensures value { (texts : Texts) (later : Sets) (behind : List Pieced) → NumbersOnce texts → NamesBelow (length texts) sets.old → Extends sets.new later
        → GoesOn texts later at joining.entry (all_put (hidden_lists texts later arguments.now) (hidden_lists texts later full.now) (pieces_as texts later pieces.entry.items)) result behind }
    ensures known { IfOk result (JoiningIn (length sets.new)) }
    ensures keeps { Extends sets.old sets.new }
    ensures names { (count : ℕ) → NamesBelow count sets.old → NamesBelow count sets.new }
{
    let mut joining = joining;
    let mut rest = pieces;
    while let Some(piece) = rest.pop_front() {
        joining = match feed_piece(alloc, joining, piece, arguments, full, at, sets) {
            Ok(fed) => fed,
            Err(refusal) => return Err(refusal),
        };
    }
    Ok(joining)
}
