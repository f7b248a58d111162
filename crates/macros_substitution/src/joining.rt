//! The third pass over a replacement list: each `##` joins the pieces on both sides (ISO/IEC 9899:2011 6.10.3.3).
ghost use Rattle.std.specs.Prelude.{◌≡◌, ℕ, ◌≤◌, ◌++◌, ◌∷◌, [], length, List, Bool, Ok, IfOk, OnOk, IfErr};
ghost use Rattle.srcset.specs.NameTable.{Texts, NumbersOnce};
ghost use Rattle.srcset.specs.declared.refusal.Pos.{Pos};
ghost use Rattle.srcset.specs.declared.refusal.Refusal.TheVariants.{Memory};
ghost use Rattle.macros_substitution.specs.HideSets.{Sets, Extends, NamesBelow};
ghost use Rattle.macros_substitution.specs.Meaning.{hidden_of, hidden_all, piece_as, AreIn, PieceIn};
ghost use Rattle.macros_substitution.specs.Substitution.{Piece as Pieced, one, placemarker, join, joined, ones, plain, marked};
ghost use Rattle.macros_substitution.specs.inside.Steps.{tokens_in, joint_held, JoinsTo, going, JoiningIn, GoesOn};

use crate::hide_sets::HideSets;
use crate::piece::{HiddenToken, Piece};
use macros::try_paste;
use srcset::{Code, Pos, Refusal};
use std::alloc::Global;

/// The pieces that follow those that are done.
#[derive(Drop)]
pub(crate) enum Hand<'a> {
    /// Nothing yet.
    Nothing,
    /// The piece that a `##` would have on its left.
    Left(Piece<'a>),
    /// That piece, and a `##` after it.
    Joining(Piece<'a>),
}

/// The pass in progress: the tokens that are done, and the piece that may be joined.
#[derive(Drop)]
pub(crate) struct Joining<'a> {
    pub(crate) done: Vec<HiddenToken<'a>>,
    pub(crate) hand: Hand<'a>,
}

fn no_token(at: Pos) -> Refusal
    ensures { result ≡ Refusal.At Code.PasteMakesNoToken at }
{
    Refusal::At {
        code: Code::PasteMakesNoToken,
        pos: at,
    }
}

pub(crate) fn is_joint(piece: &Piece) -> bool
    ensures { result ≡ joint_held piece.now }
{
    match piece {
        Piece::One(_) => false,
        Piece::Parameter { .. } => false,
        Piece::Joint => true,
        Piece::Placemarker { .. } => false,
    }
}

// Appends a piece to those that are done, if it is a token.
fn finish_piece<'a>(done: &mut Vec<HiddenToken<'a>>, piece: Piece<'a>) -> Result<(), Refusal>
    ensures ok { OnOk result (done.new.items ≡ done.old.items ++ tokens_in piece.entry) }
    ensures err { IfErr result (λ refusal. refusal ≡ Memory) }
{
    match piece {
        Piece::One(token) => done.push(token)?,
        Piece::Parameter { .. } => {}
        Piece::Joint => {}
        Piece::Placemarker { .. } => {}
    }
    Ok(())
}

// The token that two tokens make together.
fn join_tokens<'a>(
    alloc: Global,
    left: HiddenToken<'a>,
    right: HiddenToken<'a>,
    at: Pos,
    sets: &mut HideSets,
) -> Result<Piece<'a>, Refusal>
    requires left { left.hides ≤ length sets.old }
    requires right { right.hides ≤ length sets.old }
    ensures value { (texts : Texts) (later : Sets) → NumbersOnce texts → NamesBelow (length texts) sets.old → Extends sets.new later
        → JoinsTo texts later at result (joined (hidden_of texts later left.entry) (hidden_of texts later right.entry) at) }
    ensures known { IfOk result (PieceIn (length sets.new)) }
    ensures keeps { Extends sets.old sets.new }
    ensures names { (count : ℕ) → NamesBelow count sets.old → NamesBelow count sets.new }
{
    let token = try_paste(alloc, &left.token, &right.token, at)?;
    let hides = sets.common(left.hides, right.hides)?;
    Ok(Piece::One(HiddenToken { token, hides }))
}

// The piece that a token makes with the piece after it.
fn join_token<'a>(
    alloc: Global,
    left: HiddenToken<'a>,
    right: Piece<'a>,
    at: Pos,
    sets: &mut HideSets,
) -> Result<Piece<'a>, Refusal>
    requires left { left.hides ≤ length sets.old }
    requires right { PieceIn (length sets.old) right }
    ensures value { (texts : Texts) (later : Sets) → NumbersOnce texts → NamesBelow (length texts) sets.old → Extends sets.new later
        → JoinsTo texts later at result (join (one (hidden_of texts later left.entry)) (piece_as texts later right.entry) at) }
    ensures known { IfOk result (PieceIn (length sets.new)) }
    ensures keeps { Extends sets.old sets.new }
    ensures names { (count : ℕ) → NamesBelow count sets.old → NamesBelow count sets.new }
{
    match right {
        Piece::One(right) => join_tokens(alloc, left, right, at, sets),
        Piece::Parameter { .. } => Err(no_token(at)),
        Piece::Joint => Err(no_token(at)),
        Piece::Placemarker { .. } => Ok(Piece::One(left)),
    }
}

// The piece that a placemarker makes with the piece after it: white space precedes it where it preceded the left one.
fn join_placemarker<'a>(space_before: bool, right: Piece<'a>, at: Pos) -> Result<Piece<'a>, Refusal>
    ensures value { (texts : Texts) (sets : Sets) → JoinsTo texts sets at result (join (placemarker space_before) (piece_as texts sets right.entry) at) }
    ensures known { (count : ℕ) → PieceIn count right.entry → IfOk result (PieceIn count) }
{
    match right {
        Piece::One(right) => {
            let HiddenToken { token, hides } = right;
            let token = token.with_space(space_before);
            Ok(Piece::One(HiddenToken { token, hides }))
        }
        Piece::Parameter { .. } => Err(no_token(at)),
        Piece::Joint => Err(no_token(at)),
        Piece::Placemarker { .. } => Ok(Piece::Placemarker { space_before }),
    }
}

// The piece that the pieces on both sides of a `##` make.
fn join_pieces<'a>(
    alloc: Global,
    left: Piece<'a>,
    right: Piece<'a>,
    at: Pos,
    sets: &mut HideSets,
) -> Result<Piece<'a>, Refusal>
    requires left { PieceIn (length sets.old) left }
    requires right { PieceIn (length sets.old) right }
    ensures value { (texts : Texts) (later : Sets) → NumbersOnce texts → NamesBelow (length texts) sets.old → Extends sets.new later
        → JoinsTo texts later at result (join (piece_as texts later left.entry) (piece_as texts later right.entry) at) }
    ensures known { IfOk result (PieceIn (length sets.new)) }
    ensures keeps { Extends sets.old sets.new }
    ensures names { (count : ℕ) → NamesBelow count sets.old → NamesBelow count sets.new }
{
    match left {
        Piece::One(left) => join_token(alloc, left, right, at, sets),
        Piece::Parameter { .. } => Err(no_token(at)),
        Piece::Joint => Err(no_token(at)),
        Piece::Placemarker { space_before } => join_placemarker(space_before, right, at),
    }
}

/// The pass in progress, one piece further.
pub(crate) fn feed<'a>(
    alloc: Global,
    joining: Joining<'a>,
    next: Piece<'a>,
    at: Pos,
    sets: &mut HideSets,
) -> Result<Joining<'a>, Refusal>
    requires known { JoiningIn (length sets.old) joining }
    requires next { PieceIn (length sets.old) next }
    ensures value { (texts : Texts) (later : Sets) (behind : List Pieced) → NumbersOnce texts → NamesBelow (length texts) sets.old → Extends sets.new later
        → GoesOn texts later at joining.entry (piece_as texts later next.entry ∷ []) result behind }
    ensures known { IfOk result (JoiningIn (length sets.new)) }
    ensures keeps { Extends sets.old sets.new }
    ensures names { (count : ℕ) → NamesBelow count sets.old → NamesBelow count sets.new }
{
    let Joining { mut done, hand } = joining;
    match hand {
        Hand::Nothing => Ok(Joining {
            done,
            hand: Hand::Left(next),
        }),
        Hand::Left(left) => {
            if is_joint(&next) {
                return Ok(Joining {
                    done,
                    hand: Hand::Joining(left),
                });
            }
            finish_piece(&mut done, left)?;
            Ok(Joining {
                done,
                hand: Hand::Left(next),
            })
        }
        Hand::Joining(left) => {
            let made = match join_pieces(alloc, left, next, at, sets) {
                Ok(made) => made,
                Err(refusal) => return Err(refusal),
            };
            Ok(Joining {
                done,
                hand: Hand::Left(made),
            })
        }
    }
}

// The tokens followed by the last piece.
fn finish_with<'a>(
    done: Vec<HiddenToken<'a>>,
    piece: Piece<'a>,
) -> Result<Vec<HiddenToken<'a>>, Refusal>
    ensures ok { IfOk result (λ all. all.items ≡ done.entry.items ++ tokens_in piece.entry) }
    ensures err { IfErr result (λ refusal. refusal ≡ Memory) }
{
    let mut done = done;
    finish_piece(&mut done, piece)?;
    Ok(done)
}

/// The tokens, once no piece follows.
pub(crate) fn finish<'a>(joining: Joining<'a>) -> Result<Vec<HiddenToken<'a>>, Refusal>
    ensures value { IfOk result (λ done. (texts : Texts) (sets : Sets) (at : Pos) → going texts sets joining.entry [] at ≡ Ok (hidden_all texts sets done.items)) }
    ensures known { (count : ℕ) → JoiningIn count joining.entry → IfOk result (λ done. AreIn count done.items) }
    ensures err { IfErr result (λ refusal. refusal ≡ Memory) }
{
    let Joining { done, hand } = joining;
    match hand {
        Hand::Nothing => Ok(done),
        Hand::Left(left) => finish_with(done, left),
        Hand::Joining(left) => finish_with(done, left),
    }
}
