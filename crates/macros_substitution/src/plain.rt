//! A replacement list without `##`: tokens replace each parameter, and nothing is joined.
ghost use Rattle.std.specs.Prelude.{◌≡◌, ◌++◌, ◌||◌, List, ℕ, Bool, true, IfOk, OnOk, IfErr, nat_eq, false};
ghost use Rattle.std.specs.List.{list_any};
ghost use Rattle.srcset.specs.declared.refusal.Refusal.TheVariants.{Memory};
ghost use Rattle.macros_substitution.specs.inside.Steps.{joint_held};
ghost use Rattle.macros_substitution.specs.inside.Reading.{expanded_held};
ghost use Rattle.macros_substitution.specs.inside.Plain.{marked_held, held_at, all_held, PutsPiece};

use crate::feeding::{copy_marked, copy_token};
use crate::joining::is_joint;
use crate::piece::{HiddenToken, Piece};
use crate::reading::is_expanded;
use srcset::Refusal;
use std::alloc::Global;
use std::collections::VecDeque;
use std::mem;

/// Whether a `##` is among the pieces.
pub(crate) fn has_joint(pieces: &[Piece]) -> bool
    ensures { result ≡ list_any joint_held pieces.now }
{
    pieces.iter().any(|piece| is_joint(piece))
}

// Appends copies of these tokens.
fn put_copies<'a>(
    alloc: Global,
    done: &mut Vec<HiddenToken<'a>>,
    tokens: &[HiddenToken<'a>],
) -> Result<(), Refusal>
    ensures ok { OnOk result (done.new.items ≡ done.old.items ++ tokens.now) }
    ensures err { IfErr result (λ refusal. refusal ≡ Memory) }
{
    for token in tokens {
        done.push(copy_token(token)?)?;
    }
    Ok(())
}

// The same, the first of them with this mark.
fn put_marked<'a>(
    alloc: Global,
    done: &mut Vec<HiddenToken<'a>>,
    tokens: &[HiddenToken<'a>],
    space_before: bool,
) -> Result<(), Refusal>
    ensures ok { OnOk result (done.new.items ≡ done.old.items ++ marked_held space_before tokens.now) }
    ensures err { IfErr result (λ refusal. refusal ≡ Memory) }
{
    let Some((first, others)) = tokens.split_first() else {
        return Ok(());
    };
    done.push(copy_marked(first, space_before)?)?;
    put_copies(alloc, done, others)
}

// Appends these tokens themselves, the first of them with this mark.
fn put_moved<'a>(
    done: &mut Vec<HiddenToken<'a>>,
    tokens: Vec<HiddenToken<'a>>,
    space_before: bool,
) -> Result<(), Refusal>
    ensures ok { OnOk result (done.new.items ≡ done.old.items ++ marked_held space_before tokens.entry.items) }
    ensures err { IfErr result (λ refusal. refusal ≡ Memory) }
{
    let mut rest = VecDeque::from(tokens);
    let Some(first) = rest.pop_front() else {
        return Ok(());
    };
    let HiddenToken { token, hides } = first;
    let token = token.with_space(space_before);
    done.push(HiddenToken { token, hides })?;
    while let Some(token) = rest.pop_front() {
        done.push(token)?;
    }
    Ok(())
}

// Puts the argument of a parameter.
fn put_argument<'a>(
    alloc: Global,
    done: &mut Vec<HiddenToken<'a>>,
    arguments: &[Vec<HiddenToken<'a>>],
    index: usize,
    space_before: bool,
) -> Result<(), Refusal>
    ensures ok { OnOk result (done.new.items ≡ done.old.items ++ marked_held space_before (held_at index arguments.now)) }
    ensures err { IfErr result (λ refusal. refusal ≡ Memory) }
{
    let Some(argument) = arguments.get(index) else {
        return Ok(());
    };
    put_marked(alloc, done, argument.as_slice(), space_before)
}

// Takes the expansion of an argument, which is used no more.
fn take_expansion<'a>(
    alloc: Global,
    full: &mut Vec<Vec<HiddenToken<'a>>>,
    index: usize,
) -> Vec<HiddenToken<'a>>
    ensures taken { result.items ≡ held_at index full.old.items }
    ensures others { (i : ℕ) → nat_eq i index ≡ false → held_at i full.new.items ≡ held_at i full.old.items }
{
    if index < full.len() {
        return mem::replace(&mut full[index], Vec::new(alloc));
    }
    Vec::new(alloc)
}

// Appends the tokens of a piece, which is followed by these pieces.
fn put_piece<'a>(
    alloc: Global,
    done: &mut Vec<HiddenToken<'a>>,
    piece: &Piece<'a>,
    rest: &[Piece<'a>],
    arguments: &[Vec<HiddenToken<'a>>],
    full: &mut Vec<Vec<HiddenToken<'a>>>,
) -> Result<(), Refusal>
    ensures ok { OnOk result (PutsPiece arguments.now full.old.items full.new.items piece.now rest.now done.old.items done.new.items) }
    ensures err { IfErr result (λ refusal. refusal ≡ Memory) }
{
    match piece {
        Piece::One(token) => {
            done.push(copy_token(token)?)?;
            Ok(())
        }
        Piece::Joint => Ok(()),
        Piece::Placemarker { .. } => Ok(()),
        Piece::Parameter {
            beside,
            space_before,
            index,
        } => {
            if *beside {
                return put_argument(alloc, done, arguments, *index, *space_before);
            }
            if is_expanded(*index, rest) {
                return put_argument(alloc, done, full.as_slice(), *index, *space_before);
            }
            let expansion = take_expansion(alloc, full, *index);
            put_moved(done, expansion, *space_before)
        }
    }
}

/// The tokens of the pieces, where no `##` is among them. The last use of an expansion takes it.
pub(crate) fn put_all<'a>(
    alloc: Global,
    pieces: &[Piece<'a>],
    arguments: &[Vec<HiddenToken<'a>>],
    full: Vec<Vec<HiddenToken<'a>>>,
) -> Result<Vec<HiddenToken<'a>>, Refusal>
    ensures ok { IfOk result (λ all. all.items ≡ all_held arguments.now full.entry.items pieces.now) }
    ensures err { IfErr result (λ refusal. refusal ≡ Memory) }
{
    let mut full = full;
    let mut done = Vec::new(alloc);
    done.reserve(pieces.len())?;
    let mut left = pieces;
    while let [piece, rest @ ..] = left {
        if let Err(refusal) = put_piece(alloc, &mut done, piece, rest, arguments, &mut full) {
            return Err(refusal);
        }
        left = rest;
    }
    Ok(done)
}
