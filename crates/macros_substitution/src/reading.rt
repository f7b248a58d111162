//! A replacement list in pieces, and how it uses its parameters.
ghost use Rattle.std.specs.Prelude.{◌≡◌, ◌||◌, ℕ, ◌+◌, ◌≤◌, ◌<◌, ◌∷◌, ◌++◌, List, map, length, drop, Some, Option, Bool, slice_get, IfOk, OnOk, IfErr};
ghost use Rattle.std.specs.List.{list_any};
ghost use Rattle.srcset.specs.NameTable.{Texts};
ghost use Rattle.srcset.specs.declared.refusal.Refusal.TheVariants.{Memory};
ghost use Rattle.phases.specs.Token.{Token};
ghost use Rattle.macros.specs.Macro.{Macro as MacroSeen};
ghost use Rattle.macros.specs.Operators.{string_text, shown_all, shown_behind};
ghost use Rattle.macros.specs.Table.{IsMacro, with_parameter};
ghost use Rattle.macros.specs.Definition.{names_of};
ghost use Rattle.macros_substitution.specs.HideSets.{Sets};
ghost use Rattle.macros_substitution.specs.Meaning.{piece_as, pieces_as, hidden_lists, pieces_of, use_of, PieceIn, PiecesIn, GivesPieces};
ghost use Rattle.macros_substitution.specs.Substitution.{Call, list_at};
ghost use Rattle.macros_substitution.specs.inside.Reading.{beside_held, expanded_held, operand_in, joint_first, piece_in, tokens_held, string_made, is_function, ReadsNext};
ghost use Rattle.macros_substitution.specs.inside.Steps.{JoinsTo};

use crate::hide_sets::HideSet;
use crate::joining::is_joint as is_joint_piece;
use crate::piece::{HiddenToken, Piece, Use};
use macros::{
    BodyToken, Macro, is_hash, is_joint, push_shown, push_shown_next, shown_room, string_of,
};
use phases::PpToken;
use srcset::{Pos, Refusal};
use std::alloc::{AllocError, Global};

// Whether the piece is this parameter next to `##`.
fn stands_beside(index: usize, piece: &Piece) -> bool
    ensures { result ≡ beside_held index piece.now }
{
    match piece {
        Piece::One(_) => false,
        Piece::Parameter {
            beside,
            index: parameter,
            ..
        } => *beside && index == *parameter,
        Piece::Joint => false,
        Piece::Placemarker { .. } => false,
    }
}

// Whether the piece is this parameter anywhere else.
fn stands_elsewhere(index: usize, piece: &Piece) -> bool
    ensures { result ≡ expanded_held index piece.now }
{
    match piece {
        Piece::One(_) => false,
        Piece::Parameter {
            beside,
            index: parameter,
            ..
        } => !*beside && index == *parameter,
        Piece::Joint => false,
        Piece::Placemarker { .. } => false,
    }
}

fn is_beside(index: usize, pieces: &[Piece]) -> bool
    ensures { result ≡ list_any (beside_held index) pieces.now }
{
    pieces.iter().any(|piece| stands_beside(index, piece))
}

pub(crate) fn is_expanded(index: usize, pieces: &[Piece]) -> bool
    ensures { result ≡ list_any (expanded_held index) pieces.now }
{
    pieces.iter().any(|piece| stands_elsewhere(index, piece))
}

// How the pieces use a parameter.
fn use_of(index: usize, pieces: &[Piece]) -> Use
    ensures { result ≡ record { beside = list_any (beside_held index) pieces.now; expanded = list_any (expanded_held index) pieces.now } }
{
    Use {
        beside: is_beside(index, pieces),
        expanded: is_expanded(index, pieces),
    }
}

/// How the pieces use each of `count` parameters.
pub fn uses(alloc: Global, count: usize, pieces: &[Piece<'_>]) -> Result<Vec<Use>, Refusal>
    ensures count { IfOk result (λ found. length found.items ≡ count) }
    ensures each { IfOk result (λ found. (texts : Texts) (sets : Sets) (i : ℕ) → i < count → slice_get found.items i ≡ Some (use_of i (pieces_as texts sets pieces.now))) }
    ensures err { IfErr result (λ refusal. refusal ≡ Memory) }
{
    let mut found = Vec::new(alloc);
    for index in 0..count {
        found.push(use_of(index, pieces))?;
    }
    Ok(found)
}

// Appends the text of an argument to that of a string in progress.
fn push_argument(text: &mut Vec<u8>, argument: &[HiddenToken]) -> Result<(), AllocError>
    ensures { OnOk result (text.new.items ≡ text.old.items ++ shown_all (tokens_held argument.now)) }
{
    let Some((first, others)) = argument.split_first() else {
        return Ok(());
    };
    push_shown(text, &first.token)?;
    push_others(text, others)
}

// The same of tokens that follow the first one.
fn push_others(text: &mut Vec<u8>, others: &[HiddenToken]) -> Result<(), AllocError>
    ensures { OnOk result (text.new.items ≡ text.old.items ++ shown_behind (tokens_held others.now)) }
{
    for token in others {
        push_shown_next(text, &token.token)?;
    }
    Ok(())
}

// The most bytes of the string that an argument becomes. Room for it is taken once, since such a string may be long.
fn string_room(argument: &[HiddenToken]) -> usize {
    let mut room: usize = 2;
    for token in argument {
        room = room.saturating_add(shown_room(&token.token));
    }
    room
}

// The text of the string literal that `#` makes of an argument.
fn text_of_argument(alloc: Global, argument: &[HiddenToken]) -> Result<Vec<u8>, Refusal>
    ensures ok { IfOk result (λ text. text.items ≡ string_text (tokens_held argument.now)) }
    ensures err { IfErr result (λ refusal. refusal ≡ Memory) }
{
    let mut text = Vec::new(alloc);
    text.reserve_exact(string_room(argument))?;
    text.push(b'"')?;
    push_argument(&mut text, argument)?;
    text.push(b'"')?;
    Ok(text)
}

// The string literal that a `#` with this mark makes of an argument (6.10.3.2p2).
fn string_piece<'a>(
    alloc: Global,
    space_before: bool,
    argument: &[HiddenToken],
    at: Pos,
) -> Result<Piece<'a>, Refusal>
    ensures value { (texts : Texts) (sets : Sets) → JoinsTo texts sets at result (string_made space_before (tokens_held argument.now) at) }
    ensures known { IfOk result (PieceIn 0) }
{
    let text = text_of_argument(alloc, argument)?;
    let token = match string_of(text, at) {
        Ok(token) => token,
        Err(refusal) => return Err(refusal),
    };
    Ok(Piece::One(HiddenToken {
        token: token.with_space(space_before),
        hides: HideSet::empty(),
    }))
}

// Which parameter follows a `#` of a function-like macro.
fn operand(is_function_like: bool, token: &BodyToken, behind: &[BodyToken]) -> Option<usize>
    ensures { result ≡ operand_in is_function_like token.now behind.now }
{
    let Some(next) = behind.first() else {
        return None;
    };
    if is_function_like && is_hash(token.token()) {
        return next.parameter();
    }
    None
}

// Whether a `##` comes first.
fn begins_joint(body: &[BodyToken]) -> bool
    ensures { result ≡ joint_first body.now }
{
    let Some(first) = body.first() else {
        return false;
    };
    is_joint(first.token())
}

// Whether a `##` comes directly before these tokens or first among them.
fn is_beside_joint(after: bool, behind: &[BodyToken]) -> bool
    ensures { result ≡ (after || joint_first behind.now) }
{
    after || begins_joint(behind)
}

// The piece of a token that is no operand of `#`.
fn token_piece<'a>(token: &BodyToken<'a>, beside: bool, at: Pos) -> Result<Piece<'a>, AllocError>
    ensures ok { IfOk result (λ made. (texts : Texts) (sets : Sets) → piece_as texts sets made ≡ piece_in beside token.now at) }
    ensures known { IfOk result (PieceIn 0) }
{
    if is_joint(token.token()) {
        return Ok(Piece::Joint);
    }
    let space_before = token.token().space_before();
    let Some(index) = token.parameter() else {
        let placed = token.token().copy_at(space_before, at)?;
        return Ok(Piece::One(HiddenToken {
            token: placed,
            hides: HideSet::empty(),
        }));
    };
    Ok(Piece::Parameter {
        beside,
        space_before,
        index,
    })
}

// The tokens of an argument by its number.
fn argument_string<'a>(
    alloc: Global,
    space_before: bool,
    arguments: &[Vec<HiddenToken>],
    index: usize,
    at: Pos,
) -> Result<Piece<'a>, Refusal>
    ensures value { (texts : Texts) (sets : Sets) → JoinsTo texts sets at result (string_made space_before (map (λ x. x.token) (list_at index (hidden_lists texts sets arguments.now))) at) }
    ensures known { IfOk result (PieceIn 0) }
{
    let Some(argument) = arguments.get(index) else {
        return string_piece(alloc, space_before, &[], at);
    };
    string_piece(alloc, space_before, argument.as_slice(), at)
}

// The next piece of a replacement list, and of how many tokens it is made. `after` where a `##` comes directly before.
fn next_piece<'a>(
    alloc: Global,
    is_function_like: bool,
    after: bool,
    token: &BodyToken<'a>,
    behind: &[BodyToken<'a>],
    at: Pos,
    arguments: &[Vec<HiddenToken>],
) -> Result<(Piece<'a>, usize), Refusal>
    ensures value { (texts : Texts) (sets : Sets) (call : Call) (x : Token) (xs : List Token) → is_function_like ≡ is_function call → call.at ≡ at
        → call.arguments ≡ hidden_lists texts sets arguments.now → token.now ≡ with_parameter (names_of call.macro.parameters) x
        → behind.now ≡ map (with_parameter (names_of call.macro.parameters)) xs → ReadsNext texts sets call after (x ∷ xs) result }
    ensures known { IfOk result (λ found. PieceIn 0 found.0) }
    ensures taken { IfOk result (λ found. (0 < found.1) × (found.1 ≤ length behind.now + 1)) }
{
    if let Some(index) = operand(is_function_like, token, behind) {
        let space_before = token.token().space_before();
        return match argument_string(alloc, space_before, arguments, index, at) {
            Ok(piece) => Ok((piece, 2)),
            Err(refusal) => Err(refusal),
        };
    }
    let beside = is_beside_joint(after, behind);
    let piece = token_piece(token, beside, at)?;
    Ok((piece, 1))
}

/// The pieces of a macro's replacement list, at the place of the name that is replaced: each `#` with its operand is the
/// string literal that they make, with the mark of the `#`. Refused with 207 at `at` where that is no string literal.
pub fn pieces<'a>(
    alloc: Global,
    definition: &Macro<'a>,
    at: Pos,
    arguments: &[Vec<HiddenToken<'a>>],
) -> Result<Vec<Piece<'a>>, Refusal>
    ensures value { (texts : Texts) (sets : Sets) (m : MacroSeen) → IsMacro texts definition.now m
        → GivesPieces texts sets at result (pieces_of (record { macro = m; at = at; arguments = hidden_lists texts sets arguments.now })) }
    ensures known { IfOk result (λ made. PiecesIn 0 made.items) }
{
    let body = definition.body();
    let is_function_like = definition.parameters().is_some();
    let mut made = Vec::new(alloc);
    made.reserve(body.len())?;
    let mut after = false;
    let mut i = 0;
    while i < body.len() {
        let next = next_piece(
            alloc,
            is_function_like,
            after,
            &body[i],
            &body[i + 1..],
            at,
            arguments,
        );
        let (piece, taken) = match next {
            Ok(found) => found,
            Err(refusal) => return Err(refusal),
        };
        after = is_joint_piece(&piece);
        made.push(piece)?;
        i += taken;
    }
    Ok(made)
}
