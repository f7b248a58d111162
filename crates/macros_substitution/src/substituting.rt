//! The second and third passes over a replacement list.
ghost use Rattle.std.specs.Prelude.{◌≡◌, ℕ, length, IfOk};
ghost use Rattle.srcset.specs.NameTable.{Texts, NumbersOnce};
ghost use Rattle.macros_substitution.specs.HideSets.{Sets, Extends, NamesBelow};
ghost use Rattle.macros_substitution.specs.Meaning.{hidden_all, hidden_lists, pieces_as, AreIn, ListsIn, PiecesIn, HasBeside, GivesTokens};
ghost use Rattle.macros_substitution.specs.Substitution.{Call, substituted};

use crate::feeding::feed_all;
use crate::hide_sets::HideSets;
use crate::joining::{Hand, Joining, finish};
use crate::piece::{HiddenToken, Piece};
use crate::plain::{has_joint, put_all};
use srcset::{Pos, Refusal};
use std::alloc::Global;
use std::collections::VecDeque;

// The same where a `##` may be among the pieces.
fn substitute_joining<'a>(
    alloc: Global,
    pieces: Vec<Piece<'a>>,
    arguments: Vec<Vec<HiddenToken<'a>>>,
    full: Vec<Vec<HiddenToken<'a>>>,
    at: Pos,
    sets: &mut HideSets,
) -> Result<Vec<HiddenToken<'a>>, Refusal>
    requires pieces { PiecesIn (length sets.old) pieces.items }
    requires arguments { ListsIn (length sets.old) arguments.items }
    requires full { ListsIn (length sets.old) full.items }
    ensures value { (texts : Texts) (later : Sets) (call : Call) → NumbersOnce texts → NamesBelow (length texts) sets.old → Extends sets.new later
        → call.at ≡ at → HasBeside (pieces_as texts later pieces.entry.items) (hidden_lists texts later arguments.entry.items) call
        → GivesTokens texts later at result (substituted call (hidden_lists texts later full.entry.items) (pieces_as texts later pieces.entry.items)) }
    ensures known { IfOk result (λ new. AreIn (length sets.new) new.items) }
    ensures keeps { Extends sets.old sets.new }
    ensures names { (count : ℕ) → NamesBelow count sets.old → NamesBelow count sets.new }
{
    let start = Joining {
        done: Vec::new(alloc),
        hand: Hand::Nothing,
    };
    let pieces = VecDeque::from(pieces);
    let joining = match feed_all(
        alloc,
        start,
        pieces,
        arguments.as_slice(),
        full.as_slice(),
        at,
        sets,
    ) {
        Ok(fed) => fed,
        Err(refusal) => return Err(refusal),
    };
    finish(joining)
}

/// The result of the pieces: each parameter next to `##` is its argument, each other one its argument's expansion, each `##`
/// the token that it makes of its operands (ISO/IEC 9899:2011 6.10.3.1, 6.10.3.3). Refused with 206 at `at`, the place of the
/// replaced name, where a `##` makes no token.
///
/// Only arguments next to `##` are read, and only expansions of those that are elsewhere.
pub fn substitute<'a>(
    alloc: Global,
    pieces: Vec<Piece<'a>>,
    arguments: Vec<Vec<HiddenToken<'a>>>,
    full: Vec<Vec<HiddenToken<'a>>>,
    at: Pos,
    sets: &mut HideSets,
) -> Result<Vec<HiddenToken<'a>>, Refusal>
    requires pieces { PiecesIn (length sets.old) pieces.items }
    requires arguments { ListsIn (length sets.old) arguments.items }
    requires full { ListsIn (length sets.old) full.items }
    ensures value { (texts : Texts) (later : Sets) (call : Call) → NumbersOnce texts → NamesBelow (length texts) sets.old → Extends sets.new later
        → call.at ≡ at → HasBeside (pieces_as texts later pieces.entry.items) (hidden_lists texts later arguments.entry.items) call
        → GivesTokens texts later at result (substituted call (hidden_lists texts later full.entry.items) (pieces_as texts later pieces.entry.items)) }
    ensures known { IfOk result (λ new. AreIn (length sets.new) new.items) }
    ensures keeps { Extends sets.old sets.new }
    ensures names { (count : ℕ) → NamesBelow count sets.old → NamesBelow count sets.new }
{
    if has_joint(pieces.as_slice()) {
        return substitute_joining(alloc, pieces, arguments, full, at, sets);
    }
    put_all(alloc, pieces.as_slice(), arguments.as_slice(), full)
}
