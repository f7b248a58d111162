//! Replacements whose arguments are being expanded.
ghost use Rattle.std.specs.Prelude.{◌≡◌, ℕ, suc, ◌≤◌, ◌<◌, ◌+◌, List, [], ◌∷◌, ◌++◌, length, drop, Some, slice_get, get_or, IfOk, IfErr};
ghost use Rattle.srcset.specs.NameTable.{Texts, NumbersOnce};
ghost use Rattle.srcset.specs.declared.refusal.Refusal.TheVariants.{Memory};
ghost use Rattle.macros_substitution.specs.HideSets.{Sets, Extends, NamesBelow};
ghost use Rattle.macros_substitution.specs.Meaning.{hidden_all, AreIn};
ghost use Rattle.pp_expand.specs.Expansion.{Known, Replacement};
ghost use Rattle.pp_expand.specs.Meaning.{LevelIn};
ghost use Rattle.pp_expand.specs.inside.Turns.{IsTask, TaskIn};
ghost use Rattle.pp_expand.specs.inside.Waits.{WaitingIn, WaitingsIn, ProceedIs, BeginIs, JoinIs, TakesArgument, weight, weights};

use crate::level::Level;
use crate::run_end::RunEnd;
use crate::task::Task;
use macros_substitution::{
    HiddenToken, HideSet, HideSets, Piece, Use, pieces, put_in_front, substitute, uses,
};
use srcset::{Pos, Refusal};
use std::alloc::Global;
use std::collections::VecDeque;
use std::mem;

/// A replacement whose arguments are being expanded, and the list that contains it.
#[derive(Drop)]
pub(crate) struct Waiting<'a> {
    pub(crate) level: Level<'a>,
    /// Whether white space precedes the name.
    pub(crate) space_before: bool,
    /// The place of the name.
    pub(crate) at: Pos,
    /// The names that the tokens of the replacement hide in addition to their own.
    pub(crate) hides: HideSet,
    /// The arguments. One that is nowhere next to `##` is consumed by its expansion.
    pub(crate) arguments: Vec<Vec<HiddenToken<'a>>>,
    /// How the replacement list uses each of its parameters.
    pub(crate) uses: Vec<Use>,
    pub(crate) pieces: Vec<Piece<'a>>,
    /// The expansions of the first arguments; those that are not needed are empty.
    pub(crate) full: Vec<Vec<HiddenToken<'a>>>,
}

// The tokens once more.
fn copies<'a>(alloc: Global, list: &[HiddenToken<'a>]) -> Result<VecDeque<HiddenToken<'a>>, Refusal>
    ensures ok { IfOk result (λ copy. copy.items ≡ list.now) }
    ensures err { IfErr result (λ refusal. refusal ≡ Memory) }
{
    let mut copy = VecDeque::new(alloc);
    for x in list {
        let token = x.token.copy()?;
        copy.push_back(HiddenToken {
            token,
            hides: x.hides,
        })?;
    }
    Ok(copy)
}

// An argument that is to be expanded: a copy where it is kept, and else itself.
fn take_argument<'a>(
    alloc: Global,
    arguments: &mut Vec<Vec<HiddenToken<'a>>>,
    index: usize,
    keeps: bool,
) -> Result<VecDeque<HiddenToken<'a>>, Refusal>
    requires { index < length arguments.old.items }
    ensures ok { IfOk result (λ list. TakesArgument arguments.old.items index keeps list.items arguments.new.items) }
    ensures err { IfErr result (λ refusal. refusal ≡ Memory) }
{
    if keeps {
        let copy = copies(alloc, arguments[index].as_slice())?;
        return Ok(copy);
    }
    let argument = mem::replace(&mut arguments[index], Vec::new(alloc));
    Ok(VecDeque::from(argument))
}

// The result of a replacement whose arguments are expanded, in front of the list that contains it.
fn finish<'a>(alloc: Global, at: Waiting<'a>, sets: &mut HideSets) -> Result<Level<'a>, Refusal>
    requires known { WaitingIn (length sets.old) at }
    requires all { length at.arguments.items ≤ length at.full.items }
    ensures finishes { (known : Known) (later : Sets) → NumbersOnce known.texts → NamesBelow (length known.texts) sets.old → Extends sets.new later → ProceedIs known later [] at.entry result [] }
    ensures known { IfOk result (λ level. LevelIn (length sets.new) level) }
    ensures keeps { Extends sets.old sets.new }
    ensures names { (count : ℕ) → NamesBelow count sets.old → NamesBelow count sets.new }
{
    let Waiting {
        mut level,
        space_before,
        at: pos,
        hides,
        arguments,
        uses: _,
        pieces,
        full,
    } = at;
    let new = substitute(alloc, pieces, arguments, full, pos, sets)?;
    put_in_front(new, space_before, hides, sets, &mut level.rest)?;
    Ok(level)
}

// Continues a replacement, to its next argument whose expansion is needed or past it.
fn proceed<'a>(
    alloc: Global,
    mut at: Waiting<'a>,
    waiting: &mut Vec<Waiting<'a>>,
    sets: &mut HideSets,
) -> Result<Level<'a>, Refusal>
    requires known { WaitingIn (length sets.old) at }
    requires others { WaitingsIn (length sets.old) waiting.old.items }
    ensures proceeds { (known : Known) (later : Sets) → NumbersOnce known.texts → NamesBelow (length known.texts) sets.old → Extends sets.new later → ProceedIs known later waiting.old.items at.entry result waiting.new.items }
    ensures known { IfOk result (λ level. LevelIn (length sets.new) level × WaitingsIn (length sets.new) waiting.new.items) }
    ensures keeps { Extends sets.old sets.new }
    ensures names { (count : ℕ) → NamesBelow count sets.old → NamesBelow count sets.new }
    ensures bound { IfOk result (λ _. weights waiting.new.items ≤ weights waiting.old.items + weight at.entry) }
    ensures done { IfOk result (λ _. length at.entry.arguments.items ≤ length at.entry.full.items → weights waiting.new.items ≤ weights waiting.old.items) }
{
    while at.full.len() < at.arguments.len() {
        let index = at.full.len();
        let used = at.uses[index];
        if used.expanded {
            let rest = take_argument(alloc, &mut at.arguments, index, used.beside)?;
            waiting.push(at)?;
            return Ok(Level {
                rest,
                out: Vec::new(alloc),
                end: RunEnd::Argument,
            });
        }
        at.full.push(Vec::new(alloc))?;
    }
    finish(alloc, at, sets)
}

/// Begins a replacement.
pub(crate) fn begin<'a>(
    alloc: Global,
    level: Level<'a>,
    task: Task<'a, '_>,
    waiting: &mut Vec<Waiting<'a>>,
    sets: &mut HideSets,
) -> Result<Level<'a>, Refusal>
    requires level { LevelIn (length sets.old) level }
    requires task { TaskIn (length sets.old) task }
    requires others { WaitingsIn (length sets.old) waiting.old.items }
    ensures begins { (known : Known) (later : Sets) (r : Replacement) → IsTask known.texts later task.entry level.entry.rest.items r → NumbersOnce known.texts → NamesBelow (length known.texts) sets.old → Extends sets.new later → BeginIs known later waiting.old.items level.entry r result waiting.new.items }
    ensures known { IfOk result (λ made. LevelIn (length sets.new) made × WaitingsIn (length sets.new) waiting.new.items) }
    ensures keeps { Extends sets.old sets.new }
    ensures names { (count : ℕ) → NamesBelow count sets.old → NamesBelow count sets.new }
    ensures bound { IfOk result (λ _. weights waiting.new.items ≤ weights waiting.old.items + 128) }
{
    let Task {
        definition,
        space_before,
        at,
        hides,
        arguments,
    } = task;
    let pieces = pieces(alloc, definition, at, arguments.as_slice())?;
    let uses = uses(alloc, arguments.len(), pieces.as_slice())?;
    let replacement = Waiting {
        level,
        space_before,
        at,
        hides,
        arguments,
        uses,
        pieces,
        full: Vec::new(alloc),
    };
    proceed(alloc, replacement, waiting, sets)
}

/// Continues a replacement whose next argument has this expansion.
pub(crate) fn join<'a>(
    alloc: Global,
    mut at: Waiting<'a>,
    argument: Vec<HiddenToken<'a>>,
    waiting: &mut Vec<Waiting<'a>>,
    sets: &mut HideSets,
) -> Result<Level<'a>, Refusal>
    requires known { WaitingIn (length sets.old) at }
    requires argument { AreIn (length sets.old) argument.items }
    requires others { WaitingsIn (length sets.old) waiting.old.items }
    ensures joins { (known : Known) (later : Sets) → NumbersOnce known.texts → NamesBelow (length known.texts) sets.old → Extends sets.new later → JoinIs known later waiting.old.items at.entry argument.entry.items result waiting.new.items }
    ensures known { IfOk result (λ made. LevelIn (length sets.new) made × WaitingsIn (length sets.new) waiting.new.items) }
    ensures keeps { Extends sets.old sets.new }
    ensures names { (count : ℕ) → NamesBelow count sets.old → NamesBelow count sets.new }
    ensures bound { IfOk result (λ _. weights waiting.new.items < weights waiting.old.items + weight at.entry) }
{
    at.full.push(argument)?;
    proceed(alloc, at, waiting, sets)
}
