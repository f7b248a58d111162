//! The arguments of a call.
ghost use Rattle.std.specs.Prelude.{◌≡◌, ℕ, ◌≤◌, List, [], ◌∷◌, ◌++◌, length, not, ◌&&◌, ◌||◌, nat_eq, nat_lt, IfOk, IfErr, OnOk};
ghost use Rattle.srcset.specs.NameTable.{Texts};
ghost use Rattle.srcset.specs.declared.refusal.Refusal.TheVariants.{Memory};
ghost use Rattle.macros_substitution.specs.HideSets.{Sets};
ghost use Rattle.macros_substitution.specs.Meaning.{hidden_all, hidden_lists, AreIn, ListsIn};
ghost use Rattle.pp_expand.specs.Expansion.{arguments_in, arguments_for};
ghost use Rattle.pp_expand.specs.inside.Turns.{gathered, GathersAs, GatheredIn};

use crate::mark::{Mark, mark_of};
use macros_substitution::HiddenToken;
use srcset::Refusal;
use std::alloc::Global;
use std::collections::VecDeque;

// Whether a comma separates arguments at parenthesis depth `depth` after `before` complete arguments: with an
// ellipsis it does not after those of the named parameters (ISO/IEC 9899:2011 6.10.3p11, p12).
#[inline(always)]
fn is_separator(depth: u64, variadic: bool, named: usize, before: usize) -> bool
    ensures { result ≡ nat_eq depth 0 && (not variadic || nat_lt before named) }
{
    depth == 0 && (!variadic || before < named)
}

// A comma that separates no arguments is part of the one that contains it.
#[inline(always)]
fn keep_comma<'a>(
    argument: &mut Vec<HiddenToken<'a>>,
    comma: HiddenToken<'a>,
) -> Result<(), Refusal>
    ensures ok { OnOk result (argument.new.items ≡ argument.old.items ++ comma.entry ∷ []) }
    ensures err { IfErr result (λ refusal. refusal ≡ Memory) }
{
    argument.push(comma)?;
    Ok(())
}

// The arguments of a call, after its opening parenthesis, and its closing one; none where it is not closed.
fn gather_arguments<'a>(
    alloc: Global,
    variadic: bool,
    named: usize,
    rest: &mut VecDeque<HiddenToken<'a>>,
) -> Result<Option<(Vec<Vec<HiddenToken<'a>>>, HiddenToken<'a>)>, Refusal>
    ensures gathers { IfOk result (λ found. (texts : Texts) (sets : Sets) → GathersAs texts sets found rest.new.items (gathered variadic named [] [] (arguments_in 0 (hidden_all texts sets rest.old.items)))) }
    ensures known { IfOk result (λ found. (count : ℕ) → AreIn count rest.old.items → GatheredIn count found × AreIn count rest.new.items) }
    ensures err { IfErr result (λ refusal. refusal ≡ Memory) }
{
    let mut before = Vec::new(alloc);
    let mut now = Vec::new(alloc);
    let mut depth: u64 = 0;
    while let Some(token) = rest.pop_front() {
        match mark_of(&token.token) {
            Mark::Opens => {
                depth += 1;
                now.push(token)?;
            }
            Mark::Closes => {
                if depth == 0 {
                    before.push(now)?;
                    return Ok(Some((before, token)));
                }
                depth -= 1;
                now.push(token)?;
            }
            Mark::Separates => {
                if is_separator(depth, variadic, named, before.len()) {
                    before.push(now)?;
                    now = Vec::new(alloc);
                } else {
                    keep_comma(&mut now, token)?;
                }
            }
            Mark::Other => now.push(token)?,
        }
    }
    Ok(None)
}

// Shrinks the list where most of its room is empty. Copying the tokens that stay is paid for by those that were taken.
fn give_room_back(list: &mut VecDeque<HiddenToken<'_>>)
    ensures { list.new.items ≡ list.old.items }
{
    if list.len() < list.capacity() / 4 {
        list.shrink_to_fit();
    }
}

/// The arguments of a call of a macro with `named` named parameters, after its opening parenthesis, and its closing one;
/// none where it is not closed. The rest keeps room for few more tokens than it has, since it may wait for as long as the
/// arguments are expanded.
pub(crate) fn take_arguments<'a>(
    alloc: Global,
    variadic: bool,
    named: usize,
    rest: &mut VecDeque<HiddenToken<'a>>,
) -> Result<Option<(Vec<Vec<HiddenToken<'a>>>, HiddenToken<'a>)>, Refusal>
    ensures gathers { IfOk result (λ found. (texts : Texts) (sets : Sets) → GathersAs texts sets found rest.new.items (gathered variadic named [] [] (arguments_in 0 (hidden_all texts sets rest.old.items)))) }
    ensures known { IfOk result (λ found. (count : ℕ) → AreIn count rest.old.items → GatheredIn count found × AreIn count rest.new.items) }
    ensures err { IfErr result (λ refusal. refusal ≡ Memory) }
{
    let found = gather_arguments(alloc, variadic, named, rest);
    give_room_back(rest);
    found
}

/// The arguments for the parameters, an ellipsis being one: where there are no parameters, one empty argument is none (ISO/IEC 9899:2011 6.10.3p4).
pub(crate) fn without_empty<'a>(
    alloc: Global,
    parameters: usize,
    arguments: Vec<Vec<HiddenToken<'a>>>,
) -> Vec<Vec<HiddenToken<'a>>>
    ensures same { (texts : Texts) (sets : Sets) (names : List (List ℕ)) → length names ≡ parameters → hidden_lists texts sets result.items ≡ arguments_for names (hidden_lists texts sets arguments.entry.items) }
    ensures known { (count : ℕ) → ListsIn count arguments.entry.items → ListsIn count result.items }
{
    if parameters == 0 && arguments.len() == 1 && arguments[0].is_empty() {
        return Vec::new(alloc);
    }
    arguments
}
