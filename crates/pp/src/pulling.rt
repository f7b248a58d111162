//! The run that is pulled.
ghost use Rattle.std.specs.Prelude.{◌≡◌};
ghost use Rattle.pp_expand.specs.Streams.{refusal_of};
ghost use Rattle.pp.specs.inside.Calls.{CallsAll, KnowsAll, RefusesAll};

use crate::state::State;
use macros::MacroTable;
use phases::PpToken;
use pp_expand::{Budget, Expander};
use srcset::{Code, Names, Pos, Refusal};
use std::alloc::Global;

/// The next token of a run, as `Expander::try_next` gives it.
#[inline(always)]
pub fn pull_run<'a>(
    alloc: Global,
    run: &mut Expander<'a>,
    state: &mut State<'a>,
    names: &Names,
) -> Result<Option<PpToken<'a>>, Refusal>
    ensures pulls { CallsAll names.now state.old.table run.old run.new state.old.budget state.new.budget result }
    ensures known { KnowsAll names.now state.old.table run.old run.new }
    ensures refused { run.new.refused ≡ refusal_of result }
    ensures end { run.new.end ≡ run.old.end }
    ensures same { state.new ≡ record state.old { budget = state.new.budget } }
{
    run.try_next(alloc, &state.table, &mut state.budget, names)
}

// Why a run is refused whose token at this place is the first in excess: the rest is expanded, and not kept.
fn refusal_by<'a>(
    alloc: Global,
    run: &mut Expander<'a>,
    table: &MacroTable<'a>,
    budget: &mut Budget,
    at: Pos,
    names: &Names,
) -> Refusal
    ensures { RefusesAll names.now table.now run.old budget.old result at }
{
    'behind: loop {
        match run.try_next(alloc, table, budget, names) {
            Ok(given) => {
                let Some(_token) = given else {
                    return Refusal::At {
                        code: Code::TokenLimit,
                        pos: at,
                    };
                };
            }
            Err(refusal) => return refusal,
        }
    }
}

/// Why a run is refused whose token at this place is the first in excess: the rest is expanded, and not kept.
pub fn refusal_behind<'a>(
    alloc: Global,
    run: &mut Expander<'a>,
    state: &mut State<'a>,
    at: Pos,
    names: &Names,
) -> Refusal
    ensures refused { RefusesAll names.now state.old.table run.old state.old.budget result at }
    ensures same { state.new ≡ record state.old { budget = state.new.budget } }
{
    refusal_by(alloc, run, &state.table, &mut state.budget, at, names)
}
