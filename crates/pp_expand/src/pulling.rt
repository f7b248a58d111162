//! The first token of an expansion.
ghost use Rattle.std.specs.Prelude.{◌<◌, length, IfOk, IfSome, OnOk};
ghost use Rattle.macros.specs.Macro.{Macros};
ghost use Rattle.macros.specs.Table.{IsTable};
ghost use Rattle.macros_substitution.specs.HideSets.{Sets, Extends, NamesBelow};
ghost use Rattle.macros_substitution.specs.Meaning.{hidden_all, AreIn};
ghost use Rattle.pp_expand.specs.Expands.{ending_of};
ghost use Rattle.pp_expand.specs.Pulled.{pulled};
ghost use Rattle.pp_expand.specs.inside.Turns.{StepIn};
ghost use Rattle.pp_expand.specs.inside.Pulls.{StepsAs, PullsAs, FallsTo};

use crate::engine::{count_one, make};
use crate::run_end::RunEnd;
use crate::task::{Step, Turned};
use crate::tokens::predefined;
use crate::turns::take_turn;
use macros::MacroTable;
use macros_substitution::{HiddenToken, HideSets};
use srcset::{Names, Refusal};
use std::alloc::Global;
use std::collections::VecDeque;

// Makes the replacement of the name at the front of a list.
fn take_step<'a>(
    alloc: Global,
    table: &MacroTable<'a>,
    names: &Names,
    sets: &mut HideSets,
    step: Step<'a, '_>,
    list: &mut VecDeque<HiddenToken<'a>>,
    end: RunEnd,
    left: &mut u32,
) -> Result<(), Refusal>
    requires step { StepIn (length sets.old) step }
    requires list { AreIn (length sets.old) list.old.items }
    ensures steps { (macros : Macros) (later : Sets) → IsTable names.now table.now macros → NamesBelow (length names.now) sets.old → Extends sets.new later → StepsAs (record { macros = macros; texts = names.now }) later step.entry list.old.items left.old result list.new.items left.new }
    ensures known { OnOk result (AreIn (length sets.new) list.new.items) }
    ensures keeps { Extends sets.old sets.new }
    ensures names { NamesBelow (length names.now) sets.old → NamesBelow (length names.now) sets.new }
    ensures left { OnOk result (left.new < left.old) }
{
    count_one(&step, left)?;
    match step {
        Step::Predefined(x) => {
            list.push_front(predefined(alloc, names, &x)?)?;
            Ok(())
        }
        Step::Replaced(task) => make(alloc, table, names, sets, task, list, end, left),
    }
}

/// The first token of the expansion of a list, which is then the list left after it; none where it ends. The replacements
/// made until that token is final are taken from those that are left.
#[inline(always)]
pub(crate) fn pull<'a>(
    alloc: Global,
    table: &MacroTable<'a>,
    names: &Names,
    sets: &mut HideSets,
    list: &mut VecDeque<HiddenToken<'a>>,
    end: RunEnd,
    left: &mut u32,
) -> Result<Option<HiddenToken<'a>>, Refusal>
    requires { AreIn (length sets.old) list.old.items }
    ensures pulls { (macros : Macros) (later : Sets) → IsTable names.now table.now macros → NamesBelow (length names.now) sets.old → Extends sets.new later → PullsAs names.now later result list.new.items left.new (pulled (record { macros = macros; texts = names.now }) (hidden_all names.now later list.old.items) (ending_of end) left.old) }
    ensures known { OnOk result (AreIn (length sets.new) list.new.items) }
    ensures keeps { Extends sets.old sets.new }
    ensures names { NamesBelow (length names.now) sets.old → NamesBelow (length names.now) sets.new }
    ensures falls { IfOk result (λ given. IfSome given (λ x. FallsTo left.old (length list.old.items) left.new (length list.new.items))) }
{
    while let Some(x) = list.pop_front() {
        match take_turn(alloc, table, names, sets, x, list, end) {
            Ok(Turned::Stays(x)) => return Ok(Some(x)),
            Ok(Turned::Takes(step)) => {
                if let Err(refusal) = take_step(alloc, table, names, sets, step, list, end, left) {
                    return Err(refusal);
                }
            }
            Err(refusal) => return Err(refusal),
        }
    }
    Ok(None)
}
