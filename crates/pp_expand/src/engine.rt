//! A replacement, whose arguments are expanded one after the other.
ghost use Rattle.std.specs.Prelude.{◌≡◌, suc, ◌+◌, ◌*◌, ◌<◌, ◌≤◌, length, IfOk, IfErr, OnOk};
ghost use Rattle.srcset.specs.NameTable.{NumbersOnce};
ghost use Rattle.srcset.specs.declared.code.Code.TheVariants.{ReplacementLimit};
ghost use Rattle.srcset.specs.declared.refusal.Refusal.TheVariants.{At};
ghost use Rattle.macros.specs.Macro.{Macros};
ghost use Rattle.macros.specs.Table.{IsTable};
ghost use Rattle.macros_substitution.specs.HideSets.{Sets, Extends, NamesBelow};
ghost use Rattle.macros_substitution.specs.Meaning.{AreIn};
ghost use Rattle.pp_expand.specs.Expansion.{Replacement};
ghost use Rattle.pp_expand.specs.Pulled.{expanding, made_by};
ghost use Rattle.pp_expand.specs.Meaning.{LevelIn};
ghost use Rattle.pp_expand.specs.inside.Turns.{place_of, IsTask, TaskIn};
ghost use Rattle.pp_expand.specs.inside.Waits.{weights, WaitingsIn, GoesOnAs, MakesAs};

use crate::level::Level;
use crate::run_end::RunEnd;
use crate::task::{Step, Task};
use crate::tokens::predefined;
use crate::turns::advance;
use crate::waiting::{Waiting, begin, join};
use macros::MacroTable;
use macros_substitution::{HiddenToken, HideSets};
use srcset::{Code, Names, Pos, Refusal};
use std::alloc::Global;
use std::collections::VecDeque;
use std::mem;

// The place of the name that is replaced.
fn place(step: &Step<'_, '_>) -> Pos
    ensures { result ≡ place_of step.now }
{
    match step {
        Step::Predefined(x) => x.token.pos(),
        Step::Replaced(task) => task.at,
    }
}

/// Takes one of the replacements that are left.
pub(crate) fn count_one(step: &Step<'_, '_>, left: &mut u32) -> Result<(), Refusal>
    ensures ok { OnOk result (left.old ≡ suc left.new) }
    ensures err { IfErr result (λ refusal. (left.old ≡ 0) × (refusal ≡ At ReplacementLimit (place_of step.now))) }
{
    if *left == 0 {
        return Err(Refusal::At {
            code: Code::ReplacementLimit,
            pos: place(step),
        });
    }
    *left -= 1;
    Ok(())
}

// Continues with the innermost list, to its next replacement or to the replacement that it is an argument of.
fn go_on<'a>(
    alloc: Global,
    table: &MacroTable<'a>,
    names: &Names,
    sets: &mut HideSets,
    mut level: Level<'a>,
    waiting: &mut Vec<Waiting<'a>>,
    left: &mut u32,
) -> Result<Level<'a>, Refusal>
    requires level { LevelIn (length sets.old) level }
    requires others { WaitingsIn (length sets.old) waiting.old.items }
    requires some { 0 < length waiting.old.items }
    ensures goes { (macros : Macros) (later : Sets) → IsTable names.now table.now macros → NumbersOnce names.now → NamesBelow (length names.now) sets.old → Extends sets.new later → GoesOnAs (record { macros = macros; texts = names.now }) later waiting.old.items level.entry left.old result waiting.new.items left.new }
    ensures known { IfOk result (λ made. LevelIn (length sets.new) made × WaitingsIn (length sets.new) waiting.new.items) }
    ensures keeps { Extends sets.old sets.new }
    ensures names { NamesBelow (length names.now) sets.old → NamesBelow (length names.now) sets.new }
    ensures falls { IfOk result (λ made. 129 * left.new + weights waiting.new.items < 129 * left.old + weights waiting.old.items) }
    ensures left { IfOk result (λ made. left.new ≤ left.old) }
{
    let Some(step) = advance(alloc, table, names, sets, &mut level)? else {
        let Some(at) = waiting.pop() else {
            return Ok(level);
        };
        return join(alloc, at, level.out, waiting, sets);
    };
    count_one(&step, left)?;
    match step {
        Step::Predefined(x) => {
            level.rest.push_front(predefined(alloc, names, &x)?)?;
            Ok(level)
        }
        Step::Replaced(task) => begin(alloc, level, task, waiting, sets),
    }
}

/// Makes a replacement in front of a list, from where it is scanned again. The replacements in its arguments are made, and
/// taken from those that are left; none waits afterwards.
pub(crate) fn make<'a>(
    alloc: Global,
    table: &MacroTable<'a>,
    names: &Names,
    sets: &mut HideSets,
    task: Task<'a, '_>,
    list: &mut VecDeque<HiddenToken<'a>>,
    end: RunEnd,
    left: &mut u32,
) -> Result<(), Refusal>
    requires task { TaskIn (length sets.old) task }
    requires list { AreIn (length sets.old) list.old.items }
    ensures makes { (macros : Macros) (later : Sets) (r : Replacement) → IsTask names.now later task.entry list.old.items r → IsTable names.now table.now macros → NumbersOnce names.now → NamesBelow (length names.now) sets.old → Extends sets.new later → MakesAs names.now later result list.new.items left.new (made_by (expanding (record { macros = macros; texts = names.now })) r left.old) }
    ensures known { OnOk result (AreIn (length sets.new) list.new.items) }
    ensures keeps { Extends sets.old sets.new }
    ensures names { NamesBelow (length names.now) sets.old → NamesBelow (length names.now) sets.new }
    ensures left { OnOk result (left.new ≤ left.old) }
{
    let mut waiting = Vec::new(alloc);
    let outermost = Level {
        rest: mem::replace(list, VecDeque::new(alloc)),
        out: Vec::new(alloc),
        end,
    };
    let mut level = begin(alloc, outermost, task, &mut waiting, sets)?;
    while !waiting.is_empty() {
        level = go_on(alloc, table, names, sets, level, &mut waiting, left)?;
    }
    *list = level.rest;
    Ok(())
}
