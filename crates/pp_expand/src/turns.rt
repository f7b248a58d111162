//! The effect of a list's first token, and the way to the next replacement.
ghost use Rattle.std.specs.Prelude.{◌≡◌, ℕ, ◌≤◌, ◌<◌, List, [], ◌∷◌, length, Some, option_map, slice_get, IfOk, IfErr};
ghost use Rattle.srcset.specs.NameTable.{Texts, NumbersOnce};
ghost use Rattle.macros.specs.Macro.{Macro as MacroSeen, Macros, Parameters, is_spelled};
ghost use Rattle.macros.specs.Definition.{names_of};
ghost use Rattle.macros.specs.Table.{IsTable, IsMacro};
ghost use Rattle.macros_substitution.specs.HideSets.{Sets, Extends, NamesBelow};
ghost use Rattle.macros_substitution.specs.Meaning.{hidden_of, hidden_all, AreIn};
ghost use Rattle.pp_expand.specs.Expansion.{object_turn, count_fault, taken_turn, last_turn, arguments_in, turn_by, turn};
ghost use Rattle.macros_substitution.specs.declared.piece.HiddenToken.{HiddenToken};
ghost use Rattle.pp_expand.specs.Expands.{ending_of};
ghost use Rattle.pp_expand.specs.Meaning.{LevelIn};
ghost use Rattle.pp_expand.specs.inside.Turns.{TaskIn, TaskTurn, TurnIs, TurnedIn, KeepsRest, OnceFor, LastIs, AdvanceIs, AdvancedIn};

use crate::arguments::{take_arguments, without_empty};
use crate::level::Level;
use crate::mark::{Mark, mark_of};
use crate::naming::named;
use crate::run_end::RunEnd;
use crate::task::{Named, Step, Task, Turned};
use macros::{Macro, MacroTable};
use macros_substitution::{HiddenToken, HideSets};
use srcset::{Code, Names, Refusal};
use std::alloc::Global;
use std::collections::VecDeque;

/// The most arguments that a call may have.
const MAX_ARGUMENTS: usize = 127;

// The replacement of an object-like macro, whose name has this number.
fn object_task<'a, 't>(
    alloc: Global,
    number: usize,
    definition: &'t Macro<'a>,
    sets: &mut HideSets,
    x: HiddenToken<'a>,
) -> Result<Task<'a, 't>, Refusal>
    requires { x.hides ≤ length sets.old }
    ensures task { (texts : Texts) (later : Sets) (m : MacroSeen) (rest : List HiddenToken) → IsMacro texts definition.now m → slice_get texts number ≡ Some x.entry.token.spelling → Extends sets.new later → TaskTurn texts later x.entry.token.pos (object_turn (hidden_of texts later x.entry) m (hidden_all texts later rest)) result rest }
    ensures known { IfOk result (λ k. TaskIn (length sets.new) k) }
    ensures keeps { Extends sets.old sets.new }
    ensures names { (count : ℕ) → number < count → NamesBelow count sets.old → NamesBelow count sets.new }
{
    let hides = sets.with(x.hides, number)?;
    Ok(Task {
        definition,
        space_before: x.token.space_before(),
        at: x.token.pos(),
        hides,
        arguments: Vec::new(alloc),
    })
}

// The fault of this argument count: there are arguments for the named parameters alone, or too few or too many.
fn count_fault(variadic: bool, named: usize, count: usize) -> Code
    ensures { result ≡ count_fault variadic named count }
{
    if variadic && count == named {
        return Code::NoVariableArgument;
    }
    Code::MacroArgumentCount
}

// The replacement of a function-like macro after its opening parenthesis; an ellipsis counts as a parameter.
fn call_task<'a, 't>(
    alloc: Global,
    number: usize,
    definition: &'t Macro<'a>,
    parameters: usize,
    sets: &mut HideSets,
    x: HiddenToken<'a>,
    rest: &mut VecDeque<HiddenToken<'a>>,
) -> Result<Task<'a, 't>, Refusal>
    requires name { x.hides ≤ length sets.old }
    requires behind { AreIn (length sets.old) rest.old.items }
    ensures task { (texts : Texts) (later : Sets) (m : MacroSeen) (q : Parameters) → m.parameters ≡ Some q → length (names_of (Some q)) ≡ parameters → IsMacro texts definition.now m → slice_get texts number ≡ Some x.entry.token.spelling → NumbersOnce texts → NamesBelow (length texts) sets.old → Extends sets.new later → TaskTurn texts later x.entry.token.pos (taken_turn (hidden_of texts later x.entry) m q (arguments_in 0 (hidden_all texts later rest.old.items))) result rest.new.items }
    ensures known { IfOk result (λ k. TaskIn (length sets.new) k × AreIn (length sets.new) rest.new.items) }
    ensures keeps { Extends sets.old sets.new }
    ensures names { (count : ℕ) → number < count → NamesBelow count sets.old → NamesBelow count sets.new }
{
    let pos = x.token.pos();
    let variadic = definition.is_variadic();
    let named = definition.names().len();
    let Some((arguments, close)) = take_arguments(alloc, variadic, named, rest)? else {
        return Err(Refusal::At {
            code: Code::OpenMacroArguments,
            pos,
        });
    };
    let arguments = without_empty(alloc, parameters, arguments);
    if arguments.len() > MAX_ARGUMENTS {
        return Err(Refusal::At {
            code: Code::MacroParameterLimit,
            pos,
        });
    }
    if arguments.len() != parameters {
        return Err(Refusal::At {
            code: count_fault(variadic, named, arguments.len()),
            pos,
        });
    }
    let hidden_by_both = sets.common(x.hides, close.hides)?;
    let hides = sets.with(hidden_by_both, number)?;
    Ok(Task {
        definition,
        space_before: x.token.space_before(),
        at: pos,
        hides,
        arguments,
    })
}

// The effect of a function-like name that is last in its list.
fn last_turn<'a, 't>(x: HiddenToken<'a>, end: RunEnd) -> Result<Turned<'a, 't>, Refusal>
    ensures { LastIs x.entry (last_turn (ending_of end)) result }
{
    match end {
        RunEnd::Run => Err(Refusal::At {
            code: Code::MacroNameEndsRun,
            pos: x.token.pos(),
        }),
        RunEnd::Directive => Ok(Turned::Stays(x)),
        RunEnd::Argument => Ok(Turned::Stays(x)),
    }
}

// The effect of a name of a macro of the table.
fn macro_turn<'a, 't>(
    alloc: Global,
    number: usize,
    definition: &'t Macro<'a>,
    sets: &mut HideSets,
    x: HiddenToken<'a>,
    rest: &mut VecDeque<HiddenToken<'a>>,
    end: RunEnd,
) -> Result<Turned<'a, 't>, Refusal>
    requires name { x.hides ≤ length sets.old }
    requires behind { AreIn (length sets.old) rest.old.items }
    ensures turn { (texts : Texts) (later : Sets) (m : MacroSeen) → IsMacro texts definition.now m → slice_get texts number ≡ Some x.entry.token.spelling → NumbersOnce texts → NamesBelow (length texts) sets.old → Extends sets.new later → TurnIs texts later x.entry rest.old.items (turn_by (hidden_of texts later x.entry) m m.parameters (hidden_all texts later rest.old.items) (ending_of end)) result rest.new.items }
    ensures known { IfOk result (λ t. TurnedIn (length sets.new) t × AreIn (length sets.new) rest.new.items) }
    ensures rest { IfOk result (λ t. KeepsRest t rest.old.items rest.new.items) }
    ensures keeps { Extends sets.old sets.new }
    ensures names { (count : ℕ) → number < count → NamesBelow count sets.old → NamesBelow count sets.new }
{
    let Some(parameters) = definition.parameters() else {
        return match object_task(alloc, number, definition, sets, x) {
            Ok(task) => Ok(Turned::Takes(Step::Replaced(task))),
            Err(refusal) => Err(refusal),
        };
    };
    let Some(next) = rest.front() else {
        return last_turn(x, end);
    };
    let Mark::Opens = mark_of(&next.token) else {
        return Ok(Turned::Stays(x));
    };
    let _ = rest.pop_front();
    match call_task(alloc, number, definition, parameters, sets, x, rest) {
        Ok(task) => Ok(Turned::Takes(Step::Replaced(task))),
        Err(refusal) => Err(refusal),
    }
}

/// The effect of a list's first token.
#[inline(always)]
pub(crate) fn take_turn<'a, 't>(
    alloc: Global,
    table: &'t MacroTable<'a>,
    names: &Names,
    sets: &mut HideSets,
    x: HiddenToken<'a>,
    rest: &mut VecDeque<HiddenToken<'a>>,
    end: RunEnd,
) -> Result<Turned<'a, 't>, Refusal>
    requires name { x.hides ≤ length sets.old }
    requires behind { AreIn (length sets.old) rest.old.items }
    ensures turn { (macros : Macros) (later : Sets) → IsTable names.now table.now macros → NamesBelow (length names.now) sets.old → Extends sets.new later → TurnIs names.now later x.entry rest.old.items (turn (record { macros = macros; texts = names.now }) (hidden_of names.now later x.entry) (hidden_all names.now later rest.old.items) (ending_of end)) result rest.new.items }
    ensures known { IfOk result (λ t. TurnedIn (length sets.new) t × AreIn (length sets.new) rest.new.items) }
    ensures rest { IfOk result (λ t. KeepsRest t rest.old.items rest.new.items) }
    ensures once { IfOk result (λ t. OnceFor names.now t) }
    ensures keeps { Extends sets.old sets.new }
    ensures names { NamesBelow (length names.now) sets.old → NamesBelow (length names.now) sets.new }
{
    match named(table, names, sets, &x) {
        Named::Nothing => Ok(Turned::Stays(x)),
        Named::OfCompiler => Ok(Turned::Takes(Step::Predefined(x))),
        Named::Defined(number, definition) => {
            macro_turn(alloc, number, definition, sets, x, rest, end)
        }
    }
}

/// Continues to the next replacement, or to the end of the list.
pub(crate) fn advance<'a, 't>(
    alloc: Global,
    table: &'t MacroTable<'a>,
    names: &Names,
    sets: &mut HideSets,
    level: &mut Level<'a>,
) -> Result<Option<Step<'a, 't>>, Refusal>
    requires { LevelIn (length sets.old) level.old }
    ensures advances { (macros : Macros) (later : Sets) → IsTable names.now table.now macros → NamesBelow (length names.now) sets.old → Extends sets.new later → AdvanceIs (record { macros = macros; texts = names.now }) later level.old result level.new }
    ensures known { IfOk result (λ o. AdvancedIn (length sets.new) o × LevelIn (length sets.new) level.new) }
    ensures keeps { Extends sets.old sets.new }
    ensures names { NamesBelow (length names.now) sets.old → NamesBelow (length names.now) sets.new }
{
    while let Some(x) = level.rest.pop_front() {
        match take_turn(alloc, table, names, sets, x, &mut level.rest, level.end) {
            Ok(Turned::Stays(x)) => level.out.push(x)?,
            Ok(Turned::Takes(step)) => return Ok(Some(step)),
            Err(refusal) => return Err(refusal),
        }
    }
    Ok(None)
}
