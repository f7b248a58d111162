//! Statements (6.8), a function for each kind.

ghost use Rattle.std.specs.Prelude.{◌≡◌, map, IfOk, IfSome, None, Some};
ghost use Rattle.typing_spec.specs.Program as typed;
ghost use Rattle.typed_ast.specs.View.{option_value, statement_of, statements_of, value_of};
ghost use Rattle.verify_logic.specs.Statements.{EvaluatesOr, Executes, ExecutesAll, Follows, TestsOr};
ghost use Rattle.verify_expressions.specs.Views.{frame_of, state_of};
ghost use Rattle.verify_statements.specs.Loops.{Leads, Loops, Turns};
ghost use Rattle.verify_statements.specs.Switches.{EntersAll, EntersLabel, EntersOne};
ghost use Rattle.verify_statements.specs.Ways.{ways_of};

use crate::begun::{all_renewed, declared, defined};
use crate::labels::{any_default, behind_switch, cased, defaulted, is_label};
use crate::ways::{Left, joined_ways, no_return, only};
use crate::widening::widened;
use ctypes::IntType;
use srcset::Pos;
use typed_ast::{ForControl, Statement, Value};
use verify_expressions::{
    AbsState, Scope, Stop, Tested, copied, enter_loop, evaluate, first_guess, imply, is_reached,
    joined, leave_loop, may_unroll, recalled, remember, take_statement, test, unreachable,
};
use verify_intervals::{conversion, initialised, uninitialised};

/// The number of guesses of a loop's invariant that are tried.
const GUESSES: u32 = 24;

/// The number of iterations of a loop that are analysed one by one.
const UNROLLED_TURNS: u32 = 1024;

fn empty(scope: &Scope<'_>, state: AbsState) -> Result<Left, Stop>
    ensures { IfOk result (λ r. Executes (frame_of scope.now) typed.empty (state_of state) (ways_of r)) }
{
    Ok(only(state))
}

fn evaluated(scope: &Scope<'_>, state: AbsState, e: &Value) -> Result<Left, Stop>
    ensures { IfOk result (λ r. Executes (frame_of scope.now) (typed.evaluate (value_of e.now)) (state_of state) (ways_of r)) }
{
    let v = evaluate(scope, state, e)?;
    Ok(only(v.state))
}

fn broken(scope: &Scope<'_>, state: AbsState) -> Result<Left, Stop>
    ensures { IfOk result (λ r. Executes (frame_of scope.now) typed.break (state_of state) (ways_of r)) }
{
    Ok(Left {
        normal: AbsState { objects: None },
        broken: state,
        continued: AbsState { objects: None },
        returned: AbsState { objects: None },
        value: no_return(),
    })
}

fn continued(scope: &Scope<'_>, state: AbsState) -> Result<Left, Stop>
    ensures { IfOk result (λ r. Executes (frame_of scope.now) typed.continue (state_of state) (ways_of r)) }
{
    Ok(Left {
        normal: AbsState { objects: None },
        broken: AbsState { objects: None },
        continued: state,
        returned: AbsState { objects: None },
        value: no_return(),
    })
}

fn returned_nothing(scope: &Scope<'_>, state: AbsState) -> Result<Left, Stop>
    ensures { IfOk result (λ r. Executes (frame_of scope.now) typed.return_nothing (state_of state) (ways_of r)) }
{
    let value = uninitialised();
    Ok(Left {
        normal: AbsState { objects: None },
        broken: AbsState { objects: None },
        continued: AbsState { objects: None },
        returned: state,
        value,
    })
}

fn returned_value(scope: &Scope<'_>, state: AbsState, ty: IntType, e: &Value) -> Result<Left, Stop>
    ensures { IfOk result (λ r. Executes (frame_of scope.now) (typed.return_value ty (value_of e.now)) (state_of state) (ways_of r)) }
{
    let v = evaluate(scope, state, e)?;
    let interval = conversion(ty, v.interval);
    let value = initialised(interval);
    Ok(Left {
        normal: AbsState { objects: None },
        broken: AbsState { objects: None },
        continued: AbsState { objects: None },
        returned: v.state,
        value,
    })
}

fn evaluated_behind(scope: &Scope<'_>, state: AbsState, e: &Value) -> Result<AbsState, Stop>
    ensures { IfOk result (λ r. EvaluatesOr (frame_of scope.now) (Some (value_of e.now)) (state_of state) (state_of r)) }
{
    let v = evaluate(scope, state, e)?;
    Ok(v.state)
}

/// An expression that may be missing.
fn evaluated_or(scope: &Scope<'_>, state: AbsState, e: &Option<Value>) -> Result<AbsState, Stop>
    ensures { IfOk result (λ r. EvaluatesOr (frame_of scope.now) (option_value e.now) (state_of state) (state_of r)) }
{
    match e {
        None => Ok(state),
        Some(e) => evaluated_behind(scope, state, e),
    }
}

fn tested_behind(scope: &Scope<'_>, state: AbsState, e: &Value) -> Result<Tested, Stop>
    ensures { IfOk result (λ r. TestsOr (frame_of scope.now) (Some (value_of e.now)) (state_of state) (state_of r.on) (state_of r.off)) }
{
    let t = test(scope, state, e)?;
    Ok(t)
}

/// A test that may be missing, and then holds (6.8.5.3p2).
fn tested_or(scope: &Scope<'_>, state: AbsState, e: &Option<Value>) -> Result<Tested, Stop>
    ensures { IfOk result (λ r. TestsOr (frame_of scope.now) (option_value e.now) (state_of state) (state_of r.on) (state_of r.off)) }
{
    match e {
        None => Ok(Tested {
            on: state,
            off: AbsState { objects: None },
        }),
        Some(e) => tested_behind(scope, state, e),
    }
}

/// A statement that no run reaches.
fn never_executed(scope: &Scope<'_>, state: &AbsState, a: &Statement) -> Left
    requires { state_of state.now ≡ None }
    ensures { Executes (frame_of scope.now) (statement_of a.now) (state_of state.now) (ways_of result) }
{
    only(unreachable())
}

/// A statement.
///
/// Errors: undefined behaviour is not ruled out, a call was not analysed yet, or the analysis is not possible.
#[cycle(execute)]
pub fn statement(scope: &Scope<'_>, state: AbsState, a: &Statement) -> Result<Left, Stop>
    ensures { IfOk result (λ r. Executes (frame_of scope.now) (statement_of a.now) (state_of state) (ways_of r)) }
{
    let goes_on = take_statement(scope, &state);
    if !goes_on {
        return Err(Stop::Unfollowed(None));
    }
    let reached = is_reached(&state);
    if !reached {
        return Ok(never_executed(scope, &state, a));
    }
    by_kind(scope, state, a)
}

#[cycle(execute)]
fn by_kind(scope: &Scope<'_>, state: AbsState, a: &Statement) -> Result<Left, Stop>
    ensures { IfOk result (λ r. Executes (frame_of scope.now) (statement_of a.now) (state_of state) (ways_of r)) }
{
    match a {
        Statement::Empty(_) => empty(scope, state),
        Statement::Evaluate(_, e) => evaluated(scope, state, e),
        Statement::Declare(_, n) => declared(scope, state, *n),
        Statement::Define(_, n, i) => defined(scope, state, *n, i),
        Statement::Block(_, first, count, all) => block(scope, state, *first, *count, all),
        Statement::If(_, e, a) => branch(scope, state, e, a),
        Statement::IfElse(_, e, a, b) => branches(scope, state, e, a, b),
        Statement::Switch(_, ty, e, first, count, all) => {
            switched(scope, state, *ty, e, *first, *count, all)
        }
        Statement::Case(_, v) => cased(scope, state, *v),
        Statement::Default(_) => defaulted(scope, state),
        Statement::While(at, e, a) => while_loop(scope, state, at, e, a),
        Statement::DoWhile(at, a, e) => do_loop(scope, state, at, a, e),
        Statement::For(at, declared, control, a) => {
            for_loop(scope, state, at, declared, control, a)
        }
        Statement::Break(_) => broken(scope, state),
        Statement::Continue(_) => continued(scope, state),
        Statement::ReturnNothing(_) => returned_nothing(scope, state),
        Statement::ReturnValue(_, ty, e) => returned_value(scope, state, *ty, e),
    }
}

#[cycle(execute)]
fn block(
    scope: &Scope<'_>,
    state: AbsState,
    first: usize,
    count: usize,
    all: &[Statement],
) -> Result<Left, Stop>
    ensures { IfOk result (λ r. Executes (frame_of scope.now) (typed.block first count (statements_of (map statement_of all.now))) (state_of state) (ways_of r)) }
{
    let state2 = all_renewed(scope, state, first, count)?;
    statements(scope, state2, all)
}

/// One statement after others.
#[cycle(execute)]
fn followed(scope: &Scope<'_>, so_far: Left, a: &Statement) -> Result<Left, Stop>
    ensures { IfOk result (λ r. Follows (frame_of scope.now) (ways_of so_far) (statement_of a.now) (ways_of r)) }
{
    let next = statement(scope, so_far.normal, a)?;
    let before = Left {
        normal: AbsState { objects: None },
        broken: so_far.broken,
        continued: so_far.continued,
        returned: so_far.returned,
        value: so_far.value,
    };
    joined_ways(scope.alloc, before, next)
}

/// Statements in sequence.
#[cycle(execute)]
fn statements(scope: &Scope<'_>, state: AbsState, all: &[Statement]) -> Result<Left, Stop>
    ensures { IfOk result (λ r. ExecutesAll (frame_of scope.now) (statements_of (map statement_of all.now)) (state_of state) (ways_of r)) }
{
    let mut so_far = Left {
        normal: state,
        broken: AbsState { objects: None },
        continued: AbsState { objects: None },
        returned: AbsState { objects: None },
        value: no_return(),
    };
    let mut rest = all;
    while let Some((a, more)) = rest.split_first() {
        let next = followed(scope, so_far, a)?;
        so_far = next;
        rest = more;
    }
    Ok(so_far)
}

#[cycle(execute)]
fn branch(scope: &Scope<'_>, state: AbsState, e: &Value, a: &Statement) -> Result<Left, Stop>
    ensures { IfOk result (λ r. Executes (frame_of scope.now) (typed.branch (value_of e.now) (statement_of a.now)) (state_of state) (ways_of r)) }
{
    let tested = test(scope, state, e)?;
    let left = statement(scope, tested.on, a)?;
    let normal = joined(scope.alloc, left.normal, tested.off)?;
    Ok(Left {
        normal,
        broken: left.broken,
        continued: left.continued,
        returned: left.returned,
        value: left.value,
    })
}

#[cycle(execute)]
fn branches(
    scope: &Scope<'_>,
    state: AbsState,
    e: &Value,
    a: &Statement,
    b: &Statement,
) -> Result<Left, Stop>
    ensures { IfOk result (λ r. Executes (frame_of scope.now) (typed.branches (value_of e.now) (statement_of a.now) (statement_of b.now)) (state_of state) (ways_of r)) }
{
    let tested = test(scope, state, e)?;
    let left = statement(scope, tested.on, a)?;
    let right = statement(scope, tested.off, b)?;
    joined_ways(scope.alloc, left, right)
}

// ---- switch (6.8.4.2)

/// A label of a switch: it may be jumped to in the state before the statements of the switch.
#[cycle(execute)]
fn labelled(scope: &Scope<'_>, so_far: Left, entry: &AbsState, a: &Statement) -> Result<Left, Stop>
    ensures { IfOk result (λ r. EntersLabel (frame_of scope.now) (state_of entry.now) (ways_of so_far) (statement_of a.now) (ways_of r)) }
{
    let copy = copied(scope.alloc, entry)?;
    let normal = joined(scope.alloc, copy, so_far.normal)?;
    let before = Left {
        normal,
        broken: so_far.broken,
        continued: so_far.continued,
        returned: so_far.returned,
        value: so_far.value,
    };
    let next = followed(scope, before, a)?;
    Ok(next)
}

/// A statement of a switch, after others.
#[cycle(execute)]
fn entered(scope: &Scope<'_>, so_far: Left, entry: &AbsState, a: &Statement) -> Result<Left, Stop>
    ensures { IfOk result (λ r. EntersOne (frame_of scope.now) (state_of entry.now) (ways_of so_far) (statement_of a.now) (ways_of r)) }
{
    let label = is_label(a);
    if label {
        let reached = labelled(scope, so_far, entry, a)?;
        Ok(reached)
    } else {
        let next = followed(scope, so_far, a)?;
        Ok(next)
    }
}

/// The statements of a switch, before which this is the state.
#[cycle(execute)]
fn cases(scope: &Scope<'_>, entry: &AbsState, all: &[Statement]) -> Result<Left, Stop>
    ensures { IfOk result (λ r. EntersAll (frame_of scope.now) (state_of entry.now) (statements_of (map statement_of all.now)) (ways_of r)) }
{
    let mut so_far = Left {
        normal: AbsState { objects: None },
        broken: AbsState { objects: None },
        continued: AbsState { objects: None },
        returned: AbsState { objects: None },
        value: no_return(),
    };
    let mut rest = all;
    while let Some((a, more)) = rest.split_first() {
        let next = entered(scope, so_far, entry, a)?;
        so_far = next;
        rest = more;
    }
    Ok(so_far)
}

#[cycle(execute)]
fn switched(
    scope: &Scope<'_>,
    state: AbsState,
    ty: IntType,
    e: &Value,
    first: usize,
    count: usize,
    all: &[Statement],
) -> Result<Left, Stop>
    ensures { IfOk result (λ r. Executes (frame_of scope.now) (typed.switch ty (value_of e.now) first count (statements_of (map statement_of all.now))) (state_of state) (ways_of r)) }
{
    let v = evaluate(scope, state, e)?;
    let entry = all_renewed(scope, v.state, first, count)?;
    let left = cases(scope, &entry, all)?;
    let both = joined(scope.alloc, left.normal, left.broken)?;
    let any = any_default(all);
    let out = behind_switch(scope.alloc, both, entry, any)?;
    Ok(Left {
        normal: out,
        broken: AbsState { objects: None },
        continued: left.continued,
        returned: left.returned,
        value: left.value,
    })
}

// ---- the invariant of a loop. It is guessed, and nothing depends on the guess

/// The controlling expression of a loop.
#[derive(Clone, Copy)]
enum Control<'a> {
    Test(&'a Value),
    For(&'a ForControl),
}

/// A loop: its place, and the effect of each iteration.
#[derive(Clone, Copy)]
struct Turning<'a> {
    at: Pos,
    control: Control<'a>,
    body: &'a Statement,
}

fn tested_by(scope: &Scope<'_>, state: AbsState, control: Control<'_>) -> Result<Tested, Stop> {
    match control {
        Control::Test(e) => test(scope, state, e),
        Control::For(all) => tested_or(scope, state, &all.test),
    }
}

fn stepped_by(scope: &Scope<'_>, state: AbsState, control: Control<'_>) -> Result<AbsState, Stop> {
    match control {
        Control::Test(_) => Ok(state),
        Control::For(all) => evaluated_or(scope, state, &all.step),
    }
}

/// The body of a loop.
#[cycle(execute)]
fn body(scope: &Scope<'_>, state: AbsState, a: &Statement) -> Result<Left, Stop>
    ensures { IfOk result (λ r. Executes (frame_of scope.now) (statement_of a.now) (state_of state) (ways_of r)) }
{
    enter_loop(scope.memory);
    let left = statement(scope, state, a)?;
    leave_loop(scope.memory);
    Ok(left)
}

/// The state that one iteration from this state leaves for the next.
#[cycle(execute)]
fn turned(scope: &Scope<'_>, state: AbsState, turning: &Turning<'_>) -> Result<AbsState, Stop> {
    let tested = tested_by(scope, state, turning.control)?;
    let left = body(scope, tested.on, turning.body)?;
    let behind = joined(scope.alloc, left.normal, left.continued)?;
    stepped_by(scope, behind, turning.control)
}

/// The state before the loop and the state after an iteration, joined, if the guess holds at each iteration; else a wider guess.
#[cycle(execute)]
fn narrowed(
    scope: &Scope<'_>,
    first: AbsState,
    wide: AbsState,
    again: AbsState,
    turning: &Turning<'_>,
) -> Result<AbsState, Stop> {
    let narrow = joined(scope.alloc, first, again)?;
    if imply(&wide, &narrow) {
        return Ok(wide);
    }
    let start = copied(scope.alloc, &narrow)?;
    let next = turned(scope, start, turning)?;
    if imply(&next, &narrow) {
        Ok(narrow)
    } else {
        Ok(wide)
    }
}

/// A candidate for the invariant.
#[cycle(execute)]
fn guessed(scope: &Scope<'_>, state: AbsState, turning: &Turning<'_>) -> Result<AbsState, Stop> {
    let first = copied(scope.alloc, &state)?;
    let mut kept = first_guess(scope, turning.at, state)?;
    for turn in 0..GUESSES {
        let before = copied(scope.alloc, &kept)?;
        let again = turned(scope, kept, turning)?;
        if imply(&again, &before) {
            return narrowed(scope, first, before, again, turning);
        }
        let wider = widened(scope, before, again, turn)?;
        kept = wider;
    }
    Err(Stop::Unfollowed(Some(turning.at)))
}

// ---- loops that begin with their test (6.8.5.1)

/// A loop with this invariant; none if it is not inductive.
#[cycle(execute)]
fn checked(
    scope: &Scope<'_>,
    state: AbsState,
    kept: AbsState,
    e: &Value,
    a: &Statement,
) -> Result<Option<Left>, Stop>
    ensures { IfOk result (λ o. IfSome o (λ r. Loops (frame_of scope.now) (Some (value_of e.now)) None (statement_of a.now) (state_of state) (ways_of r))) }
{
    let starts = imply(&state, &kept);
    if !starts {
        return Ok(None);
    }
    let again = copied(scope.alloc, &kept)?;
    let tested = test(scope, again, e)?;
    let left = body(scope, tested.on, a)?;
    let ends = imply(&left.normal, &kept);
    if !ends {
        return Ok(None);
    }
    let continues = imply(&left.continued, &kept);
    if !continues {
        return Ok(None);
    }
    let out = joined(scope.alloc, left.broken, tested.off)?;
    Ok(Some(Left {
        normal: out,
        broken: AbsState { objects: None },
        continued: AbsState { objects: None },
        returned: left.returned,
        value: left.value,
    }))
}

/// A loop that was analysed before from this state.
#[cycle(execute)]
fn looped_again(
    scope: &Scope<'_>,
    state: AbsState,
    at: &Pos,
    e: &Value,
    a: &Statement,
) -> Result<Option<Left>, Stop>
    ensures { IfOk result (λ o. IfSome o (λ r. Loops (frame_of scope.now) (Some (value_of e.now)) None (statement_of a.now) (state_of state) (ways_of r))) }
{
    let known = recalled(scope, *at, &state)?;
    match known {
        None => Ok(None),
        Some(kept) => checked(scope, state, kept, e, a),
    }
}

/// A loop that was not analysed before, or with a wider state.
#[cycle(execute)]
fn looped_anew<'a>(
    scope: &Scope<'_>,
    state: AbsState,
    at: &Pos,
    e: &'a Value,
    a: &'a Statement,
) -> Result<Left, Stop>
    ensures { IfOk result (λ r. Loops (frame_of scope.now) (Some (value_of e.now)) None (statement_of a.now) (state_of state) (ways_of r)) }
{
    let first = copied(scope.alloc, &state)?;
    let turning = Turning {
        at: *at,
        control: Control::Test(e),
        body: a,
    };
    let kept = guessed(scope, first, &turning)?;
    remember(scope, *at, &state, &kept)?;
    let done = checked(scope, state, kept, e, a)?;
    match done {
        None => Err(Stop::Unfollowed(Some(*at))),
        Some(left) => Ok(left),
    }
}

#[cycle(execute)]
fn looped(
    scope: &Scope<'_>,
    state: AbsState,
    at: &Pos,
    e: &Value,
    a: &Statement,
) -> Result<Left, Stop>
    ensures { IfOk result (λ r. Loops (frame_of scope.now) (Some (value_of e.now)) None (statement_of a.now) (state_of state) (ways_of r)) }
{
    let first = copied(scope.alloc, &state)?;
    let quick = looped_again(scope, first, at, e, a)?;
    match quick {
        None => looped_anew(scope, state, at, e, a),
        Some(left) => Ok(left),
    }
}

/// An iteration that was analysed: how the loop was left so far, with the state of the next iteration as normal; and whether there was one.
#[derive(Drop)]
struct TurnEnd {
    left: Left,
    turned: bool,
}

/// Tests whether the loop may go on, and may end.
fn is_open(tested: &Tested) -> bool {
    is_reached(&tested.on) && is_reached(&tested.off)
}

/// How a loop was left so far of which no iteration was analysed.
fn not_left(state: AbsState) -> Left
    ensures { (ways_of result).normal ≡ state_of state }
{
    Left {
        normal: state,
        broken: AbsState { objects: None },
        continued: AbsState { objects: None },
        returned: AbsState { objects: None },
        value: no_return(),
    }
}

/// The next iteration of a loop, if its test has one outcome.
#[cycle(execute)]
fn unrolled_turn(scope: &Scope<'_>, so_far: Left, e: &Value, a: &Statement) -> Result<TurnEnd, Stop>
    ensures { IfOk result (λ r. Turns (frame_of scope.now) (Some (value_of e.now)) None (statement_of a.now) (ways_of so_far) (ways_of r.left)) }
{
    let copy = copied(scope.alloc, &so_far.normal)?;
    let tested = test(scope, copy, e)?;
    let open = is_open(&tested);
    if open {
        return Ok(TurnEnd {
            left: so_far,
            turned: false,
        });
    }
    let left = body(scope, tested.on, a)?;
    let behind = joined(scope.alloc, left.normal, left.continued)?;
    let out = joined(scope.alloc, left.broken, tested.off)?;
    let before = Left {
        normal: behind,
        broken: so_far.broken,
        continued: so_far.continued,
        returned: so_far.returned,
        value: so_far.value,
    };
    let turn = Left {
        normal: AbsState { objects: None },
        broken: out,
        continued: AbsState { objects: None },
        returned: left.returned,
        value: left.value,
    };
    let all = joined_ways(scope.alloc, before, turn)?;
    Ok(TurnEnd {
        left: all,
        turned: true,
    })
}

/// The first iterations of a loop, as long as its test has one outcome.
#[cycle(execute)]
fn unrolled(scope: &Scope<'_>, state: AbsState, e: &Value, a: &Statement) -> Result<Left, Stop>
    ensures { IfOk result (λ r. Leads (frame_of scope.now) (Some (value_of e.now)) None (statement_of a.now) (state_of state) (ways_of r)) }
{
    let mut so_far = not_left(state);
    for _turn in 0..UNROLLED_TURNS {
        let goes_on = is_reached(&so_far.normal) && may_unroll(scope);
        if !goes_on {
            return Ok(so_far);
        }
        let next = unrolled_turn(scope, so_far, e, a)?;
        let turned = next.turned;
        so_far = next.left;
        if !turned {
            return Ok(so_far);
        }
    }
    Ok(so_far)
}

/// A loop, its first iterations one by one.
#[cycle(execute)]
fn looped_on(
    scope: &Scope<'_>,
    state: AbsState,
    at: &Pos,
    e: &Value,
    a: &Statement,
) -> Result<Left, Stop>
    ensures { IfOk result (λ r. Loops (frame_of scope.now) (Some (value_of e.now)) None (statement_of a.now) (state_of state) (ways_of r)) }
{
    let so_far = unrolled(scope, state, e, a)?;
    let rest = looped(scope, so_far.normal, at, e, a)?;
    let before = Left {
        normal: so_far.broken,
        broken: AbsState { objects: None },
        continued: AbsState { objects: None },
        returned: so_far.returned,
        value: so_far.value,
    };
    let left = joined_ways(scope.alloc, before, rest)?;
    Ok(left)
}

#[cycle(execute)]
fn while_loop(
    scope: &Scope<'_>,
    state: AbsState,
    at: &Pos,
    e: &Value,
    a: &Statement,
) -> Result<Left, Stop>
    ensures { IfOk result (λ r. Executes (frame_of scope.now) (typed.while (value_of e.now) (statement_of a.now)) (state_of state) (ways_of r)) }
{
    let left = looped_on(scope, state, at, e, a)?;
    Ok(left)
}

#[cycle(execute)]
fn do_loop(
    scope: &Scope<'_>,
    state: AbsState,
    at: &Pos,
    a: &Statement,
    e: &Value,
) -> Result<Left, Stop>
    ensures { IfOk result (λ r. Executes (frame_of scope.now) (typed.do_while (statement_of a.now) (value_of e.now)) (state_of state) (ways_of r)) }
{
    let first = statement(scope, state, a)?;
    let kept = joined(scope.alloc, first.normal, first.continued)?;
    let again = looped_on(scope, kept, at, e, a)?;
    let before = Left {
        normal: first.broken,
        broken: AbsState { objects: None },
        continued: AbsState { objects: None },
        returned: first.returned,
        value: first.value,
    };
    let left = joined_ways(scope.alloc, before, again)?;
    Ok(left)
}

// ---- for (6.8.5.3)

/// As `checked`, for a `for`.
#[cycle(execute)]
fn checked_for(
    scope: &Scope<'_>,
    state: AbsState,
    kept: AbsState,
    control: &ForControl,
    a: &Statement,
) -> Result<Option<Left>, Stop>
    ensures { IfOk result (λ o. IfSome o (λ r. Loops (frame_of scope.now) (option_value control.now.test) (option_value control.now.step) (statement_of a.now) (state_of state) (ways_of r))) }
{
    let starts = imply(&state, &kept);
    if !starts {
        return Ok(None);
    }
    let again = copied(scope.alloc, &kept)?;
    let tested = tested_or(scope, again, &control.test)?;
    let left = body(scope, tested.on, a)?;
    let behind = joined(scope.alloc, left.normal, left.continued)?;
    let next = evaluated_or(scope, behind, &control.step)?;
    let holds = imply(&next, &kept);
    if !holds {
        return Ok(None);
    }
    let out = joined(scope.alloc, left.broken, tested.off)?;
    Ok(Some(Left {
        normal: out,
        broken: AbsState { objects: None },
        continued: AbsState { objects: None },
        returned: left.returned,
        value: left.value,
    }))
}

/// As `looped_again`, for a `for`.
#[cycle(execute)]
fn looped_for_again(
    scope: &Scope<'_>,
    state: AbsState,
    at: &Pos,
    control: &ForControl,
    a: &Statement,
) -> Result<Option<Left>, Stop>
    ensures { IfOk result (λ o. IfSome o (λ r. Loops (frame_of scope.now) (option_value control.now.test) (option_value control.now.step) (statement_of a.now) (state_of state) (ways_of r))) }
{
    let known = recalled(scope, *at, &state)?;
    match known {
        None => Ok(None),
        Some(kept) => checked_for(scope, state, kept, control, a),
    }
}

/// As `looped_anew`, for a `for`.
#[cycle(execute)]
fn looped_for_anew<'a>(
    scope: &Scope<'_>,
    state: AbsState,
    at: &Pos,
    control: &'a ForControl,
    a: &'a Statement,
) -> Result<Left, Stop>
    ensures { IfOk result (λ r. Loops (frame_of scope.now) (option_value control.now.test) (option_value control.now.step) (statement_of a.now) (state_of state) (ways_of r)) }
{
    let first = copied(scope.alloc, &state)?;
    let turning = Turning {
        at: *at,
        control: Control::For(control),
        body: a,
    };
    let kept = guessed(scope, first, &turning)?;
    remember(scope, *at, &state, &kept)?;
    let done = checked_for(scope, state, kept, control, a)?;
    match done {
        None => Err(Stop::Unfollowed(Some(*at))),
        Some(left) => Ok(left),
    }
}

/// The iterations of a `for`.
#[cycle(execute)]
fn looped_for(
    scope: &Scope<'_>,
    state: AbsState,
    at: &Pos,
    control: &ForControl,
    a: &Statement,
) -> Result<Left, Stop>
    ensures { IfOk result (λ r. Loops (frame_of scope.now) (option_value control.now.test) (option_value control.now.step) (statement_of a.now) (state_of state) (ways_of r)) }
{
    let first = copied(scope.alloc, &state)?;
    let quick = looped_for_again(scope, first, at, control, a)?;
    match quick {
        None => looped_for_anew(scope, state, at, control, a),
        Some(left) => Ok(left),
    }
}

/// As `unrolled_turn`, for a `for`.
#[cycle(execute)]
fn unrolled_for_turn(
    scope: &Scope<'_>,
    so_far: Left,
    control: &ForControl,
    a: &Statement,
) -> Result<TurnEnd, Stop>
    ensures { IfOk result (λ r. Turns (frame_of scope.now) (option_value control.now.test) (option_value control.now.step) (statement_of a.now) (ways_of so_far) (ways_of r.left)) }
{
    let copy = copied(scope.alloc, &so_far.normal)?;
    let tested = tested_or(scope, copy, &control.test)?;
    let open = is_open(&tested);
    if open {
        return Ok(TurnEnd {
            left: so_far,
            turned: false,
        });
    }
    let left = body(scope, tested.on, a)?;
    let behind = joined(scope.alloc, left.normal, left.continued)?;
    let next = evaluated_or(scope, behind, &control.step)?;
    let out = joined(scope.alloc, left.broken, tested.off)?;
    let before = Left {
        normal: next,
        broken: so_far.broken,
        continued: so_far.continued,
        returned: so_far.returned,
        value: so_far.value,
    };
    let turn = Left {
        normal: AbsState { objects: None },
        broken: out,
        continued: AbsState { objects: None },
        returned: left.returned,
        value: left.value,
    };
    let all = joined_ways(scope.alloc, before, turn)?;
    Ok(TurnEnd {
        left: all,
        turned: true,
    })
}

/// As `unrolled`, for a `for`.
#[cycle(execute)]
fn unrolled_for(
    scope: &Scope<'_>,
    state: AbsState,
    control: &ForControl,
    a: &Statement,
) -> Result<Left, Stop>
    ensures { IfOk result (λ r. Leads (frame_of scope.now) (option_value control.now.test) (option_value control.now.step) (statement_of a.now) (state_of state) (ways_of r)) }
{
    let mut so_far = not_left(state);
    for _turn in 0..UNROLLED_TURNS {
        let goes_on = is_reached(&so_far.normal) && may_unroll(scope);
        if !goes_on {
            return Ok(so_far);
        }
        let next = unrolled_for_turn(scope, so_far, control, a)?;
        let turned = next.turned;
        so_far = next.left;
        if !turned {
            return Ok(so_far);
        }
    }
    Ok(so_far)
}

/// As `looped_on`, for a `for`.
#[cycle(execute)]
fn looped_for_on(
    scope: &Scope<'_>,
    state: AbsState,
    at: &Pos,
    control: &ForControl,
    a: &Statement,
) -> Result<Left, Stop>
    ensures { IfOk result (λ r. Loops (frame_of scope.now) (option_value control.now.test) (option_value control.now.step) (statement_of a.now) (state_of state) (ways_of r)) }
{
    let so_far = unrolled_for(scope, state, control, a)?;
    let rest = looped_for(scope, so_far.normal, at, control, a)?;
    let before = Left {
        normal: so_far.broken,
        broken: AbsState { objects: None },
        continued: AbsState { objects: None },
        returned: so_far.returned,
        value: so_far.value,
    };
    let left = joined_ways(scope.alloc, before, rest)?;
    Ok(left)
}

#[cycle(execute)]
fn for_loop(
    scope: &Scope<'_>,
    state: AbsState,
    at: &Pos,
    declared: &[Statement],
    control: &ForControl,
    a: &Statement,
) -> Result<Left, Stop>
    ensures { IfOk result (λ r. Executes (frame_of scope.now) (typed.for (statements_of (map statement_of declared.now)) (option_value control.now.start) (option_value control.now.test) (option_value control.now.step) (statement_of a.now)) (state_of state) (ways_of r)) }
{
    let before = statements(scope, state, declared)?;
    let breaks = imply(&before.broken, &before.normal);
    if !breaks {
        return Err(Stop::Unfollowed(None));
    }
    let continues = imply(&before.continued, &before.normal);
    if !continues {
        return Err(Stop::Unfollowed(None));
    }
    let returns = imply(&before.returned, &before.normal);
    if !returns {
        return Err(Stop::Unfollowed(None));
    }
    let started = evaluated_or(scope, before.normal, &control.start)?;
    let left = looped_for_on(scope, started, at, control, a)?;
    Ok(left)
}
