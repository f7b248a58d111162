//! Expressions (6.5), a function for each kind. The result of each holds of every run that begins in the state before it.

ghost use Rattle.std.specs.Prelude.{◌≡◌, ◌≤◌, [], drop, length, map, IfOk, IsTrue, None};
ghost use Rattle.typing_spec.specs.Program as typed;
ghost use Rattle.typed_ast.specs.View.{argument_of, arguments_of, array_given, callee_of, number_given, moment_of, place_of, program_of, storage_of, value_of};
ghost use Rattle.verify_logic.specs.States.{shape_of};
ghost use Rattle.verify_logic.specs.Judgements.{Evaluates, Tests};
ghost use Rattle.verify_logic.specs.Places.{Finds};
ghost use Rattle.verify_expressions.specs.Views.{frame_of, state_of};
ghost use Rattle.verify_expressions.specs.Parts.{PassesAll, PassesOne, VariableAt};

use crate::arguments::{Passed, one_array, one_number};
use crate::calls::function_called;
use crate::comparisons::compared;
use crate::conditions::{Tested, split};
use crate::objects::{content_at, element_at, joined, written};
use crate::operators::{operation_at, read_at, sign_at, step_at, subscript_at};
use crate::parts::{choice_conversion, got_byte, position, value_stepped};
use crate::places::{
    designated, followed_subscript, is_element, is_object, length_at, literal_count,
};
use crate::scope::Scope;
use crate::state::{AbsState, is_reached, unreachable};
use crate::stop::Stop;
use ctypes::{BinOp, IntType};
use srcset::Pos;
use tree::{PrefixOp, StepOp};
use typed_ast::{Argument, Callee, Moment, Place, Storage, Value};
use verify_intervals::{add_usize, conversion, hull, nothing, single, truths};
use verify_logic::{ArrayArgument, Interval};

/// The interval of a value, and the state after it.
#[derive(Drop)]
pub struct Evaluated {
    pub interval: Interval,
    pub state: AbsState,
}

/// A place in object `object`, after this number of subscripts, and the state when it is found.
#[derive(Drop)]
pub struct Placed {
    pub object: usize,
    pub depth: usize,
    /// The interval of the last subscript, if elements of the object are tracked.
    pub subscript: Option<Interval>,
    pub state: AbsState,
}

fn named(scope: &Scope<'_>, state: AbsState, at: &Pos, what: Storage) -> Result<Placed, Stop>
    ensures { IfOk result (λ r. Finds (frame_of scope.now) (typed.named at.now (storage_of what)) (state_of state) r.object (drop r.depth (shape_of (frame_of scope.now) r.object)) r.subscript (state_of r.state)) }
{
    let Some(found) = designated(scope, what) else {
        return Err(Stop::Unfollowed(Some(*at)));
    };
    Ok(Placed {
        object: found.object,
        depth: found.depth,
        subscript: None,
        state,
    })
}

#[cycle(analyse)]
fn element(
    scope: &Scope<'_>,
    state: AbsState,
    at: &Pos,
    array: &Place,
    index: &Value,
) -> Result<Placed, Stop>
    ensures { IfOk result (λ r. Finds (frame_of scope.now) (typed.element at.now (place_of array.now) (value_of index.now)) (state_of state) r.object (drop r.depth (shape_of (frame_of scope.now) r.object)) r.subscript (state_of r.state)) }
{
    let found = place(scope, state, array)?;
    let i = evaluate(scope, found.state, index)?;
    let Some(n) = length_at(scope, found.object, found.depth) else {
        return Err(Stop::Unfollowed(Some(*at)));
    };
    let Some(_known) = content_at(&i.state, found.object) else {
        return Err(Stop::Unfollowed(Some(*at)));
    };
    subscript_at(scope, *at, i.interval, n)?;
    let Some(depth) = add_usize(found.depth, 1) else {
        return Err(Stop::Unfollowed(Some(*at)));
    };
    let subscript = followed_subscript(scope, found.object, i.interval);
    Ok(Placed {
        object: found.object,
        depth,
        subscript,
        state: i.state,
    })
}

/// A place (6.3.2.1).
#[cycle(analyse)]
fn place(scope: &Scope<'_>, state: AbsState, a: &Place) -> Result<Placed, Stop>
    ensures { IfOk result (λ r. Finds (frame_of scope.now) (place_of a.now) (state_of state) r.object (drop r.depth (shape_of (frame_of scope.now) r.object)) r.subscript (state_of r.state)) }
{
    match a {
        Place::Named(at, what) => named(scope, state, at, *what),
        Place::Element(at, array, index) => element(scope, state, at, array, index),
    }
}

fn is_variable(scope: &Scope<'_>, x: usize, depth: usize) -> bool
    ensures { IsTrue result → VariableAt (frame_of scope.now) x depth }
{
    let literal = x < literal_count(scope);
    let within = is_element(scope, x, depth);
    within && !literal
}

/// An element that may be assigned to.
#[cycle(analyse)]
fn variable(scope: &Scope<'_>, state: AbsState, a: &Place) -> Result<Placed, Stop>
    ensures found { IfOk result (λ r. Finds (frame_of scope.now) (place_of a.now) (state_of state) r.object [] r.subscript (state_of r.state)) }
    ensures above { IfOk result (λ r. length (program_of scope.now.program.now).literals ≤ r.object) }
{
    let found = place(scope, state, a)?;
    let variable = is_variable(scope, found.object, found.depth);
    if !variable {
        return Err(Stop::Unfollowed(Some(position(a))));
    }
    Ok(found)
}

/// An expression that no run reaches.
fn never_evaluated(scope: &Scope<'_>, state: &AbsState, e: &Value) -> Evaluated
    requires { state_of state.now ≡ None }
    ensures { Evaluates (frame_of scope.now) (value_of e.now) (state_of state.now) result.interval (state_of result.state) }
{
    Evaluated {
        interval: nothing(),
        state: unreachable(),
    }
}

/// An expression.
#[cycle(analyse)]
pub fn evaluate(scope: &Scope<'_>, state: AbsState, e: &Value) -> Result<Evaluated, Stop>
    ensures { IfOk result (λ r. Evaluates (frame_of scope.now) (value_of e.now) (state_of state) r.interval (state_of r.state)) }
{
    let reached = is_reached(&state);
    if !reached {
        return Ok(never_evaluated(scope, &state, e));
    }
    by_form(scope, state, e)
}

#[cycle(analyse)]
fn by_form(scope: &Scope<'_>, state: AbsState, e: &Value) -> Result<Evaluated, Stop>
    ensures { IfOk result (λ r. Evaluates (frame_of scope.now) (value_of e.now) (state_of state) r.interval (state_of r.state)) }
{
    match e {
        Value::Constant(ty, v) => constant(scope, state, *ty, *v),
        Value::Read(ty, a) => read(scope, state, *ty, a),
        Value::Assigned(at, ty, a, e) => assigned(scope, state, at, *ty, a, e),
        Value::Compound(at, op, ty, of, a, e) => compound(scope, state, at, *op, *ty, *of, a, e),
        Value::Stepped(at, moment, op, ty, of, a) => {
            stepped(scope, state, at, *moment, *op, *ty, *of, a)
        }
        Value::Unary(at, op, ty, e) => unary(scope, state, at, *op, *ty, e),
        Value::Binary(at, op, ty, a, b) => binary(scope, state, at, *op, *ty, a, b),
        Value::BothTrue(a, b) => both_true(scope, state, a, b),
        Value::OneTrue(a, b) => one_true(scope, state, a, b),
        Value::Chosen(ty, c, a, b) => chosen(scope, state, *ty, c, a, b),
        Value::Sequence(a, b) => sequence(scope, state, a, b),
        Value::Cast(ty, e) => cast(scope, state, *ty, e),
        Value::Discarded(e) => discarded(scope, state, e),
        Value::Call(at, callee, result, used, arguments) => {
            called(scope, state, at, *callee, *result, *used, arguments)
        }
    }
}

fn constant(scope: &Scope<'_>, state: AbsState, ty: IntType, v: i64) -> Result<Evaluated, Stop>
    ensures { IfOk result (λ r. Evaluates (frame_of scope.now) (typed.constant ty v) (state_of state) r.interval (state_of r.state)) }
{
    let interval = single(v);
    Ok(Evaluated { interval, state })
}

#[cycle(analyse)]
fn read(scope: &Scope<'_>, state: AbsState, ty: IntType, a: &Place) -> Result<Evaluated, Stop>
    ensures { IfOk result (λ r. Evaluates (frame_of scope.now) (typed.read ty (place_of a.now)) (state_of state) r.interval (state_of r.state)) }
{
    let found = place(scope, state, a)?;
    let within = is_element(scope, found.object, found.depth);
    if !within {
        return Err(Stop::Unfollowed(Some(position(a))));
    }
    let Some(k) = element_at(&found.state, found.object, found.subscript) else {
        return Err(Stop::Unfollowed(Some(position(a))));
    };
    let at = position(a);
    let interval = read_at(scope, at, k)?;
    Ok(Evaluated {
        interval,
        state: found.state,
    })
}

#[cycle(analyse)]
fn assigned(
    scope: &Scope<'_>,
    state: AbsState,
    at: &Pos,
    ty: IntType,
    a: &Place,
    e: &Value,
) -> Result<Evaluated, Stop>
    ensures { IfOk result (λ r. Evaluates (frame_of scope.now) (typed.assigned at.now ty (place_of a.now) (value_of e.now)) (state_of state) r.interval (state_of r.state)) }
{
    let to = variable(scope, state, a)?;
    let right = evaluate(scope, to.state, e)?;
    let interval = conversion(ty, right.interval);
    let state2 = written(scope, right.state, to.object, to.subscript, interval)?;
    Ok(Evaluated {
        interval,
        state: state2,
    })
}

#[cycle(analyse)]
fn compound(
    scope: &Scope<'_>,
    state: AbsState,
    at: &Pos,
    op: BinOp,
    ty: IntType,
    of: IntType,
    a: &Place,
    e: &Value,
) -> Result<Evaluated, Stop>
    ensures { IfOk result (λ r. Evaluates (frame_of scope.now) (typed.compound at.now op ty of (place_of a.now) (value_of e.now)) (state_of state) r.interval (state_of r.state)) }
{
    let to = variable(scope, state, a)?;
    let right = evaluate(scope, to.state, e)?;
    let Some(k) = element_at(&right.state, to.object, to.subscript) else {
        return Err(Stop::Unfollowed(Some(*at)));
    };
    let place_at = position(a);
    let old = read_at(scope, place_at, k)?;
    let new = operation_at(scope, *at, op, of, old, right.interval)?;
    let interval = conversion(ty, new);
    let state2 = written(scope, right.state, to.object, to.subscript, interval)?;
    Ok(Evaluated {
        interval,
        state: state2,
    })
}

#[cycle(analyse)]
fn stepped(
    scope: &Scope<'_>,
    state: AbsState,
    at: &Pos,
    moment: Moment,
    op: StepOp,
    ty: IntType,
    of: IntType,
    a: &Place,
) -> Result<Evaluated, Stop>
    ensures { IfOk result (λ r. Evaluates (frame_of scope.now) (typed.stepped at.now (moment_of moment) op ty of (place_of a.now)) (state_of state) r.interval (state_of r.state)) }
{
    let to = variable(scope, state, a)?;
    let Some(k) = element_at(&to.state, to.object, to.subscript) else {
        return Err(Stop::Unfollowed(Some(*at)));
    };
    let place_at = position(a);
    let old = read_at(scope, place_at, k)?;
    let new = step_at(scope, *at, op, of, old)?;
    let kept = conversion(ty, new);
    let state2 = written(scope, to.state, to.object, to.subscript, kept)?;
    let interval = value_stepped(moment, old, kept);
    Ok(Evaluated {
        interval,
        state: state2,
    })
}

#[cycle(analyse)]
fn unary(
    scope: &Scope<'_>,
    state: AbsState,
    at: &Pos,
    op: PrefixOp,
    ty: IntType,
    e: &Value,
) -> Result<Evaluated, Stop>
    ensures { IfOk result (λ r. Evaluates (frame_of scope.now) (typed.unary at.now op ty (value_of e.now)) (state_of state) r.interval (state_of r.state)) }
{
    let a = evaluate(scope, state, e)?;
    let interval = sign_at(scope, *at, op, ty, a.interval)?;
    Ok(Evaluated {
        interval,
        state: a.state,
    })
}

#[cycle(analyse)]
fn binary(
    scope: &Scope<'_>,
    state: AbsState,
    at: &Pos,
    op: BinOp,
    ty: IntType,
    a: &Value,
    b: &Value,
) -> Result<Evaluated, Stop>
    ensures { IfOk result (λ r. Evaluates (frame_of scope.now) (typed.binary at.now op ty (value_of a.now) (value_of b.now)) (state_of state) r.interval (state_of r.state)) }
{
    let left = evaluate(scope, state, a)?;
    let right = evaluate(scope, left.state, b)?;
    let interval = operation_at(scope, *at, op, ty, left.interval, right.interval)?;
    Ok(Evaluated {
        interval,
        state: right.state,
    })
}

#[cycle(analyse)]
fn both_true(scope: &Scope<'_>, state: AbsState, a: &Value, b: &Value) -> Result<Evaluated, Stop>
    ensures { IfOk result (λ r. Evaluates (frame_of scope.now) (typed.both_true (value_of a.now) (value_of b.now)) (state_of state) r.interval (state_of r.state)) }
{
    let left = test(scope, state, a)?;
    let right = evaluate(scope, left.on, b)?;
    let state2 = joined(scope.alloc, right.state, left.off)?;
    let interval = truths();
    Ok(Evaluated {
        interval,
        state: state2,
    })
}

#[cycle(analyse)]
fn one_true(scope: &Scope<'_>, state: AbsState, a: &Value, b: &Value) -> Result<Evaluated, Stop>
    ensures { IfOk result (λ r. Evaluates (frame_of scope.now) (typed.one_true (value_of a.now) (value_of b.now)) (state_of state) r.interval (state_of r.state)) }
{
    let left = test(scope, state, a)?;
    let right = evaluate(scope, left.off, b)?;
    let state2 = joined(scope.alloc, right.state, left.on)?;
    let interval = truths();
    Ok(Evaluated {
        interval,
        state: state2,
    })
}

#[cycle(analyse)]
fn chosen(
    scope: &Scope<'_>,
    state: AbsState,
    ty: Option<IntType>,
    c: &Value,
    a: &Value,
    b: &Value,
) -> Result<Evaluated, Stop>
    ensures { IfOk result (λ r. Evaluates (frame_of scope.now) (typed.chosen ty (value_of c.now) (value_of a.now) (value_of b.now)) (state_of state) r.interval (state_of r.state)) }
{
    let tested = test(scope, state, c)?;
    let left = evaluate(scope, tested.on, a)?;
    let right = evaluate(scope, tested.off, b)?;
    let either = hull(left.interval, right.interval);
    let interval = choice_conversion(ty, either);
    let state2 = joined(scope.alloc, left.state, right.state)?;
    Ok(Evaluated {
        interval,
        state: state2,
    })
}

#[cycle(analyse)]
fn sequence(scope: &Scope<'_>, state: AbsState, a: &Value, b: &Value) -> Result<Evaluated, Stop>
    ensures { IfOk result (λ r. Evaluates (frame_of scope.now) (typed.sequence (value_of a.now) (value_of b.now)) (state_of state) r.interval (state_of r.state)) }
{
    let left = evaluate(scope, state, a)?;
    let right = evaluate(scope, left.state, b)?;
    Ok(right)
}

#[cycle(analyse)]
fn cast(scope: &Scope<'_>, state: AbsState, ty: IntType, e: &Value) -> Result<Evaluated, Stop>
    ensures { IfOk result (λ r. Evaluates (frame_of scope.now) (typed.cast ty (value_of e.now)) (state_of state) r.interval (state_of r.state)) }
{
    let a = evaluate(scope, state, e)?;
    let interval = conversion(ty, a.interval);
    Ok(Evaluated {
        interval,
        state: a.state,
    })
}

#[cycle(analyse)]
fn discarded(scope: &Scope<'_>, state: AbsState, e: &Value) -> Result<Evaluated, Stop>
    ensures { IfOk result (λ r. Evaluates (frame_of scope.now) (typed.discarded (value_of e.now)) (state_of state) r.interval (state_of r.state)) }
{
    let a = evaluate(scope, state, e)?;
    let interval = single(0);
    Ok(Evaluated {
        interval,
        state: a.state,
    })
}

#[cycle(analyse)]
fn number(scope: &Scope<'_>, state: AbsState, ty: IntType, e: &Value) -> Result<Passed, Stop>
    ensures { IfOk result (λ r. PassesOne (frame_of scope.now) (number_given ty (value_of e.now)) (state_of state) r.intervals.items r.arrays.items (state_of r.state)) }
{
    let v = evaluate(scope, state, e)?;
    let interval = conversion(ty, v.interval);
    let given = one_number(scope.alloc, interval, v.state)?;
    Ok(given)
}

/// An object, or a row of one, to which a parameter refers (6.9.1p10).
#[cycle(analyse)]
fn array_passed(scope: &Scope<'_>, state: AbsState, a: &Place) -> Result<Passed, Stop>
    ensures { IfOk result (λ r. PassesOne (frame_of scope.now) (array_given (place_of a.now)) (state_of state) r.intervals.items r.arrays.items (state_of r.state)) }
{
    let found = place(scope, state, a)?;
    let there = is_object(scope, found.object);
    if !there {
        return Err(Stop::Unfollowed(Some(position(a))));
    }
    let to = ArrayArgument {
        object: found.object,
        depth: found.depth,
    };
    let given = one_array(scope.alloc, to, found.state)?;
    Ok(given)
}

#[cycle(analyse)]
fn argument(scope: &Scope<'_>, state: AbsState, a: &Argument) -> Result<Passed, Stop>
    ensures { IfOk result (λ r. PassesOne (frame_of scope.now) (argument_of a.now) (state_of state) r.intervals.items r.arrays.items (state_of r.state)) }
{
    match a {
        Argument::Number(ty, e) => number(scope, state, *ty, e),
        Argument::Array(a) => array_passed(scope, state, a),
    }
}

/// The arguments of a call, in their order.
#[cycle(analyse)]
fn passed(scope: &Scope<'_>, state: AbsState, arguments: &[Argument]) -> Result<Passed, Stop>
    ensures { IfOk result (λ r. PassesAll (frame_of scope.now) arguments.now (state_of state) r.intervals.items r.arrays.items (state_of r.state)) }
{
    let mut intervals = Vec::new(scope.alloc);
    let mut arrays = Vec::new(scope.alloc);
    let mut current = state;
    let mut rest = arguments;
    while let Some((a, more)) = rest.split_first() {
        let v = argument(scope, current, a)?;
        let Ok(()) = intervals.extend_from_slice(&v.intervals) else {
            return Err(Stop::Memory);
        };
        let Ok(()) = arrays.extend_from_slice(&v.arrays) else {
            return Err(Stop::Memory);
        };
        current = v.state;
        rest = more;
    }
    Ok(Passed {
        intervals,
        arrays,
        state: current,
    })
}

/// A call (6.5.2.2).
#[cycle(analyse)]
fn called(
    scope: &Scope<'_>,
    state: AbsState,
    at: &Pos,
    callee: Callee,
    ty: Option<IntType>,
    used: bool,
    arguments: &[Argument],
) -> Result<Evaluated, Stop>
    ensures { IfOk result (λ r. Evaluates (frame_of scope.now) (typed.call at.now (callee_of callee) ty used (arguments_of (map argument_of arguments.now)))
        (state_of state) r.interval (state_of r.state)) }
{
    let given = passed(scope, state, arguments)?;
    match callee {
        Callee::Function(f) => {
            function_called(
                scope,
                given.state,
                *at,
                f,
                used,
                &given.intervals,
                &given.arrays,
            )
        }
        Callee::GetByte => {
            let byte = got_byte();
            Ok(Evaluated {
                interval: byte,
                state: given.state,
            })
        }
        Callee::PutByte => {
            let zero = single(0);
            Ok(Evaluated {
                interval: zero,
                state: given.state,
            })
        }
        Callee::Exit => {
            let any = single(0);
            Ok(Evaluated {
                interval: any,
                state: unreachable(),
            })
        }
        Callee::Missing(_) => Err(Stop::Unfollowed(Some(*at))),
    }
}

#[cycle(analyse)]
fn by_value(scope: &Scope<'_>, state: AbsState, e: &Value) -> Result<Tested, Stop>
    ensures { IfOk result (λ r. Tests (frame_of scope.now) (value_of e.now) (state_of state) (state_of r.on) (state_of r.off)) }
{
    let v = evaluate(scope, state, e)?;
    split(scope.alloc, v)
}

#[cycle(analyse)]
fn both_tested(scope: &Scope<'_>, state: AbsState, a: &Value, b: &Value) -> Result<Tested, Stop>
    ensures { IfOk result (λ r. Tests (frame_of scope.now) (typed.both_true (value_of a.now) (value_of b.now)) (state_of state) (state_of r.on) (state_of r.off)) }
{
    let left = test(scope, state, a)?;
    let right = test(scope, left.on, b)?;
    let off = joined(scope.alloc, right.off, left.off)?;
    Ok(Tested { on: right.on, off })
}

#[cycle(analyse)]
fn one_tested(scope: &Scope<'_>, state: AbsState, a: &Value, b: &Value) -> Result<Tested, Stop>
    ensures { IfOk result (λ r. Tests (frame_of scope.now) (typed.one_true (value_of a.now) (value_of b.now)) (state_of state) (state_of r.on) (state_of r.off)) }
{
    let left = test(scope, state, a)?;
    let right = test(scope, left.off, b)?;
    let on = joined(scope.alloc, right.on, left.on)?;
    Ok(Tested { on, off: right.off })
}

/// A test that no run reaches.
fn never_tested(scope: &Scope<'_>, state: &AbsState, e: &Value) -> Tested
    requires { state_of state.now ≡ None }
    ensures { Tests (frame_of scope.now) (value_of e.now) (state_of state.now) (state_of result.on) (state_of result.off) }
{
    Tested {
        on: unreachable(),
        off: unreachable(),
    }
}

/// An expression, by whether its value is zero.
#[cycle(analyse)]
pub fn test(scope: &Scope<'_>, state: AbsState, e: &Value) -> Result<Tested, Stop>
    ensures { IfOk result (λ r. Tests (frame_of scope.now) (value_of e.now) (state_of state) (state_of r.on) (state_of r.off)) }
{
    let reached = is_reached(&state);
    if !reached {
        return Ok(never_tested(scope, &state, e));
    }
    test_by_form(scope, state, e)
}

#[cycle(analyse)]
fn test_by_form(scope: &Scope<'_>, state: AbsState, e: &Value) -> Result<Tested, Stop>
    ensures { IfOk result (λ r. Tests (frame_of scope.now) (value_of e.now) (state_of state) (state_of r.on) (state_of r.off)) }
{
    match e {
        Value::Constant(_, _) => by_value(scope, state, e),
        Value::Read(_, _) => by_value(scope, state, e),
        Value::Assigned(_, _, _, _) => by_value(scope, state, e),
        Value::Compound(_, _, _, _, _, _) => by_value(scope, state, e),
        Value::Stepped(_, _, _, _, _, _) => by_value(scope, state, e),
        Value::Unary(_, _, _, _) => by_value(scope, state, e),
        Value::Binary(at, op, ty, a, b) => {
            let found = compared(scope, &state, at, *op, *ty, a, b)?;
            match found {
                Some(t) => Ok(t),
                None => by_value(scope, state, e),
            }
        }
        Value::BothTrue(a, b) => both_tested(scope, state, a, b),
        Value::OneTrue(a, b) => one_tested(scope, state, a, b),
        Value::Chosen(_, _, _, _) => by_value(scope, state, e),
        Value::Sequence(_, _) => by_value(scope, state, e),
        Value::Cast(_, _) => by_value(scope, state, e),
        Value::Discarded(_) => by_value(scope, state, e),
        Value::Call(_, _, _, _, _) => by_value(scope, state, e),
    }
}
