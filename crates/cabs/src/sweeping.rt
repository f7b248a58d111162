//! Parts of the program that call, up to the next call. What calls nothing in them is evaluated on the spot and takes no frame.

ghost use Rattle.std.specs.Bool.{OnFalse, OnTrue};
ghost use Rattle.std.specs.Prelude.{◌≡◌, ◌≢◌, ◌<◌, ◌≤◌, ◌++◌, ◌∷◌, [], ℕ, IfSome, List, map, true};
ghost use Rattle.srcset.specs.declared.refusal.Pos.{Pos};
ghost use Rattle.typing_spec.specs.Program as typed;
ghost use Rattle.typed_ast.specs.View.{Given, argument_of, arguments_of, callee_of, object_type_of, place_of, statement_of, statements_of, value_of};
ghost use Rattle.csem.specs.Expressions as meaning;
ghost use Rattle.csem.specs.Statements.{all_renewed};
ghost use Rattle.interp_store.specs.View.{reference_of};
ghost use Rattle.interp_store.specs.layer.Agrees.{frames_of, number};
ghost use Rattle.interp_store.specs.layer.Frames as on;
ghost use Rattle.interp_store.specs.layer.Steps.{asked_for, entered, started, waits};
ghost use Rattle.interp_store.specs.layer.Views.{flow_of, frame_of, node_of, passed_of, step_of};
ghost use Rattle.interp_eval.specs.declared.clock.Why.TheVariants as why;
ghost use Rattle.interp_eval.specs.layer.Comes.{Spends, StaysHere};
ghost use Rattle.interp_eval.specs.layer.Quick.{quick, quick_place, quick_statement};
ghost use Rattle.cabs.specs.inside.Sweeping.{AsksOn, FindsHere, Sweeps, quick_given, steps_to};

use crate::resting::holds_loop;
use ctypes::{BinOp, IntType, convert};
use interp_eval::clock::{Clock, Scope, Why};
use interp_eval::expressions::{place, value};
use interp_eval::quick::{is_quick, is_quick_place, is_quick_statement};
use interp_eval::statements::statement;
use interp_steps::nodes::enter;
use interp_steps::objects::renew_all;
use interp_store::Reference;
use interp_store::expressions::ask;
use interp_store::frames::{
    Asked, Compound, Flow, Found, Frame, Node, OperandFrame, Passed, PlaceFrame, Step,
};
use interp_store::machine::Machine;
use interp_store::operators::{converted_or_none, is_true};
use interp_store::stop::Stop;
use srcset::Pos;
use typed_ast::{Argument, ObjectType, Place, Statement, Value};

/// A binary operator, with its place and its type.
#[derive(Clone, Copy)]
struct Operation {
    at: Pos,
    op: BinOp,
    ty: IntType,
}

/// The two operands of `?:` of which one is evaluated, and the type to which it is converted.
#[derive(Clone, Copy)]
struct Choice<'p> {
    ty: Option<IntType>,
    a: &'p Value,
    b: &'p Value,
}

/// What an assignment is, with its place and the type of its object.
#[derive(Clone, Copy)]
struct Store {
    at: Pos,
    ty: IntType,
}

/// The place in the source of an element that is read: its name or its `[`.
fn position_of(place: &Place) -> Pos
    ensures { result ≡ meaning.position_of (place_of place.now) }
{
    match place {
        Place::Named(at, _) => *at,
        Place::Element(at, _, _) => *at,
    }
}

/// The value of an expression that calls nothing, on the spot.
pub fn value_here(
    machine: &mut Machine<'_>,
    clock: &mut Clock,
    limit: u64,
    e: &Value,
) -> Option<i64>
    requires quick { quick (value_of e.now) ≡ true }
    requires room { clock.old.spent ≤ limit }
    ensures does { FindsHere on.a_value number limit (on.value (value_of e.now)) clock.old machine.old result clock.new machine.new }
    ensures here { StaysHere true result clock.new.why }
    ensures program { machine.new.program ≡ machine.old.program }
    ensures spends { Spends clock.old.spent clock.new.spent limit }
{
    let scope = Scope {
        alloc: machine.alloc,
        program: machine.program,
        objects: &[],
        limit,
    };
    value(&scope, &mut machine.scene, clock, e)
}

/// The place that an lvalue or an array designates, on the spot.
fn place_here(
    machine: &mut Machine<'_>,
    clock: &mut Clock,
    limit: u64,
    a: &Place,
) -> Option<Reference>
    requires quick { quick_place (place_of a.now) ≡ true }
    requires room { clock.old.spent ≤ limit }
    ensures does { FindsHere on.a_place reference_of limit (on.place (place_of a.now)) clock.old machine.old result clock.new machine.new }
    ensures here { StaysHere true result clock.new.why }
    ensures program { machine.new.program ≡ machine.old.program }
    ensures spends { Spends clock.old.spent clock.new.spent limit }
{
    let scope = Scope {
        alloc: machine.alloc,
        program: machine.program,
        objects: &[],
        limit,
    };
    place(&scope, &mut machine.scene, clock, a)
}

/// A statement that calls nothing, on the spot.
pub fn statement_here(
    machine: &mut Machine<'_>,
    clock: &mut Clock,
    limit: u64,
    objects: &[ObjectType],
    a: &Statement,
) -> Option<Flow>
    requires quick { quick_statement (statement_of a.now) ≡ true }
    requires room { clock.old.spent ≤ limit }
    ensures does { FindsHere on.a_flow flow_of limit (on.statement (map object_type_of objects.now) (statement_of a.now)) clock.old machine.old result clock.new machine.new }
    ensures here { StaysHere true result clock.new.why }
    ensures program { machine.new.program ≡ machine.old.program }
    ensures spends { Spends clock.old.spent clock.new.spent limit }
{
    let scope = Scope {
        alloc: machine.alloc,
        program: machine.program,
        objects,
        limit,
    };
    statement(&scope, &mut machine.scene, clock, a)
}

/// Pushes a frame, if there is memory for it.
#[inline(always)]
pub fn wait_in<'p>(machine: &mut Machine<'p>, clock: &mut Clock, frame: Frame<'p>) -> bool
    ensures stacked { OnTrue result (frames_of machine.new ≡ frames_of machine.old ++ frame_of frame.entry ∷ []) }
    ensures refused { OnFalse result (clock.new.why ≡ why.Memory) }
    ensures scene { machine.new.scene ≡ machine.old.scene }
    ensures program { machine.new.program ≡ machine.old.program }
    ensures spent { clock.new.spent ≡ clock.old.spent }
{
    match machine.push(frame) {
        Ok(()) => true,
        Err(_) => {
            clock.why = Why::Memory;
            false
        }
    }
}

/// A node, after its tick, with its frames.
pub fn enter_slowly<'p>(
    machine: &mut Machine<'p>,
    clock: &mut Clock,
    node: Node<'p>,
) -> Option<Step<'p>>
    ensures does { (limit : ℕ) → Sweeps (λ x. steps_to (step_of x)) limit (λ p s. entered p (node_of node.entry) s) clock.old machine.old result clock.new machine.new }
    ensures here { StaysHere true result clock.new.why }
    ensures program { machine.new.program ≡ machine.old.program }
    ensures spent { clock.new.spent ≡ clock.old.spent }
{
    match enter(machine, node) {
        Ok(step) => Some(step),
        Err(Stop::Memory) => {
            clock.why = Why::Memory;
            None
        }
        Err(Stop::Ended(_)) => unreachable!(),
        Err(Stop::Undefined(_, _)) => unreachable!(),
    }
}

/// The arguments of a call that are left, with their frames.
fn ask_slowly<'p>(
    machine: &mut Machine<'p>,
    clock: &mut Clock,
    asked: Asked<'p>,
) -> Option<Step<'p>>
    ensures does { (limit : ℕ) → Sweeps (λ x. steps_to (step_of x)) limit (λ p s. asked_for asked.entry.at (callee_of asked.entry.callee) asked.entry.used
        (arguments_of (map argument_of asked.entry.more.now)) (map passed_of asked.entry.before.items) s) clock.old machine.old result clock.new machine.new }
    ensures here { StaysHere true result clock.new.why }
    ensures program { machine.new.program ≡ machine.old.program }
    ensures spent { clock.new.spent ≡ clock.old.spent }
{
    match ask(machine, asked) {
        Ok(step) => Some(step),
        Err(Stop::Memory) => {
            clock.why = Why::Memory;
            None
        }
        Err(Stop::Ended(_)) => unreachable!(),
        Err(Stop::Undefined(_, _)) => unreachable!(),
    }
}

/// Whether an argument calls nothing.
fn is_quick_argument(argument: &Argument) -> bool
    ensures { result ≡ quick_given (argument_of argument.now) }
{
    match argument {
        Argument::Number(_, e) => is_quick(e),
        Argument::Array(a) => is_quick_place(a),
    }
}

/// The argument that a call passes next, on the spot (6.5.2.2p4).
fn argument_here(
    machine: &mut Machine<'_>,
    clock: &mut Clock,
    limit: u64,
    argument: &Argument,
) -> Option<Passed>
    requires quick { quick_given (argument_of argument.now) ≡ true }
    requires room { clock.old.spent ≤ limit }
    ensures does { AsksOn limit (argument_of argument.now) clock.old machine.old result clock.new machine.new }
    ensures here { StaysHere true result clock.new.why }
    ensures program { machine.new.program ≡ machine.old.program }
    ensures spends { Spends clock.old.spent clock.new.spent limit }
{
    match argument {
        Argument::Number(ty, e) => match value_here(machine, clock, limit, e) {
            None => None,
            Some(v) => Some(Passed::Number(convert(*ty, v))),
        },
        Argument::Array(a) => match place_here(machine, clock, limit, a) {
            None => None,
            Some(r) => Some(Passed::Referred(r)),
        },
    }
}

/// The arguments of a call that are left, and the call (6.5.2.2).
fn call<'p>(
    machine: &mut Machine<'p>,
    clock: &mut Clock,
    limit: u64,
    asked: Asked<'p>,
) -> Option<Step<'p>>
    requires room { clock.old.spent ≤ limit }
    ensures does { Sweeps (λ x. steps_to (step_of x)) limit (λ p s. asked_for asked.entry.at (callee_of asked.entry.callee) asked.entry.used
        (arguments_of (map argument_of asked.entry.more.now)) (map passed_of asked.entry.before.items) s) clock.old machine.old result clock.new machine.new }
    ensures here { StaysHere true result clock.new.why }
    ensures program { machine.new.program ≡ machine.old.program }
    ensures spends { Spends clock.old.spent clock.new.spent limit }
{
    let Asked {
        at,
        callee,
        used,
        more,
        before,
    } = asked;
    let mut rest = more;
    let mut done = before;
    while let Some((argument, more)) = rest.split_first() {
        if !is_quick_argument(argument) {
            return ask_slowly(
                machine,
                clock,
                Asked {
                    at,
                    callee,
                    used,
                    more: rest,
                    before: done,
                },
            );
        }
        let Some(passed) = argument_here(machine, clock, limit, argument) else {
            return None;
        };
        match done.push(passed) {
            Ok(()) => {}
            Err(_) => {
                clock.why = Why::Memory;
                return None;
            }
        }
        rest = more;
    }
    Some(Step::Calls(at, callee, used, done))
}

/// A frame waits for an expression. One that calls nothing is left to be evaluated as a whole.
#[cycle(descending)]
#[inline(always)]
pub fn later<'p>(
    machine: &mut Machine<'p>,
    clock: &mut Clock,
    limit: u64,
    frame: Frame<'p>,
    e: &'p Value,
) -> Option<Step<'p>>
    requires room { clock.old.spent ≤ limit }
    ensures does { Sweeps (λ x. steps_to (step_of x)) limit (λ p s. waits (frame_of frame.entry) (on.value (value_of e.now)) s) clock.old machine.old result clock.new machine.new }
    ensures here { StaysHere true result clock.new.why }
    ensures program { machine.new.program ≡ machine.old.program }
    ensures spends { Spends clock.old.spent clock.new.spent limit }
{
    if !wait_in(machine, clock, frame) {
        return None;
    }
    if is_quick(e) {
        return Some(Step::Enters(Node::Value(e)));
    }
    descend(machine, clock, limit, e)
}

/// A binary operator, after its tick.
#[cycle(descending)]
fn binary<'p>(
    machine: &mut Machine<'p>,
    clock: &mut Clock,
    limit: u64,
    operation: Operation,
    a: &'p Value,
    b: &'p Value,
) -> Option<Step<'p>>
    requires room { clock.old.spent ≤ limit }
    ensures does { Sweeps (λ x. steps_to (step_of x)) limit (λ p s. waits (on.right operation.at operation.op operation.ty (value_of b.now)) (on.value (value_of a.now)) s) clock.old machine.old result clock.new machine.new }
    ensures here { StaysHere true result clock.new.why }
    ensures program { machine.new.program ≡ machine.old.program }
    ensures spends { Spends clock.old.spent clock.new.spent limit }
{
    let Operation { at, op, ty } = operation;
    if !is_quick(a) {
        return later(
            machine,
            clock,
            limit,
            Frame::Operand(OperandFrame::Right(at, op, ty, b)),
            a,
        );
    }
    let Some(v) = value_here(machine, clock, limit, a) else {
        return None;
    };
    later(
        machine,
        clock,
        limit,
        Frame::Operand(OperandFrame::Applies(at, op, ty, v)),
        b,
    )
}

/// An assignment, after its tick (6.5.16).
#[cycle(descending)]
fn assigned<'p>(
    machine: &mut Machine<'p>,
    clock: &mut Clock,
    limit: u64,
    store: Store,
    a: &'p Place,
    e: &'p Value,
) -> Option<Step<'p>>
    requires room { clock.old.spent ≤ limit }
    ensures does { Sweeps (λ x. steps_to (step_of x)) limit (λ p s. waits (on.assigns store.at store.ty (value_of e.now)) (on.place (place_of a.now)) s) clock.old machine.old result clock.new machine.new }
    ensures here { StaysHere true result clock.new.why }
    ensures program { machine.new.program ≡ machine.old.program }
    ensures spends { Spends clock.old.spent clock.new.spent limit }
{
    let Store { at, ty } = store;
    if !is_quick_place(a) {
        if !wait_in(machine, clock, Frame::Place(PlaceFrame::Assigns(at, ty, e))) {
            return None;
        }
        return Some(Step::Enters(Node::Place(a)));
    }
    let Some(r) = place_here(machine, clock, limit, a) else {
        return None;
    };
    later(
        machine,
        clock,
        limit,
        Frame::Operand(OperandFrame::Stores(at, ty, r)),
        e,
    )
}

/// A compound assignment, after its tick (6.5.16.2).
#[cycle(descending)]
fn combined<'p>(
    machine: &mut Machine<'p>,
    clock: &mut Clock,
    limit: u64,
    c: Compound,
    a: &'p Place,
    e: &'p Value,
) -> Option<Step<'p>>
    requires room { clock.old.spent ≤ limit }
    ensures does { Sweeps (λ x. steps_to (step_of x)) limit (λ p s. waits (on.compounds c.at c.op c.ty c.of c.read_at (value_of e.now)) (on.place (place_of a.now)) s) clock.old machine.old result clock.new machine.new }
    ensures here { StaysHere true result clock.new.why }
    ensures program { machine.new.program ≡ machine.old.program }
    ensures spends { Spends clock.old.spent clock.new.spent limit }
{
    if !is_quick_place(a) {
        if !wait_in(machine, clock, Frame::Place(PlaceFrame::Compounds(c, e))) {
            return None;
        }
        return Some(Step::Enters(Node::Place(a)));
    }
    let Some(r) = place_here(machine, clock, limit, a) else {
        return None;
    };
    later(
        machine,
        clock,
        limit,
        Frame::Operand(OperandFrame::Combines(c, r)),
        e,
    )
}

/// `&&`, after its tick (6.5.13).
#[cycle(descending)]
fn both_true<'p>(
    machine: &mut Machine<'p>,
    clock: &mut Clock,
    limit: u64,
    a: &'p Value,
    b: &'p Value,
) -> Option<Step<'p>>
    requires room { clock.old.spent ≤ limit }
    ensures does { Sweeps (λ x. steps_to (step_of x)) limit (λ p s. waits (on.and_also (value_of b.now)) (on.value (value_of a.now)) s) clock.old machine.old result clock.new machine.new }
    ensures here { StaysHere true result clock.new.why }
    ensures program { machine.new.program ≡ machine.old.program }
    ensures spends { Spends clock.old.spent clock.new.spent limit }
{
    if !is_quick(a) {
        return later(
            machine,
            clock,
            limit,
            Frame::Operand(OperandFrame::AndAlso(b)),
            a,
        );
    }
    let Some(v) = value_here(machine, clock, limit, a) else {
        return None;
    };
    if is_true(v) {
        later(
            machine,
            clock,
            limit,
            Frame::Operand(OperandFrame::TellsTruth),
            b,
        )
    } else {
        Some(Step::Leaves(Found::Value(0)))
    }
}

/// `||`, after its tick (6.5.14).
#[cycle(descending)]
fn one_true<'p>(
    machine: &mut Machine<'p>,
    clock: &mut Clock,
    limit: u64,
    a: &'p Value,
    b: &'p Value,
) -> Option<Step<'p>>
    requires room { clock.old.spent ≤ limit }
    ensures does { Sweeps (λ x. steps_to (step_of x)) limit (λ p s. waits (on.or_else (value_of b.now)) (on.value (value_of a.now)) s) clock.old machine.old result clock.new machine.new }
    ensures here { StaysHere true result clock.new.why }
    ensures program { machine.new.program ≡ machine.old.program }
    ensures spends { Spends clock.old.spent clock.new.spent limit }
{
    if !is_quick(a) {
        return later(
            machine,
            clock,
            limit,
            Frame::Operand(OperandFrame::OrElse(b)),
            a,
        );
    }
    let Some(v) = value_here(machine, clock, limit, a) else {
        return None;
    };
    if is_true(v) {
        Some(Step::Leaves(Found::Value(1)))
    } else {
        later(
            machine,
            clock,
            limit,
            Frame::Operand(OperandFrame::TellsTruth),
            b,
        )
    }
}

/// The operand of `?:` that is evaluated, converted to the type of both (6.5.15p5). One that calls nothing is evaluated on the spot.
#[cycle(descending)]
fn picked<'p>(
    machine: &mut Machine<'p>,
    clock: &mut Clock,
    limit: u64,
    ty: Option<IntType>,
    e: &'p Value,
) -> Option<Step<'p>>
    requires room { clock.old.spent ≤ limit }
    ensures does { Sweeps (λ x. steps_to (step_of x)) limit (λ p s. waits (on.converts ty) (on.value (value_of e.now)) s) clock.old machine.old result clock.new machine.new }
    ensures here { StaysHere true result clock.new.why }
    ensures program { machine.new.program ≡ machine.old.program }
    ensures spends { Spends clock.old.spent clock.new.spent limit }
{
    if !is_quick(e) {
        if !wait_in(machine, clock, Frame::Operand(OperandFrame::Converts(ty))) {
            return None;
        }
        return descend(machine, clock, limit, e);
    }
    let Some(v) = value_here(machine, clock, limit, e) else {
        return None;
    };
    Some(Step::Leaves(Found::Value(converted_or_none(ty, v))))
}

/// `?:`, after its tick (6.5.15).
#[cycle(descending)]
fn chosen<'p>(
    machine: &mut Machine<'p>,
    clock: &mut Clock,
    limit: u64,
    choice: Choice<'p>,
    c: &'p Value,
) -> Option<Step<'p>>
    requires room { clock.old.spent ≤ limit }
    ensures does { Sweeps (λ x. steps_to (step_of x)) limit (λ p s. waits (on.chooses choice.entry.ty (value_of choice.entry.a.now) (value_of choice.entry.b.now)) (on.value (value_of c.now)) s) clock.old machine.old result clock.new machine.new }
    ensures here { StaysHere true result clock.new.why }
    ensures program { machine.new.program ≡ machine.old.program }
    ensures spends { Spends clock.old.spent clock.new.spent limit }
{
    let Choice { ty, a, b } = choice;
    if !is_quick(c) {
        return later(
            machine,
            clock,
            limit,
            Frame::Operand(OperandFrame::Chooses(ty, a, b)),
            c,
        );
    }
    let Some(v) = value_here(machine, clock, limit, c) else {
        return None;
    };
    if is_true(v) {
        picked(machine, clock, limit, ty, a)
    } else {
        picked(machine, clock, limit, ty, b)
    }
}

/// An expression that calls, up to its next call, from its tick on (6.5).
#[cycle(descending)]
pub fn descend<'p>(
    machine: &mut Machine<'p>,
    clock: &mut Clock,
    limit: u64,
    e: &'p Value,
) -> Option<Step<'p>>
    requires room { clock.old.spent ≤ limit }
    ensures does { Sweeps (λ x. steps_to (step_of x)) limit (λ p s. steps_to (on.enters (on.value (value_of e.now))) s) clock.old machine.old result clock.new machine.new }
    ensures here { StaysHere true result clock.new.why }
    ensures program { machine.new.program ≡ machine.old.program }
    ensures spends { Spends clock.old.spent clock.new.spent limit }
    ensures takes { IfSome result (λ _. clock.old.spent < clock.new.spent) }
{
    if !clock.tick(limit) {
        return None;
    }
    match e {
        Value::Constant(_, _) => enter_slowly(machine, clock, Node::Value(e)),
        Value::Read(_, _) => enter_slowly(machine, clock, Node::Value(e)),
        Value::Assigned(at, ty, a, e) => {
            let store = Store { at: *at, ty: *ty };
            assigned(machine, clock, limit, store, a, e)
        }
        Value::Compound(at, op, ty, of, a, e) => {
            let c = Compound {
                at: *at,
                op: *op,
                ty: *ty,
                of: *of,
                read_at: position_of(a),
            };
            combined(machine, clock, limit, c, a, e)
        }
        Value::Stepped(_, _, _, _, _, _) => enter_slowly(machine, clock, Node::Value(e)),
        Value::Unary(at, op, ty, e) => later(
            machine,
            clock,
            limit,
            Frame::Operand(OperandFrame::Signs(*at, *op, *ty)),
            e,
        ),
        Value::Binary(at, op, ty, a, b) => {
            let operation = Operation {
                at: *at,
                op: *op,
                ty: *ty,
            };
            binary(machine, clock, limit, operation, a, b)
        }
        Value::BothTrue(a, b) => both_true(machine, clock, limit, a, b),
        Value::OneTrue(a, b) => one_true(machine, clock, limit, a, b),
        Value::Chosen(ty, c, a, b) => {
            let choice = Choice { ty: *ty, a, b };
            chosen(machine, clock, limit, choice, c)
        }
        Value::Sequence(a, b) => later(
            machine,
            clock,
            limit,
            Frame::Operand(OperandFrame::ThenValue(b)),
            a,
        ),
        Value::Cast(ty, e) => later(
            machine,
            clock,
            limit,
            Frame::Operand(OperandFrame::Converts(Some(*ty))),
            e,
        ),
        Value::Discarded(e) => later(
            machine,
            clock,
            limit,
            Frame::Operand(OperandFrame::Converts(None)),
            e,
        ),
        Value::Call(at, callee, _, used, arguments) => {
            let before = Vec::new(machine.alloc);
            call(
                machine,
                clock,
                limit,
                Asked {
                    at: *at,
                    callee: *callee,
                    used: *used,
                    more: arguments.as_slice(),
                    before,
                },
            )
        }
    }
}
