//! Statements that call, up to the next call, and the beginnings of functions.

ghost use Rattle.std.specs.Bool.{OnFalse, OnTrue};
ghost use Rattle.std.specs.Prelude.{◌≡◌, ◌≢◌, ◌<◌, ◌≤◌, ◌+◌, IfSome, ℕ, List, Option, None, false, map, true};
ghost use Rattle.typing_spec.specs.Program as typed;
ghost use Rattle.typed_ast.specs.View.{object_type_of, statement_of, statements_of, value_of};
ghost use Rattle.csem.specs.History.{Entry};
ghost use Rattle.csem.specs.Statements.{all_renewed};
ghost use Rattle.interp_store.specs.layer.Frames as on;
ghost use Rattle.interp_store.specs.layer.Steps.{came_late, entered_statement, started, waits};
ghost use Rattle.interp_store.specs.declared.scene.Scene.{Scene};
ghost use Rattle.interp_store.specs.layer.Views.{late_of, node_of, step_of};
ghost use Rattle.interp_eval.specs.layer.Comes.{Course, Spends, StaysHere, StopsBy};
ghost use Rattle.interp_eval.specs.declared.clock.Why.TheVariants as why;
ghost use Rattle.interp_eval.specs.layer.Quick.{quick_statement};
ghost use Rattle.io_ports.specs.Port.{PortView};
ghost use Rattle.cabs.specs.inside.Standing as standing;
ghost use Rattle.cabs.specs.inside.Standing.{Grows, IsCalm, MeetsAt, Outset, Stands, Whole};
ghost use Rattle.cabs.specs.inside.Sweeping.{After, Sweeps, steps_to};

use crate::outcome::Run;
use crate::quick_parts::stopped;
use crate::resting::holds_loop;
use crate::state::Interpreter;
use crate::sweeping::{descend, enter_slowly, later, statement_here, value_here, wait_in};
use interp_eval::clock::{Clock, Why};
use interp_eval::quick::{is_quick, is_quick_statement};
use interp_steps::objects::renew_all;
use interp_store::frames::{ControlFrame, Flow, FlowFrame, Found, Frame, Late, Node, Step};
use interp_store::machine::Machine;
use interp_store::operators::is_true;
use typed_ast::{ObjectType, Statement, Value};

/// Whether a statement is evaluated on the spot: it calls nothing, and does not loop.
fn is_short(a: &Statement) -> bool
    ensures { result ≡ true → quick_statement (statement_of a.now) ≡ true }
{
    is_quick_statement(a) && !holds_loop(a)
}

/// The two statements of `if` with `else`, in a function with these objects.
#[derive(Clone, Copy)]
struct Alternatives<'p> {
    objects: &'p [ObjectType],
    a: &'p Box<Statement>,
    b: &'p Box<Statement>,
}

/// Statements one after the other, up to the first one that calls or loops (6.8p2).
fn sequence<'p>(
    machine: &mut Machine<'p>,
    clock: &mut Clock,
    limit: u64,
    objects: &'p [ObjectType],
    all: &'p [Statement],
) -> Option<Step<'p>>
    requires room { clock.old.spent ≤ limit }
    ensures does { Sweeps (λ x. steps_to (step_of x)) limit (λ p s. started (map object_type_of objects.now) (statements_of (map statement_of all.now)) s) clock.old machine.old result clock.new machine.new }
    ensures here { StaysHere true result clock.new.why }
    ensures program { machine.new.program ≡ machine.old.program }
    ensures spends { Spends clock.old.spent clock.new.spent limit }
{
    let mut rest = all;
    while let Some((a, more)) = rest.split_first() {
        if !is_short(a) {
            if !wait_in(machine, clock, Frame::Flow(FlowFrame::Rest(objects, more))) {
                return None;
            }
            return Some(Step::Enters(Node::Statement(objects, a)));
        }
        match statement_here(machine, clock, limit, objects, a) {
            None => return None,
            Some(Flow::Normal) => {}
            Some(Flow::Broken) => return Some(Step::Leaves(Found::Flow(Flow::Broken))),
            Some(Flow::Continued) => return Some(Step::Leaves(Found::Flow(Flow::Continued))),
            Some(Flow::Returned(v)) => return Some(Step::Leaves(Found::Flow(Flow::Returned(v)))),
        }
        rest = more;
    }
    Some(Step::Leaves(Found::Flow(Flow::Normal)))
}

/// A block, after its tick: its objects become indeterminate (6.8.2, 6.2.4p6).
fn block<'p>(
    machine: &mut Machine<'p>,
    clock: &mut Clock,
    limit: u64,
    objects: &'p [ObjectType],
    first: usize,
    count: usize,
    all: &'p [Statement],
) -> Option<Step<'p>>
    requires room { clock.old.spent ≤ limit }
    ensures does { Sweeps (λ x. steps_to (step_of x)) limit (λ p s. entered_statement p (map object_type_of objects.now) (typed.block first count (statements_of (map statement_of all.now))) s) clock.old machine.old result clock.new machine.new }
    ensures here { StaysHere true result clock.new.why }
    ensures program { machine.new.program ≡ machine.old.program }
    ensures spends { Spends clock.old.spent clock.new.spent limit }
{
    match renew_all(&mut machine.scene, machine.alloc, objects, first, count) {
        Ok(()) => sequence(machine, clock, limit, objects, all),
        Err(_) => {
            clock.why = Why::Memory;
            None
        }
    }
}

/// `if`, after its tick (6.8.4.1).
fn branch<'p>(
    machine: &mut Machine<'p>,
    clock: &mut Clock,
    limit: u64,
    objects: &'p [ObjectType],
    e: &'p Value,
    a: &'p Box<Statement>,
) -> Option<Step<'p>>
    requires room { clock.old.spent ≤ limit }
    ensures does { Sweeps (λ x. steps_to (step_of x)) limit (λ p s. waits (on.if_true (map object_type_of objects.now) (statement_of a.now.value)) (on.value (value_of e.now)) s) clock.old machine.old result clock.new machine.new }
    ensures here { StaysHere true result clock.new.why }
    ensures program { machine.new.program ≡ machine.old.program }
    ensures spends { Spends clock.old.spent clock.new.spent limit }
{
    if !is_quick(e) {
        return later(
            machine,
            clock,
            limit,
            Frame::Control(ControlFrame::IfTrue(objects, a)),
            e,
        );
    }
    let Some(v) = value_here(machine, clock, limit, e) else {
        return None;
    };
    if is_true(v) {
        Some(Step::Enters(Node::Statement(objects, a)))
    } else {
        Some(Step::Leaves(Found::Flow(Flow::Normal)))
    }
}

/// `if` with `else`, after its tick (6.8.4.1).
fn branches<'p>(
    machine: &mut Machine<'p>,
    clock: &mut Clock,
    limit: u64,
    choice: Alternatives<'p>,
    e: &'p Value,
) -> Option<Step<'p>>
    requires room { clock.old.spent ≤ limit }
    ensures does { Sweeps (λ x. steps_to (step_of x)) limit (λ p s. waits (on.if_else (map object_type_of choice.entry.objects.now) (statement_of choice.entry.a.now.value) (statement_of choice.entry.b.now.value)) (on.value (value_of e.now)) s) clock.old machine.old result clock.new machine.new }
    ensures here { StaysHere true result clock.new.why }
    ensures program { machine.new.program ≡ machine.old.program }
    ensures spends { Spends clock.old.spent clock.new.spent limit }
{
    let Alternatives { objects, a, b } = choice;
    if !is_quick(e) {
        return later(
            machine,
            clock,
            limit,
            Frame::Control(ControlFrame::IfElse(objects, a, b)),
            e,
        );
    }
    let Some(v) = value_here(machine, clock, limit, e) else {
        return None;
    };
    if is_true(v) {
        Some(Step::Enters(Node::Statement(objects, a)))
    } else {
        Some(Step::Enters(Node::Statement(objects, b)))
    }
}

/// A statement that calls, up to its next call, from its tick on (6.8).
fn open<'p>(
    machine: &mut Machine<'p>,
    clock: &mut Clock,
    limit: u64,
    objects: &'p [ObjectType],
    a: &'p Statement,
) -> Option<Step<'p>>
    requires room { clock.old.spent ≤ limit }
    ensures does { Sweeps (λ x. steps_to (step_of x)) limit (λ p s. steps_to (on.enters (on.statement (map object_type_of objects.now) (statement_of a.now))) s) clock.old machine.old result clock.new machine.new }
    ensures here { StaysHere true result clock.new.why }
    ensures program { machine.new.program ≡ machine.old.program }
    ensures spends { Spends clock.old.spent clock.new.spent limit }
    ensures takes { IfSome result (λ _. clock.old.spent < clock.new.spent) }
{
    if !clock.tick(limit) {
        return None;
    }
    match a {
        Statement::Evaluate(_, e) => later(
            machine,
            clock,
            limit,
            Frame::Control(ControlFrame::Forgets),
            e,
        ),
        Statement::ReturnValue(_, ty, e) => later(
            machine,
            clock,
            limit,
            Frame::Control(ControlFrame::GivesBack(*ty)),
            e,
        ),
        Statement::If(_, e, a) => branch(machine, clock, limit, objects, e, a),
        Statement::IfElse(_, e, a, b) => {
            let choice = Alternatives { objects, a, b };
            branches(machine, clock, limit, choice, e)
        }
        Statement::Block(_, first, count, all) => {
            block(machine, clock, limit, objects, *first, *count, all)
        }
        Statement::Empty(_) => enter_slowly(machine, clock, Node::Statement(objects, a)),
        Statement::Declare(_, _) => enter_slowly(machine, clock, Node::Statement(objects, a)),
        Statement::Define(_, _, _) => enter_slowly(machine, clock, Node::Statement(objects, a)),
        Statement::Switch(_, _, _, _, _, _) => enter_slowly(
            machine,
            clock,
            Node::Statement(objects, a),
        ),
        Statement::Case(_, _) => enter_slowly(machine, clock, Node::Statement(objects, a)),
        Statement::Default(_) => enter_slowly(machine, clock, Node::Statement(objects, a)),
        Statement::While(_, _, _) => enter_slowly(machine, clock, Node::Statement(objects, a)),
        Statement::DoWhile(_, _, _) => enter_slowly(machine, clock, Node::Statement(objects, a)),
        Statement::For(_, _, _, _) => enter_slowly(machine, clock, Node::Statement(objects, a)),
        Statement::Break(_) => enter_slowly(machine, clock, Node::Statement(objects, a)),
        Statement::Continue(_) => enter_slowly(machine, clock, Node::Statement(objects, a)),
        Statement::ReturnNothing(_) => enter_slowly(machine, clock, Node::Statement(objects, a)),
    }
}

/// Takes this many ticks and one more: those before the body of a function, one for each parameter and that of the call (6.9.1p10).
fn spend_ticks(clock: &mut Clock, limit: u64, more: usize) -> bool
    requires room { clock.old.spent ≤ limit }
    ensures taken { (c : Course) (p : typed.Program) (fs : List on.Frame) (scene : Scene) (late : on.Late) → After c p clock.old.spent fs scene (steps_to (on.enters (on.ticking more late))) →
        OnTrue result (After c p clock.new.spent fs scene (λ s. came_late p late s)) }
    ensures stopped { (c : Course) (p : typed.Program) (fs : List on.Frame) (scene : Scene) (late : on.Late) → After c p clock.old.spent fs scene (steps_to (on.enters (on.ticking more late))) →
        OnFalse result (StopsBy c limit clock.new.why clock.new.spent scene) }
    ensures here { result ≡ false → clock.new.why ≢ why.Elsewhere }
    ensures spends { Spends clock.old.spent clock.new.spent limit }
{
    let mut left = more;
    while left > 0 {
        if !clock.tick(limit) {
            return false;
        }
        left -= 1;
    }
    clock.tick(limit)
}

/// A node of any other kind, from its tick on.
fn enter_other<'p>(
    machine: &mut Machine<'p>,
    clock: &mut Clock,
    limit: u64,
    node: Node<'p>,
) -> Option<Step<'p>>
    requires room { clock.old.spent ≤ limit }
    ensures does { Sweeps (λ x. steps_to (step_of x)) limit (λ p s. steps_to (on.enters (node_of node.entry)) s) clock.old machine.old result clock.new machine.new }
    ensures here { StaysHere true result clock.new.why }
    ensures program { machine.new.program ≡ machine.old.program }
    ensures spends { Spends clock.old.spent clock.new.spent limit }
    ensures takes { IfSome result (λ _. clock.old.spent < clock.new.spent) }
{
    if !clock.tick(limit) {
        return None;
    }
    enter_slowly(machine, clock, node)
}

/// The body of a function, behind the ticks that come before it; or what else waits for ticks.
fn begin_late<'p>(
    machine: &mut Machine<'p>,
    clock: &mut Clock,
    limit: u64,
    more: usize,
    late: Late<'p>,
) -> Option<Step<'p>>
    requires room { clock.old.spent ≤ limit }
    ensures does { Sweeps (λ x. steps_to (step_of x)) limit (λ p s. steps_to (on.enters (on.ticking more (late_of late.entry))) s) clock.old machine.old result clock.new machine.new }
    ensures here { StaysHere true result clock.new.why }
    ensures program { machine.new.program ≡ machine.old.program }
    ensures spends { Spends clock.old.spent clock.new.spent limit }
    ensures takes { IfSome result (λ _. clock.old.spent < clock.new.spent) }
{
    match late {
        Late::EntersBody(objects, body) => {
            if !spend_ticks(clock, limit, more) {
                return None;
            }
            open(machine, clock, limit, objects, body)
        }
        Late::PutsText(ty, count, n, r) => {
            let node = Node::Ticking(more, Late::PutsText(ty, count, n, r));
            enter_other(machine, clock, limit, node)
        }
        Late::PutsZeros(count, i, r) => {
            let node = Node::Ticking(more, Late::PutsZeros(count, i, r));
            enter_other(machine, clock, limit, node)
        }
    }
}

/// A node, from its tick on, up to the next call.
fn go_on<'p>(
    machine: &mut Machine<'p>,
    clock: &mut Clock,
    limit: u64,
    node: Node<'p>,
) -> Option<Step<'p>>
    requires room { clock.old.spent ≤ limit }
    ensures does { Sweeps (λ x. steps_to (step_of x)) limit (λ p s. steps_to (on.enters (node_of node.entry)) s) clock.old machine.old result clock.new machine.new }
    ensures here { StaysHere true result clock.new.why }
    ensures program { machine.new.program ≡ machine.old.program }
    ensures spends { Spends clock.old.spent clock.new.spent limit }
    ensures takes { IfSome result (λ _. clock.old.spent < clock.new.spent) }
{
    match node {
        Node::Value(e) => descend(machine, clock, limit, e),
        Node::Statement(objects, a) => open(machine, clock, limit, objects, a),
        Node::Ticking(more, late) => begin_late(machine, clock, limit, more, late),
        Node::TickingLong(digits, late) => {
            enter_other(machine, clock, limit, Node::TickingLong(digits, late))
        }
        Node::Place(a) => enter_other(machine, clock, limit, Node::Place(a)),
        Node::Initialiser(i, ty, lengths, r) => {
            let node = Node::Initialiser(i, ty, lengths, r);
            enter_other(machine, clock, limit, node)
        }
        Node::Element(r, v) => enter_other(machine, clock, limit, Node::Element(r, v)),
        Node::SwitchBlock(v, block) => {
            enter_other(machine, clock, limit, Node::SwitchBlock(v, block))
        }
        Node::CaseTest(t) => enter_other(machine, clock, limit, Node::CaseTest(t)),
    }
}

/// A step, and the statements that call and that are entered next, one in another, up to the next call.
fn open_next<'p>(
    machine: &mut Machine<'p>,
    clock: &mut Clock,
    limit: u64,
    first: Step<'p>,
) -> Option<Step<'p>>
    requires room { clock.old.spent ≤ limit }
    ensures does { Sweeps (λ x. steps_to (step_of x)) limit (λ p s. steps_to (step_of first.entry) s) clock.old machine.old result clock.new machine.new }
    ensures here { StaysHere true result clock.new.why }
    ensures program { machine.new.program ≡ machine.old.program }
    ensures spends { Spends clock.old.spent clock.new.spent limit }
{
    let mut next = first;
    loop {
        match next {
            Step::Enters(node) => match node {
                Node::Statement(objects, a) => {
                    if is_quick_statement(a) {
                        return Some(Step::Enters(Node::Statement(objects, a)));
                    }
                    match open(machine, clock, limit, objects, a) {
                        None => return None,
                        Some(step) => next = step,
                    }
                }
                other => return Some(Step::Enters(other)),
            },
            other => return Some(other),
        }
    }
}

/// A node, and the statements that call and that it enters, up to the next call.
fn go_far<'p>(
    machine: &mut Machine<'p>,
    clock: &mut Clock,
    limit: u64,
    node: Node<'p>,
) -> Option<Step<'p>>
    requires room { clock.old.spent ≤ limit }
    ensures does { Sweeps (λ x. steps_to (step_of x)) limit (λ p s. steps_to (on.enters (node_of node.entry)) s) clock.old machine.old result clock.new machine.new }
    ensures here { StaysHere true result clock.new.why }
    ensures program { machine.new.program ≡ machine.old.program }
    ensures spends { Spends clock.old.spent clock.new.spent limit }
    ensures takes { IfSome result (λ _. clock.old.spent < clock.new.spent) }
{
    match go_on(machine, clock, limit, node) {
        None => None,
        Some(step) => open_next(machine, clock, limit, step),
    }
}

/// A node that calls, with its ticks, up to the next call.
///
/// Errors: how the run stops before it.
pub fn sweep<'p>(
    interpreter: &mut Interpreter<'p>,
    node: Node<'p>,
    spent: &mut u64,
    limit: u64,
) -> Result<Step<'p>, Run>
    requires room { spent.old < limit }
    ensures meets { (h : List Entry) (p : typed.Program) (all : Whole) (o : Outset) (port : PortView) → Grows all →
        Stands (λ g. g ≡ h) p (λ n. all (n + spent.old)) o interpreter.old (on.enters (node_of node.entry)) port → interpreter.old.kept ≡ None →
        MeetsAt (λ g. g ≡ h) p all o limit result spent.new interpreter.new port }
    ensures spends { standing.Spends result spent.old spent.new limit }
    ensures calm { IsCalm result }
{
    let mut clock = Clock {
        spent: *spent,
        why: Why::Ticks,
    };
    let next = go_far(&mut interpreter.machine, &mut clock, limit, node);
    *spent = clock.spent;
    match next {
        Some(step) => Ok(step),
        None => Err(stopped(clock.why)),
    }
}
