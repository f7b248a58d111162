//! The ticks, and the run.

ghost use Rattle.std.specs.Bool.{OnTrue};
ghost use Rattle.std.specs.Prelude.{◌≡◌, ◌<◌, ◌∷◌, [], ℕ, Bool, List, Option, Some, true, false};
ghost use Rattle.typing_spec.specs.Program as typed;
ghost use Rattle.typed_ast.specs.View.{program_of};
ghost use Rattle.interp_store.specs.layer.Frames as on;
ghost use Rattle.interp_store.specs.layer.Agrees.{Takes};
ghost use Rattle.interp_store.specs.layer.Steps.{entered};
ghost use Rattle.interp_store.specs.layer.Views.{node_of, step_of};
ghost use Rattle.interp_store.specs.View.{store_of};
ghost use Rattle.interp_eval.specs.layer.Quick.{quick_node};
ghost use Rattle.csem.specs.History.{Entry};
ghost use Rattle.csem.specs.Store.{Store};
ghost use Rattle.cabs.specs.Interpreting.{Blames, Counts, IsShown, IsTold, RunMeets};
ghost use Rattle.cabs.specs.inside.Standing.{BlamesUntil, CountsUntil, Fresh, Knows, MeetsAt, Outset, RunStops, Runs, SettleMeets, Showing, ShowsAt, ShowsUntil, Spends, Stands, Whole};

use crate::acting::{act, finish};
use crate::observing::{Observer, Unobserved};
use crate::opening::sweep;
use crate::outcome::{Interpreted, Run};
use crate::quick_parts::at_once;
use crate::resting::{PERIOD, rest_at, rest_before};
use crate::state::Interpreter;
use interp_eval::quick::is_quick_node;
use interp_steps::nodes::enter;
use interp_store::frames::{Back, Node, Step};
use interp_store::stop::Stop;
use interp_transitions::calls::call_function;
use io_ports::Port;
use std::alloc::Global;
use typed_ast::{Callee, Program};

/// Reaches a node: the pending byte is written before its tick.
///
/// Errors: the port refused.
#[inline(always)]
fn reach<'p, P: Port>(
    interpreter: &mut Interpreter<'p>,
    port: &mut P,
    node: Node<'p>,
) -> Result<Node<'p>, Run>
    ensures meets { (h : List Entry) (p : typed.Program) (whole : Whole) (o : Outset) →
        Stands (λ g. g ≡ h) p whole o interpreter.old (on.enters (node_of node.entry)) (P.seen port.old) → SettleMeets (λ g. g ≡ h) p whole o result interpreter.new (P.seen port.new) }
    ensures counts { CountsUntil result (P.seen port.old).failures (P.seen port.new).failures }
    ensures fault { BlamesUntil (P.refused_with port.new) result }
{
    match interpreter.send(port) {
        Ok(()) => Ok(node),
        Err(fault) => Err(Run::Port(fault)),
    }
}

/// The node that takes the next tick, after the steps that take none.
///
/// Errors: how the run stops before it.
fn settle<'p, P: Port, O: Observer>(
    interpreter: &mut Interpreter<'p>,
    port: &mut P,
    observer: &mut O,
    first: Step<'p>,
) -> Result<Node<'p>, Run>
    ensures meets { (b : Bool) (p : typed.Program) (whole : Whole) (o : Outset) →
        Stands (Knows b (O.told observer.old)) p whole o interpreter.old (step_of first.entry) (P.seen port.old) → SettleMeets (Knows b (O.told observer.new)) p whole o result interpreter.new (P.seen port.new) }
    ensures shown { (l : List Store) → O.shown observer.old l → O.shown observer.new l }
    ensures always { O.always observer.old → O.always observer.new }
    ensures counts { CountsUntil result (P.seen port.old).failures (P.seen port.new).failures }
    ensures fault { BlamesUntil (P.refused_with port.new) result }
{
    let mut next = first;
    loop {
        if let Step::Enters(node) = next {
            return reach(interpreter, port, node);
        }
        match act(interpreter, port, observer, next) {
            Ok(then) => next = then,
            Err(run) => return Err(run),
        }
    }
}

/// Whether a node is evaluated as a whole: it has no call, and its ticks are not observed.
#[inline(always)]
fn is_whole<O: Observer>(observer: &O, node: &Node<'_>) -> bool
    ensures quick { OnTrue result (quick_node (node_of node.now) ≡ true) }
    ensures asked { O.always observer.now → result ≡ false }
{
    !observer.wants_ticks() && is_quick_node(node)
}

/// A node takes its tick, which is reported to the observer first.
///
/// Errors: why there is no next step.
#[inline(always)]
fn take_tick<'p, O: Observer>(
    interpreter: &mut Interpreter<'p>,
    observer: &mut O,
    node: Node<'p>,
) -> Result<Step<'p>, Stop>
    ensures takes { Takes (λ p s. entered p (node_of node.entry) s) interpreter.old.machine result interpreter.new.machine }
    ensures program { interpreter.new.machine.program ≡ interpreter.old.machine.program }
    ensures tally { interpreter.new.tally ≡ interpreter.old.tally }
    ensures kept { interpreter.new.kept ≡ interpreter.old.kept }
    ensures told { (h : List Entry) → O.told observer.old h → O.told observer.new h }
    ensures shown { (l : List Store) → O.shown observer.old l → O.shown observer.new (store_of interpreter.old.machine.scene.store ∷ l) }
    ensures always { O.always observer.old → O.always observer.new }
{
    observer.begins(&node, &interpreter.machine.scene);
    enter(&mut interpreter.machine, node)
}

/// Takes the next tick or ticks: the node as a whole if it has no call, else one tick and the step after it.
///
/// Errors: how the run stops.
fn tick<'p, P: Port, O: Observer>(
    interpreter: &mut Interpreter<'p>,
    port: &mut P,
    observer: &mut O,
    next: Step<'p>,
    spent: &mut u64,
    limit: u64,
) -> Result<Step<'p>, Run>
    requires room { spent.old < limit }
    ensures meets { (b : Bool) (p : typed.Program) (all : Whole) (o : Outset) →
        Runs (Knows b (O.told observer.old)) p all o spent.old interpreter.old (step_of next.entry) (P.seen port.old) → MeetsAt (Knows b (O.told observer.new)) p all o limit result spent.new interpreter.new (P.seen port.new) }
    ensures shows { (b : Bool) (p : typed.Program) (all : Whole) (o : Outset) →
        Runs (Knows b (O.told observer.old)) p all o spent.old interpreter.old (step_of next.entry) (P.seen port.old) → O.always observer.old → Showing (O.shown observer.old) all spent.old →
        ShowsAt (O.shown observer.new) all limit result spent.new }
    ensures always { O.always observer.old → O.always observer.new }
    ensures spends { Spends result spent.old spent.new limit }
    ensures counts { CountsUntil result (P.seen port.old).failures (P.seen port.new).failures }
    ensures fault { BlamesUntil (P.refused_with port.new) result }
{
    let node = match settle(interpreter, port, observer, next) {
        Ok(node) => node,
        Err(run) => return Err(run),
    };
    if is_whole(observer, &node) {
        rest_before(port, &node);
        return at_once(interpreter, &node, spent, limit);
    }
    if !observer.wants_ticks() {
        return sweep(interpreter, node, spent, limit);
    }
    *spent += 1;
    match take_tick(interpreter, observer, node) {
        Ok(then) => Ok(then),
        Err(stop) => Err(finish(interpreter, port, observer, stop)),
    }
}

/// Runs for at most this many ticks.
fn run_on<'p, P: Port, O: Observer>(
    interpreter: &mut Interpreter<'p>,
    port: &mut P,
    observer: &mut O,
    first: Step<'p>,
    ticks: u64,
) -> Run
    ensures meets { (b : Bool) (p : typed.Program) (all : Whole) (o : Outset) →
        Runs (Knows b (O.told observer.old)) p all o 0 interpreter.old (step_of first.entry) (P.seen port.old) → RunStops (Knows b (O.told observer.new)) p all o ticks result interpreter.new.tally (P.seen port.new) }
    ensures shows { (b : Bool) (p : typed.Program) (all : Whole) (o : Outset) →
        Runs (Knows b (O.told observer.old)) p all o 0 interpreter.old (step_of first.entry) (P.seen port.old) → O.always observer.old → Showing (O.shown observer.old) all 0 →
        ShowsUntil (O.shown observer.new) all ticks result }
    ensures counts { Counts result (P.seen port.old).failures (P.seen port.new).failures }
    ensures fault { Blames (P.refused_with port.new) result }
{
    let mut next = first;
    let mut spent = 0;
    let mut due = PERIOD;
    while spent < ticks {
        due = rest_at(port, spent, due);
        match tick(interpreter, port, observer, next, &mut spent, ticks) {
            Ok(then) => next = then,
            Err(run) => return run,
        }
    }
    match settle(interpreter, port, observer, next) {
        Ok(_) => Run::TicksUsed,
        Err(run) => run,
    }
}

/// The run, from the call of `main` on (5.1.2.2.1).
fn start<P: Port, O: Observer>(
    interpreter: &mut Interpreter<'_>,
    port: &mut P,
    observer: &mut O,
    ticks: u64,
) -> Run
    ensures meets { (b : Bool) (input : List ℕ) → (P.seen port.old).input ≡ Some input → Fresh interpreter.old → Knows b (O.told observer.old) [] → let p = program_of interpreter.old.machine.program.now in
        RunMeets p input ticks result interpreter.new.tally.greatest (P.seen port.old) (P.seen port.new) × OnTrue b (IsTold (O.told observer.new) p input ticks result) }
    ensures shown { (input : List ℕ) → (P.seen port.old).input ≡ Some input → Fresh interpreter.old → O.always observer.old → O.shown observer.old [] →
        IsShown (O.shown observer.new) (program_of interpreter.old.machine.program.now) input ticks result }
    ensures counts { Counts result (P.seen port.old).failures (P.seen port.new).failures }
    ensures fault { Blames (P.refused_with port.new) result }
{
    let main = interpreter.machine.program.main;
    match interpreter.count_call(observer, Callee::Function(main)) {
        Ok(()) => {}
        Err(_) => return Run::Memory,
    }
    match call_function(&mut interpreter.machine, Back::ToEnd, main, &[]) {
        Ok(first) => {
            observer.enters(main, &[], &interpreter.machine.scene);
            run_on(interpreter, port, observer, first, ticks)
        }
        Err(stop) => finish(interpreter, port, observer, stop),
    }
}

/// Runs `program` on the port's input for at most this many ticks (ISO/IEC 9899:2011 5.1.2.3). A tick is spent on each node that is
/// entered, each case that is tested, and each element that an initialiser gives a value.
///
/// Nested calls allocate memory and do not use the host's stack. `Run::Port` is returned only if the port's count of
/// failures rose. After that result, and after `Run::Memory`, the bytes read and written are a beginning of those of a run with no more
/// ticks, in their order.
pub fn interpret<P: Port>(alloc: Global, program: &Program, port: &mut P, ticks: u64) -> Interpreted
    ensures meets { (input : List ℕ) → (P.seen port.old).input ≡ Some input →
        RunMeets (program_of program.now) input ticks result.run result.greatest (P.seen port.old) (P.seen port.new) }
    ensures counts { Counts result.run (P.seen port.old).failures (P.seen port.new).failures }
    ensures fault { Blames (P.refused_with port.new) result.run }
{
    let mut nobody = Unobserved;
    observe(alloc, program, port, ticks, &mut nobody)
}

/// Does what `interpret` does, and reports the run to the observer while it goes on.
///
/// An observer that starts with an empty history receives the history of the abstract machine, unless the run is given up. One that always asks
/// for all ticks receives each of them as it comes, with the objects that the abstract machine has there.
pub fn observe<P: Port, O: Observer>(
    alloc: Global,
    program: &Program,
    port: &mut P,
    ticks: u64,
    observer: &mut O,
) -> Interpreted
    ensures meets { (input : List ℕ) → (P.seen port.old).input ≡ Some input →
        RunMeets (program_of program.now) input ticks result.run result.greatest (P.seen port.old) (P.seen port.new) }
    ensures told { (input : List ℕ) → (P.seen port.old).input ≡ Some input → O.told observer.old [] → IsTold (O.told observer.new) (program_of program.now) input ticks result.run }
    ensures shown { (input : List ℕ) → (P.seen port.old).input ≡ Some input → O.always observer.old → O.shown observer.old [] → IsShown (O.shown observer.new) (program_of program.now) input ticks result.run }
    ensures counts { Counts result.run (P.seen port.old).failures (P.seen port.new).failures }
    ensures fault { Blames (P.refused_with port.new) result.run }
{
    let mut interpreter = match Interpreter::new(alloc, program) {
        Ok(interpreter) => interpreter,
        Err(_) => {
            return Interpreted {
                run: Run::Memory,
                greatest: 0,
            };
        }
    };
    let run = start(&mut interpreter, port, observer, ticks);
    Interpreted {
        run,
        greatest: interpreter.tally.greatest,
    }
}
