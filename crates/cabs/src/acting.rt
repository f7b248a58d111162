//! Steps that take no tick: at the port and between calls.

ghost use Rattle.std.specs.Prelude.{◌≡◌, ℕ, Bool, List, IfErr, IfOk, Option, map};
ghost use Rattle.srcset.specs.declared.refusal.Pos.{Pos};
ghost use Rattle.ctypes.specs.Types.{modulo};
ghost use Rattle.typed_ast.specs.View.{callee_of};
ghost use Rattle.csem.specs.Expressions as meaning;
ghost use Rattle.csem.specs.History.{Entry};
ghost use Rattle.csem.specs.Store.{Store};
ghost use Rattle.typing_spec.specs.Program as typed;
ghost use Rattle.interp_store.specs.layer.Frames as on;
ghost use Rattle.interp_store.specs.layer.Agrees.{frames_of};
ghost use Rattle.interp_store.specs.layer.Views.{found_of, passed_of, step_of};
ghost use Rattle.cabs.specs.Interpreting.{Blames, Counts};
ghost use Rattle.cabs.specs.inside.Standing.{ActMeets, BlamesUntil, CountsUntil, IsLeft, Knows, Nears, NearsFrom, Outset, Stands, StoppedBy, StoppingBy, Whole};

use crate::leaving::{leave_kept, pop};
use crate::observing::Observer;
use crate::outcome::Run;
use crate::state::Interpreter;
use interp_store::frames::{Found, Passed, Step};
use interp_store::stop::Stop;
use interp_transitions::calling::{Called, call};
use interp_transitions::leaving::leave;
use io_ports::Port;
use srcset::Pos;
use typed_ast::Callee;

/// Stops the run, after the pending byte is written.
pub fn finish<P: Port, O: Observer>(
    interpreter: &mut Interpreter<'_>,
    port: &mut P,
    observer: &mut O,
    stop: Stop,
) -> Run
    ensures meets { (b : Bool) (p : typed.Program) (whole : Whole) (o : Outset) →
        StoppingBy (Knows b (O.told observer.old)) p whole o stop interpreter.old (P.seen port.old) → StoppedBy (Knows b (O.told observer.new)) p whole o result interpreter.new.tally (P.seen port.new) }
    ensures counts { Counts result (P.seen port.old).failures (P.seen port.new).failures }
    ensures fault { Blames (P.refused_with port.new) result }
    ensures shown { (l : List Store) → O.shown observer.old l → O.shown observer.new l }
    ensures always { O.always observer.old → O.always observer.new }
{
    observer.stops(&stop);
    match stop {
        Stop::Memory => Run::Memory,
        Stop::Ended(status) => match interpreter.send(port) {
            Ok(()) => Run::Ended(status),
            Err(fault) => Run::Port(fault),
        },
        Stop::Undefined(act, at) => match interpreter.send(port) {
            Ok(()) => Run::Undefined(act, at),
            Err(fault) => Run::Port(fault),
        },
    }
}

/// Passes a result to the innermost frame, and reports nothing but the end of a call.
///
/// Errors: how the run stops.
fn act_unseen<'p, P: Port, O: Observer>(
    interpreter: &mut Interpreter<'p>,
    port: &mut P,
    observer: &mut O,
    found: Found,
) -> Result<Step<'p>, Run>
    ensures meets { (b : Bool) (p : typed.Program) (whole : Whole) (o : Outset) →
        Stands (Knows b (O.told observer.old)) p whole o interpreter.old (on.leaves (found_of found)) (P.seen port.old) → ActMeets (Knows b (O.told observer.new)) p whole o result interpreter.new (P.seen port.new) }
    ensures nears { Nears (frames_of interpreter.old.machine) (on.leaves (found_of found)) result (frames_of interpreter.new.machine) }
    ensures counts { CountsUntil result (P.seen port.old).failures (P.seen port.new).failures }
    ensures fault { BlamesUntil (P.refused_with port.new) result }
    ensures shown { (l : List Store) → O.shown observer.old l → O.shown observer.new l }
    ensures always { O.always observer.old → O.always observer.new }
{
    let Some(kept) = pop(&mut interpreter.machine) else {
        return Err(Run::TicksUsed);
    };
    interpreter.end_call(observer, &kept, &found);
    match leave_kept(&mut interpreter.machine, kept, found) {
        Ok(step) => Ok(step),
        Err(stop) => Err(finish(interpreter, port, observer, stop)),
    }
}

/// Passes a result to the innermost frame.
///
/// Errors: how the run stops. If no frame waits, the ticks pass; the run of a program never reaches that state.
fn act_found<'p, P: Port, O: Observer>(
    interpreter: &mut Interpreter<'p>,
    port: &mut P,
    observer: &mut O,
    found: Found,
) -> Result<Step<'p>, Run>
    ensures meets { (b : Bool) (p : typed.Program) (whole : Whole) (o : Outset) →
        Stands (Knows b (O.told observer.old)) p whole o interpreter.old (on.leaves (found_of found)) (P.seen port.old) → ActMeets (Knows b (O.told observer.new)) p whole o result interpreter.new (P.seen port.new) }
    ensures nears { Nears (frames_of interpreter.old.machine) (on.leaves (found_of found)) result (frames_of interpreter.new.machine) }
    ensures counts { CountsUntil result (P.seen port.old).failures (P.seen port.new).failures }
    ensures fault { BlamesUntil (P.refused_with port.new) result }
    ensures shown { (l : List Store) → O.shown observer.old l → O.shown observer.new l }
    ensures always { O.always observer.old → O.always observer.new }
{
    if !observer.wants_ticks() {
        return act_unseen(interpreter, port, observer, found);
    }
    let Some(frame) = interpreter.machine.pop() else {
        return Err(Run::TicksUsed);
    };
    observer.finds(&frame, &found, &interpreter.machine.scene);
    interpreter.count_end(observer, &frame, &found);
    match leave(&mut interpreter.machine, frame, found) {
        Ok(step) => {
            observer.has_done(&interpreter.machine.scene);
            Ok(step)
        }
        Err(stop) => Err(finish(interpreter, port, observer, stop)),
    }
}

/// Reads the next byte of the input, or returns -1 at its end. The pending byte is written first.
///
/// Errors: the port refused.
fn get<'p, P: Port, O: Observer>(
    interpreter: &mut Interpreter<'p>,
    port: &mut P,
    observer: &mut O,
) -> Result<Step<'p>, Run>
    ensures meets { (b : Bool) (p : typed.Program) (whole : Whole) (o : Outset) (at : Pos) (used : Bool) (passed : List meaning.Passed) →
        Stands (Knows b (O.told observer.old)) p whole o interpreter.old (on.calls at typed.get_byte used passed) (P.seen port.old) → ActMeets (Knows b (O.told observer.new)) p whole o result interpreter.new (P.seen port.new) }
    ensures found { IfOk result (λ x. IsLeft x) }
    ensures machine { interpreter.new.machine ≡ interpreter.old.machine }
    ensures counts { CountsUntil result (P.seen port.old).failures (P.seen port.new).failures }
    ensures fault { BlamesUntil (P.refused_with port.new) result }
    ensures shown { (l : List Store) → O.shown observer.old l → O.shown observer.new l }
    ensures always { O.always observer.old → O.always observer.new }
{
    match interpreter.send(port) {
        Ok(()) => {}
        Err(fault) => return Err(Run::Port(fault)),
    }
    match port.get() {
        Ok(Some(byte)) => {
            observer.gets(Some(byte));
            Ok(Step::Leaves(Found::Value(i64::from(byte))))
        }
        Ok(None) => {
            observer.gets(None);
            Ok(Step::Leaves(Found::Value(-1)))
        }
        Err(fault) => Err(Run::Port(fault)),
    }
}

/// Makes a byte pending, to be written. The byte that was pending is written first.
///
/// Errors: the port refused.
fn put<'p, P: Port, O: Observer>(
    interpreter: &mut Interpreter<'p>,
    port: &mut P,
    observer: &mut O,
    byte: u8,
) -> Result<Step<'p>, Run>
    ensures meets { (b : Bool) (p : typed.Program) (whole : Whole) (o : Outset) (at : Pos) (used : Bool) (passed : List meaning.Passed) →
        byte ≡ modulo 8 (meaning.first_number passed) →
        Stands (Knows b (O.told observer.old)) p whole o interpreter.old (on.calls at typed.put_byte used passed) (P.seen port.old) → ActMeets (Knows b (O.told observer.new)) p whole o result interpreter.new (P.seen port.new) }
    ensures found { IfOk result (λ x. IsLeft x) }
    ensures machine { interpreter.new.machine ≡ interpreter.old.machine }
    ensures counts { CountsUntil result (P.seen port.old).failures (P.seen port.new).failures }
    ensures fault { BlamesUntil (P.refused_with port.new) result }
    ensures shown { (l : List Store) → O.shown observer.old l → O.shown observer.new l }
    ensures always { O.always observer.old → O.always observer.new }
{
    match interpreter.send(port) {
        Ok(()) => {
            interpreter.kept = Some(byte);
            observer.puts(byte);
            Ok(Step::Leaves(Found::Value(0)))
        }
        Err(fault) => Err(Run::Port(fault)),
    }
}

/// Reports that a function of the program was entered.
fn tell_call<O: Observer>(
    interpreter: &Interpreter<'_>,
    observer: &mut O,
    callee: Callee,
    passed: &[Passed],
)
    ensures told { (h : List Entry) → O.told observer.old h → O.told observer.new h }
    ensures shown { (l : List Store) → O.shown observer.old l → O.shown observer.new l }
    ensures always { O.always observer.old → O.always observer.new }
{
    if let Callee::Function(f) = callee {
        observer.enters(f, passed, &interpreter.machine.scene);
    }
}

/// A call whose arguments have been evaluated.
///
/// Errors: how the run stops.
fn act_call<'p, P: Port, O: Observer>(
    interpreter: &mut Interpreter<'p>,
    port: &mut P,
    observer: &mut O,
    at: Pos,
    callee: Callee,
    used: bool,
    passed: &[Passed],
) -> Result<Step<'p>, Run>
    ensures meets { (b : Bool) (p : typed.Program) (whole : Whole) (o : Outset) →
        Stands (Knows b (O.told observer.old)) p whole o interpreter.old (on.calls at (callee_of callee) used (map passed_of passed.now)) (P.seen port.old) →
        ActMeets (Knows b (O.told observer.new)) p whole o result interpreter.new (P.seen port.new) }
    ensures nears { Nears (frames_of interpreter.old.machine) (on.calls at (callee_of callee) used (map passed_of passed.now)) result (frames_of interpreter.new.machine) }
    ensures counts { CountsUntil result (P.seen port.old).failures (P.seen port.new).failures }
    ensures fault { BlamesUntil (P.refused_with port.new) result }
    ensures shown { (l : List Store) → O.shown observer.old l → O.shown observer.new l }
    ensures always { O.always observer.old → O.always observer.new }
{
    match interpreter.count_call(observer, callee) {
        Ok(()) => {}
        Err(_) => return Err(Run::Memory),
    }
    match call(&mut interpreter.machine, at, callee, used, passed) {
        Ok(Called::Step(step)) => {
            tell_call(interpreter, observer, callee, passed);
            Ok(step)
        }
        Ok(Called::Gets) => get(interpreter, port, observer),
        Ok(Called::Puts(byte)) => put(interpreter, port, observer, byte),
        Err(stop) => Err(finish(interpreter, port, observer, stop)),
    }
}

/// One step, which takes no tick; a node is returned as it is.
///
/// Errors: how the run stops.
pub fn act<'p, P: Port, O: Observer>(
    interpreter: &mut Interpreter<'p>,
    port: &mut P,
    observer: &mut O,
    next: Step<'p>,
) -> Result<Step<'p>, Run>
    ensures meets { (b : Bool) (p : typed.Program) (whole : Whole) (o : Outset) →
        Stands (Knows b (O.told observer.old)) p whole o interpreter.old (step_of next.entry) (P.seen port.old) → ActMeets (Knows b (O.told observer.new)) p whole o result interpreter.new (P.seen port.new) }
    ensures nears { NearsFrom (frames_of interpreter.old.machine) (step_of next.entry) result (frames_of interpreter.new.machine) }
    ensures counts { CountsUntil result (P.seen port.old).failures (P.seen port.new).failures }
    ensures fault { BlamesUntil (P.refused_with port.new) result }
    ensures shown { (l : List Store) → O.shown observer.old l → O.shown observer.new l }
    ensures always { O.always observer.old → O.always observer.new }
{
    match next {
        Step::Enters(node) => Ok(Step::Enters(node)),
        Step::Leaves(found) => act_found(interpreter, port, observer, found),
        Step::Calls(at, callee, used, passed) => {
            act_call(
                interpreter,
                port,
                observer,
                at,
                callee,
                used,
                passed.as_slice(),
            )
        }
    }
}
