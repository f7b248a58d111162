//! The interpreter's state, with what it has reported so far.

ghost use Rattle.std.specs.Prelude.{◌≡◌, ◌∷◌, [], Some, None, Ok, List, Option, ℕ, IfErr, IfOk, MatchResult, OnOk};
ghost use Rattle.std.specs.Io.KnownBytes.{Appends, Keeps};
ghost use Rattle.typing_spec.specs.Program as typed;
ghost use Rattle.typed_ast.specs.View.{callee_of, program_of};
ghost use Rattle.csem.specs.History.{Entered, Entry, weight_in};
ghost use Rattle.csem.specs.Store.{Store, first_store};
ghost use Rattle.csem.specs.Expressions.{Passed};
ghost use Rattle.interp_store.specs.declared.stop.Stop.TheVariants.{Memory};
ghost use Rattle.interp_store.specs.layer.Agrees.{Outside, frames_of, state_in};
ghost use Rattle.interp_store.specs.layer.Views.{flow_frame, found_of, frame_of, kept_of};
ghost use Rattle.interp_transitions.specs.Tallied.{Tells};
ghost use Rattle.io_ports.specs.Port.{Rises};
ghost use Rattle.cabs.specs.inside.Standing.{history_called, history_left, is_flow, is_return, waiting};

use crate::first_objects::first_store;
use crate::leaving::is_call;
use crate::observing::Observer;
use interp_store::frames::{FlowFrame, Found, Frame};
use interp_store::kept::Kept;
use interp_store::machine::Machine;
use interp_store::scene::Scene;
use interp_store::stop::Stop;
use interp_transitions::tally::Tally;
use io_ports::{Port, PortFault};
use std::alloc::Global;
use typed_ast::{Callee, Program};

/// A run between two steps: the machine, the weights of the active calls, and a byte that is pending.
///
/// A byte goes to the port with the next tick, or before the next byte that the same tick reads or writes. So after a refusal
/// the output is that of a whole number of ticks, unless one tick reads or writes several bytes.
#[derive(Drop)]
pub struct Interpreter<'p> {
    pub machine: Machine<'p>,
    pub tally: Tally,
    pub kept: Option<u8>,
}

impl<'p> Interpreter<'p> {
    /// Before `main` is called (5.1.2p1).
    ///
    /// Errors: memory ran out.
    pub fn new(alloc: Global, program: &'p Program) -> Result<Interpreter<'p>, Stop>
        ensures frames { IfOk result (λ i. frames_of i.machine ≡ []) }
        ensures state { (o : Outside) → IfOk result (λ i. state_in i.machine.scene o ≡
            record { clock = o.clock; store = first_store (program_of program.now); base = 0; arrays = []; input = o.input; history = o.history }) }
        ensures program { IfOk result (λ i. i.machine.program ≡ program.entry) }
        ensures kept { IfOk result (λ i. i.kept ≡ None) }
        ensures tally { (p : typed.Program) → IfOk result (λ i. Tells p [] i.tally) }
        ensures err { IfErr result (λ e. e ≡ Memory) }
    {
        let store = match first_store(alloc, program) {
            Ok(store) => store,
            Err(stop) => return Err(stop),
        };
        Ok(Interpreter {
            machine: Machine {
                alloc,
                program,
                stack: Vec::new(alloc),
                scene: Scene {
                    store,
                    base: 0,
                    arrays: Vec::new(alloc),
                },
            },
            tally: Tally::new(alloc),
            kept: None,
        })
    }

    /// Writes the pending byte to the port.
    #[inline(always)]
    pub fn send<P: Port>(&mut self, port: &mut P) -> Result<(), PortFault>
        ensures input { Keeps (P.seen port.old).input (P.seen port.new).input }
        ensures output { MatchResult result (λ _. Appends (P.seen port.old).output (P.seen port.new).output (waiting self.old.kept)) (λ _. Keeps (P.seen port.old).output (P.seen port.new).output) }
        ensures kept { OnOk result (self.new.kept ≡ None) }
        ensures machine { self.new.machine ≡ self.old.machine }
        ensures tally { self.new.tally ≡ self.old.tally }
        ensures counts { MatchResult result (λ _. (P.seen port.new).failures ≡ (P.seen port.old).failures) (λ _. Rises (P.seen port.old).failures (P.seen port.new).failures) }
        ensures fault { IfErr result (P.refused_with port.new) }
    {
        match self.kept {
            None => Ok(()),
            Some(byte) => match port.put(byte) {
                Ok(()) => {
                    self.kept = None;
                    Ok(())
                }
                Err(fault) => Err(fault),
            },
        }
    }

    /// Ends a call if this frame was waiting for a call's body.
    #[inline(always)]
    pub fn count_end<O: Observer>(&mut self, observer: &mut O, frame: &Frame<'p>, found: &Found)
        ensures tells { (p : typed.Program) (h : List Entry) → Tells p h self.old.tally → Tells p (history_left (frame_of frame.now) (found_of found.now) h) self.new.tally }
        ensures told { (h : List Entry) → O.told observer.old h → O.told observer.new (history_left (frame_of frame.now) (found_of found.now) h) }
        ensures shown { (l : List Store) → O.shown observer.old l → O.shown observer.new l }
        ensures always { O.always observer.old → O.always observer.new }
        ensures machine { self.new.machine ≡ self.old.machine }
        ensures kept { self.new.kept ≡ self.old.kept }
    {
        if is_flow(found) && is_return(frame) {
            self.tally.end();
            observer.ends();
        }
    }

    /// The same, of a frame as the stack stores it.
    #[inline(always)]
    pub fn end_call<O: Observer>(&mut self, observer: &mut O, kept: &Kept<'p>, found: &Found)
        ensures tells { (p : typed.Program) (h : List Entry) → Tells p h self.old.tally → Tells p (history_left (kept_of kept.now) (found_of found.now) h) self.new.tally }
        ensures told { (h : List Entry) → O.told observer.old h → O.told observer.new (history_left (kept_of kept.now) (found_of found.now) h) }
        ensures shown { (l : List Store) → O.shown observer.old l → O.shown observer.new l }
        ensures always { O.always observer.old → O.always observer.new }
        ensures machine { self.new.machine ≡ self.old.machine }
        ensures kept { self.new.kept ≡ self.old.kept }
    {
        if is_flow(found) && is_call(kept) {
            self.tally.end();
            observer.ends();
        }
    }

    /// Begins the call of a function that has a definition.
    ///
    /// Errors: memory ran out.
    pub fn count_call<O: Observer>(&mut self, observer: &mut O, callee: Callee) -> Result<(), Stop>
        ensures tells { (passed : List Passed) (h : List Entry) → let p = program_of self.old.machine.program.now in
            Tells p h self.old.tally → OnOk result (Tells p (history_called p (callee_of callee) passed h) self.new.tally) }
        ensures told { (passed : List Passed) (h : List Entry) → let p = program_of self.old.machine.program.now in
            O.told observer.old h → OnOk result (O.told observer.new (history_called p (callee_of callee) passed h)) }
        ensures shown { (l : List Store) → O.shown observer.old l → O.shown observer.new l }
        ensures always { O.always observer.old → O.always observer.new }
        ensures machine { self.new.machine ≡ self.old.machine }
        ensures kept { self.new.kept ≡ self.old.kept }
        ensures err { IfErr result (λ e. e ≡ Memory) }
    {
        match callee {
            Callee::Function(f) => self.count_function(observer, f),
            Callee::GetByte => Ok(()),
            Callee::PutByte => Ok(()),
            Callee::Exit => Ok(()),
            Callee::Missing(_) => Ok(()),
        }
    }

    /// Begins the call of function `f` if that has a definition.
    ///
    /// Errors: memory ran out.
    fn count_function<O: Observer>(&mut self, observer: &mut O, f: usize) -> Result<(), Stop>
        ensures tells { (passed : List Passed) (h : List Entry) → let p = program_of self.old.machine.program.now in
            Tells p h self.old.tally → OnOk result (Tells p (history_called p (typed.function f) passed h) self.new.tally) }
        ensures told { (passed : List Passed) (h : List Entry) → let p = program_of self.old.machine.program.now in
            O.told observer.old h → OnOk result (O.told observer.new (history_called p (typed.function f) passed h)) }
        ensures shown { (l : List Store) → O.shown observer.old l → O.shown observer.new l }
        ensures always { O.always observer.old → O.always observer.new }
        ensures machine { self.new.machine ≡ self.old.machine }
        ensures kept { self.new.kept ≡ self.old.kept }
        ensures err { IfErr result (λ e. e ≡ Memory) }
    {
        let program = self.machine.program;
        match program.functions.get(f) {
            None => Ok(()),
            Some(g) => self.begin_call(observer, f, g.weight),
        }
    }

    /// Begins the call of function `f`, which has this weight.
    ///
    /// Errors: memory ran out.
    fn begin_call<O: Observer>(
        &mut self,
        observer: &mut O,
        f: usize,
        weight: u64,
    ) -> Result<(), Stop>
        ensures tells { (p : typed.Program) (h : List Entry) (arguments : List (Option ℕ)) → weight_in p f ≡ weight → Tells p h self.old.tally →
            OnOk result (Tells p (Entered f arguments ∷ h) self.new.tally) }
        ensures told { (arguments : List (Option ℕ)) (h : List Entry) → O.told observer.old h → OnOk result (O.told observer.new (Entered f arguments ∷ h)) }
        ensures shown { (l : List Store) → O.shown observer.old l → O.shown observer.new l }
        ensures always { O.always observer.old → O.always observer.new }
        ensures machine { self.new.machine ≡ self.old.machine }
        ensures kept { self.new.kept ≡ self.old.kept }
        ensures err { IfErr result (λ e. e ≡ Memory) }
    {
        match self.tally.begin(weight) {
            Ok(()) => {
                observer.calls(f);
                Ok(())
            }
            Err(stop) => Err(stop),
        }
    }
}

/// Whether a frame waits for a call's body.
#[inline(always)]
pub fn is_return(frame: &Frame<'_>) -> bool
    ensures { result ≡ is_return (frame_of frame.now) }
{
    match frame {
        Frame::Place(_) => false,
        Frame::Operand(_) => false,
        Frame::Control(_) => false,
        Frame::Flow(f) => is_return_flow(f),
        Frame::Initialiser(_) => false,
    }
}

#[inline(always)]
fn is_return_flow(frame: &FlowFrame<'_>) -> bool
    ensures { result ≡ is_return (flow_frame frame.now) }
{
    match frame {
        FlowFrame::Returns(_) => true,
        FlowFrame::Rest(_, _) => false,
        FlowFrame::InSwitch => false,
        FlowFrame::Turn(_) => false,
        FlowFrame::ForStarts(_, _) => false,
    }
}

/// Whether a statement has ended.
#[inline(always)]
fn is_flow(found: &Found) -> bool
    ensures { result ≡ is_flow (found_of found.now) }
{
    match found {
        Found::Value(_) => false,
        Found::Place(_) => false,
        Found::Flow(_) => true,
        Found::Initialised => false,
    }
}
