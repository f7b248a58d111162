//! The machine with a stack of its own.

ghost use Rattle.std.specs.Prelude.{◌≡◌, ◌∷◌, ◌++◌, [], List, OnOk, IfErr, IfNone, IfSome, ℤ};
ghost use Rattle.csem.specs.Machine.{State, Run};
ghost use Rattle.csem.specs.Store as store;
ghost use Rattle.interp_store.specs.View.{reference_of};
ghost use Rattle.interp_store.specs.layer.Agrees.{Takes, Runs, Agrees, onto, number, frames_of};
ghost use Rattle.interp_store.specs.layer.Frames as on;
ghost use Rattle.interp_store.specs.layer.Steps.{at_once, goes, waits};
ghost use Rattle.interp_store.specs.layer.Views.{frame_of, node_of, found_of};
ghost use Rattle.interp_store.specs.declared.stop.Stop.TheVariants.{Memory};

use crate::frames::{Found, Frame, Node, Step};
use crate::kept::{Kept, keep, taken};
use crate::reference::Reference;
use crate::scene::Scene;
use crate::stop::Stop;
use std::alloc::Global;
use typed_ast::Program;

/// The machine: the waiting frames, and the objects of the run.
#[derive(Drop)]
pub struct Machine<'p> {
    pub alloc: Global,
    pub program: &'p Program,
    pub stack: Vec<Kept<'p>>,
    pub scene: Scene,
}

impl<'p> Machine<'p> {
    /// Pushes a frame.
    ///
    /// Errors: memory ran out.
    #[inline(always)]
    pub fn push(&mut self, frame: Frame<'p>) -> Result<(), Stop>
        ensures pushed { OnOk result (frames_of self.new ≡ frames_of self.old ++ frame_of frame.entry ∷ []) }
        ensures refused { IfErr result (λ e. e ≡ Memory) }
        ensures scene { self.new.scene ≡ self.old.scene }
        ensures program { self.new.program ≡ self.old.program }
    {
        let kept = match keep(self.alloc, frame) {
            Ok(kept) => kept,
            Err(stop) => return Err(stop),
        };
        match self.stack.push(kept) {
            Ok(()) => Ok(()),
            Err(_) => Err(Stop::Memory),
        }
    }

    /// Pops the innermost frame.
    #[inline(always)]
    pub fn pop(&mut self) -> Option<Frame<'p>>
        ensures empty { IfNone result (frames_of self.old ≡ []) }
        ensures frame { IfSome result (λ frame. frames_of self.old ≡ frames_of self.new ++ frame_of frame ∷ []) }
        ensures scene { self.new.scene ≡ self.old.scene }
        ensures program { self.new.program ≡ self.old.program }
    {
        match self.stack.pop() {
            None => None,
            Some(kept) => Some(taken(self.alloc, kept)),
        }
    }

    /// Pushes a frame that waits for the result of a node.
    ///
    /// Errors: memory ran out.
    #[inline(always)]
    pub fn wait(&mut self, frame: Frame<'p>, node: Node<'p>) -> Result<Step<'p>, Stop>
        ensures takes { Takes (λ p s. waits (frame_of frame.entry) (node_of node.entry) s) self.old result self.new }
        ensures program { self.new.program ≡ self.old.program }
    {
        match self.push(frame) {
            Ok(()) => Ok(Step::Enters(node)),
            Err(stop) => Err(stop),
        }
    }
}

/// A value that is given at once.
///
/// Errors: why there is none.
#[inline(always)]
pub fn gives_value<'p>(value: Result<i64, Stop>) -> Result<Step<'p>, Stop>
    ensures { (run : Run ℤ) (s : State) (fs : List on.Frame) → Runs number run value s → Agrees (onto fs (at_once on.a_value run)) result fs s }
{
    match value {
        Ok(v) => Ok(Step::Leaves(Found::Value(v))),
        Err(stop) => Err(stop),
    }
}

/// A place that is given at once.
///
/// Errors: why there is none.
#[inline(always)]
pub fn gives_place<'p>(place: Result<Reference, Stop>) -> Result<Step<'p>, Stop>
    ensures { (run : Run store.Reference) (s : State) (fs : List on.Frame) → Runs reference_of run place s →
        Agrees (onto fs (at_once on.a_place run)) result fs s }
{
    match place {
        Ok(r) => Ok(Step::Leaves(Found::Place(r))),
        Err(stop) => Err(stop),
    }
}
