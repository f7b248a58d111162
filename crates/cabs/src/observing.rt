//! The observer of a run.

ghost use Rattle.std.specs.Prelude.{◌≡◌, ◌∷◌, List, Option, ℕ, true};
ghost use Rattle.csem.specs.History.{Did, Entered, Entry, Left};
ghost use Rattle.csem.specs.Store.{Store};
ghost use Rattle.csem_events.specs.Events.{Put};
ghost use Rattle.interp_store.specs.View.{store_of};
ghost use Rattle.cabs.specs.Interpreting.{got_of};

use interp_store::frames::{Found, Frame, Node, Passed};
use interp_store::scene::Scene;
use interp_store::stop::Stop;

/// Receives what a run does, in the order in which it does it, and changes nothing of the run.
///
/// The beginnings and ends of calls and the bytes read and written are the run's history (ISO/IEC 9899:2011 5.1.2.3). An observer can state what it
/// knows of the history that was reported to it, and `observe` promises that this is the history of the abstract machine. One that always asks for
/// all ticks can also state which objects it was shown at them, and `observe` promises that these are the objects of the abstract machine there.
pub trait Observer {
    // That this history was reported to it, the newest entry first. By default nothing is known of it.
    ghost told: { Self → List Entry → Type 0 } = { λ _ _. Unit {0} };

    // That it was shown these objects at the ticks, those of the last tick first. By default nothing is known of it.
    ghost shown: { Self → List Store → Type 0 } = { λ _ _. Unit {0} };

    // That from here on it asks for all ticks. By default that is not known.
    ghost always: { Self → Type 0 } = { λ _. ⊥ };

    /// Whether all ticks are reported to it. If not, what calls nothing is evaluated as a whole, and neither ticks nor results need be
    /// reported: only calls, their ends and bytes always are.
    fn wants_ticks(&self) -> bool
        ensures { always self.now → result ≡ true };

    /// A part of the program takes the next tick; these are the objects before it.
    fn begins(&mut self, node: &Node<'_>, scene: &Scene)
        ensures told { (h : List Entry) → told self.old h → told self.new h }
        ensures shown { (l : List Store) → shown self.old l → shown self.new (store_of scene.now.store ∷ l) }
        ensures always { always self.old → always self.new };

    /// A result is passed to the innermost frame.
    #[inline(always)]
    fn finds(&mut self, _frame: &Frame<'_>, _found: &Found, _scene: &Scene)
        ensures told { (h : List Entry) → told self.old h → told self.new h }
        ensures shown { (l : List Store) → shown self.old l → shown self.new l }
        ensures always { always self.old → always self.new }
    {}

    /// What `finds` last reported is done, and the objects are as they are after it. It is not reported if the run stops there.
    #[inline(always)]
    fn has_done(&mut self, _scene: &Scene)
        ensures told { (h : List Entry) → told self.old h → told self.new h }
        ensures shown { (l : List Store) → shown self.old l → shown self.new l }
        ensures always { always self.old → always self.new }
    {}

    /// The run stops in this way.
    #[inline(always)]
    fn stops(&mut self, _stop: &Stop)
        ensures told { (h : List Entry) → told self.old h → told self.new h }
        ensures shown { (l : List Store) → shown self.old l → shown self.new l }
        ensures always { always self.old → always self.new }
    {}

    /// The function of this number was entered with these arguments; the objects are those of its call.
    #[inline(always)]
    fn enters(&mut self, _function: usize, _passed: &[Passed], _scene: &Scene)
        ensures told { (h : List Entry) → told self.old h → told self.new h }
        ensures shown { (l : List Store) → shown self.old l → shown self.new l }
        ensures always { always self.old → always self.new }
    {}

    /// A call of the function of this number begins.
    fn calls(&mut self, function: usize)
        ensures told { (arguments : List (Option ℕ)) (h : List Entry) → told self.old h → told self.new (Entered function arguments ∷ h) }
        ensures shown { (l : List Store) → shown self.old l → shown self.new l }
        ensures always { always self.old → always self.new };

    /// The innermost call ends.
    fn ends(&mut self)
        ensures told { (value : Option ℕ) (h : List Entry) → told self.old h → told self.new (Left value ∷ h) }
        ensures shown { (l : List Store) → shown self.old l → shown self.new l }
        ensures always { always self.old → always self.new };

    /// A byte of the input was read, or its end was reached.
    fn gets(&mut self, byte: Option<u8>)
        ensures told { (h : List Entry) → told self.old h → told self.new (Did (got_of byte) ∷ h) }
        ensures shown { (l : List Store) → shown self.old l → shown self.new l }
        ensures always { always self.old → always self.new };

    /// A byte is to be written. It goes to the port with the next tick.
    fn puts(&mut self, byte: u8)
        ensures told { (h : List Entry) → told self.old h → told self.new (Did (Put byte) ∷ h) }
        ensures shown { (l : List Store) → shown self.old l → shown self.new l }
        ensures always { always self.old → always self.new };
}

/// Ignores all reports.
#[derive(Clone, Copy, Debug, PartialEq, Eq)]
pub struct Unobserved;

impl Observer for Unobserved {
    #[inline(always)]
    fn wants_ticks(&self) -> bool {
        false
    }

    #[inline(always)]
    fn begins(&mut self, _node: &Node<'_>, _scene: &Scene) {}

    #[inline(always)]
    fn calls(&mut self, _function: usize) {}

    #[inline(always)]
    fn ends(&mut self) {}

    #[inline(always)]
    fn gets(&mut self, _byte: Option<u8>) {}

    #[inline(always)]
    fn puts(&mut self, _byte: u8) {}
}
