//! The weights of the calls that are active.

ghost use Rattle.std.specs.Prelude.{◌≡◌, ◌+◌, ◌∷◌, [], ℕ, List, Option, IfErr, OnOk, map, max, reverse};
ghost use Rattle.typing_spec.specs.Program as typed;
ghost use Rattle.csem.specs.History.{Entered, Entry, Left, sum_of, weight_in};
ghost use Rattle.interp_store.specs.declared.stop.Stop.TheVariants.{Memory};
ghost use Rattle.interp_transitions.specs.Tallied.{Tells};

use interp_store::stop::Stop;
use std::alloc::Global;

/// The weights of the calls that are active, the innermost last, their sum, and the greatest sum that there was.
#[derive(Drop)]
pub struct Tally {
    pub weights: Vec<u64>,
    pub sum: u128,
    pub greatest: u128,
}

impl Tally {
    /// Before the first call.
    pub fn new(alloc: Global) -> Tally
        ensures { (p : typed.Program) → Tells p [] result }
    {
        Tally {
            weights: Vec::new(alloc),
            sum: 0,
            greatest: 0,
        }
    }

    /// A call begins.
    ///
    /// Errors: memory ran out.
    pub fn begin(&mut self, weight: u64) -> Result<(), Stop>
        ensures ok { (p : typed.Program) (h : List Entry) (f : ℕ) (arguments : List (Option ℕ)) → weight_in p f ≡ weight → Tells p h self.old →
            OnOk result (Tells p (Entered f arguments ∷ h) self.new) }
        ensures err { IfErr result (λ e. e ≡ Memory) }
    {
        let sum = with_one_more(self.weights.as_slice(), self.sum, weight);
        match self.weights.push(weight) {
            Ok(()) => {
                self.sum = sum;
                self.greatest = greater(self.greatest, sum);
                Ok(())
            }
            Err(_) => Err(Stop::Memory),
        }
    }

    /// The innermost call ends.
    pub fn end(&mut self)
        ensures { (p : typed.Program) (h : List Entry) (value : Option ℕ) → Tells p h self.old → Tells p (Left value ∷ h) self.new }
    {
        if let Some(weight) = self.weights.pop() {
            self.sum = self.sum.saturating_sub(u128::from(weight));
        }
    }
}

/// The sum of these weights, which is `before`, and one weight more.
#[inline(always)]
fn with_one_more(weights: &[u64], before: u128, weight: u64) -> u128
    ensures { (w : ℕ → ℕ) (fs : List ℕ) → weights.now ≡ reverse (map w fs) → before ≡ sum_of w fs → result ≡ weight + before }
{
    before.saturating_add(u128::from(weight))
}

/// The greater one of two numbers.
fn greater(a: u128, b: u128) -> u128
    ensures { result ≡ max b a }
{
    if a < b { b } else { a }
}
