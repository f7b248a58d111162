//! Runs of the machine that is kept.

ghost use Rattle.std.specs.Prelude.{◌≡◌};
ghost use Rattle.machine_kept.specs.Standing.{answer_of};
ghost use Rattle.machine_kept.specs.Kept.{Runs, GoesOn, stopped_by, took};

use crate::kept::Kept;
use crate::stepping::{Halt, Reached, run_to};
use io_ports::PortFault;
use sim::Outcome;

impl Kept {
    /// Runs at most `max` instructions, or, once it has done one, to where the one at the address `halt` is next. Returns 0 where it goes on, 1 where it ended,
    /// 2 where it trapped, 3 where memory ran out for the output, and 5 where it needs input. After 1 and 2 it returns the same again, and nothing changes.
    pub fn run(&mut self, max: u64, halt: u64) -> u64
        ensures { Runs max halt self.old result self.new }
    {
        match self.stopped {
            Some(outcome) => number(outcome),
            None => self.go_on(max, halt),
        }
    }

    fn go_on(&mut self, max: u64, halt: u64) -> u64
        ensures { GoesOn max halt self.old result self.new }
    {
        let halt = Halt {
            after: 1,
            at: (halt % 0x1_0000_0000) as u32,
        };
        let reached = run_to(&mut self.state, &mut self.port, max, halt);
        self.steps = self.steps.saturating_add(took(reached));
        self.stopped = stopped_by(reached.outcome);
        number(reached.outcome)
    }
}

/// How many instructions were taken: a call that the port refused was not.
fn took(reached: Reached) -> u64
    ensures { result ≡ took reached }
{
    match reached.outcome {
        Outcome::Budget => reached.steps,
        Outcome::Ended(_) => reached.steps,
        Outcome::Trapped(_, _) => reached.steps,
        Outcome::Port(_) => reached.steps.saturating_sub(1),
    }
}

/// The outcome with which it stopped, where it did.
fn stopped_by(outcome: Outcome) -> Option<Outcome>
    ensures { result ≡ stopped_by outcome }
{
    match outcome {
        Outcome::Budget => None,
        Outcome::Ended(_) => Some(outcome),
        Outcome::Trapped(_, _) => Some(outcome),
        Outcome::Port(_) => None,
    }
}

/// The number of an outcome.
fn number(outcome: Outcome) -> u64
    ensures { result ≡ answer_of outcome }
{
    match outcome {
        Outcome::Budget => 0,
        Outcome::Ended(_) => 1,
        Outcome::Trapped(_, _) => 2,
        Outcome::Port(PortFault::Memory) => 3,
        Outcome::Port(PortFault::Read) => 5,
        Outcome::Port(PortFault::Write) => 3,
    }
}
