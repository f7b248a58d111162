//! The environment call, for code that steps a machine itself.

ghost use Rattle.std.specs.Prelude.{◌≡◌, ℕ, List, Option};
ghost use Rattle.rv32.specs.Step.{machine_of, step_of};
ghost use Rattle.sim.specs.Runs.{World, call_of};
ghost use Rattle.sim.specs.Meets.{At};
ghost use Rattle.sim.specs.Ticks.{TickMeets, CountsTick, BlamesTick, AsksTick, Stops};

use crate::machine::Outcome;
use crate::tick::call;
use io_ports::Port;
use rv32::state::{State, StepResult};

/// The environment call that the registers request: the effect of a run where the instruction at the pc is ECALL. `None` where the run goes on.
/// The address is tested before the port is called, and a port that refuses leaves the state as it was.
pub fn environment_call<P: Port>(state: &mut State, port: &mut P) -> Option<Outcome>
    requires { (step_of (machine_of state.old)).result ≡ StepResult.Call }
    ensures meets { (o : Option (List ℕ)) (w : World) → At o w (machine_of state.old) (P.seen port.old) →
        TickMeets o w (call_of w) result (machine_of state.new) (P.seen port.new) }
    ensures counts { CountsTick result (P.seen port.old).failures (P.seen port.new).failures }
    ensures fault { BlamesTick (P.refused_with port.new) result }
    ensures asks { AsksTick result (machine_of state.new) }
    ensures stops { Stops result }
{
    call(state, port)
}
