//! A run that a tracer follows step by step.

ghost use Rattle.std.specs.Prelude.{◌≡◌, ◌++◌, ◌∷◌, [], ℕ, List, Option, None, IfOk};
ghost use Rattle.rv32.specs.Step.{Machine as Hart, machine_of};
ghost use Rattle.sim.specs.Runs.{World};
ghost use Rattle.sim.specs.Meets.{At, RunMeets};
ghost use Rattle.sim.specs.Machines.{machine_now, stopped_with};
ghost use Rattle.traced_run.specs.Traced.{TraceMeets, TracesMachines};

use io_ports::Port;
use rv32::state::State;
use sim::{Machine, Outcome};
use std::alloc::AllocError;

/// Follows a run step by step, and changes nothing of it.
pub trait Tracer {
    // That the machines that it has seen, the first first, are these. By default nothing is known of it.
    ghost traced: { Self → List Hart → Type 0 } = { λ _ _. Unit {0} };

    /// The machine in this state is about to take a step.
    fn begins(&mut self, state: &State) -> Result<(), AllocError>
        ensures { IfOk result (λ _. (ms : List Hart) → traced self.old ms → traced self.new (ms ++ (machine_of state.now ∷ []))) };

    /// The step of which it was notified last has led to this state, or the run has stopped at it. Returns whether the trace goes on.
    fn ends(&mut self, state: &State) -> Result<bool, AllocError>
        ensures { IfOk result (λ _. (ms : List Hart) → traced self.old ms → traced self.new ms) };
}

/// How a traced run ended.
#[derive(Clone, Copy, Debug, PartialEq, Eq)]
pub enum TraceEnd {
    Stopped(Outcome),
    /// A line of the trace could not be written.
    Unwritten,
}

/// The outcome of a step, and whether the trace goes on.
#[derive(Clone, Copy)]
struct Told {
    outcome: Outcome,
    is_written: bool,
}

/// Takes at most `max` steps, and notifies the tracer of each.
///
/// The machine does what `Machine::run` does in as many steps. A tracer that has seen nothing is notified of the machines of the table's run, one a step.
pub fn traced_run<P: Port, T: Tracer>(
    machine: &mut Machine,
    port: &mut P,
    max: u64,
    tracer: &mut T,
) -> Result<TraceEnd, AllocError>
    ensures meets { IfOk result (λ end. stopped_with machine.old ≡ None → (o : Option (List ℕ)) (w : World) → At o w (machine_now machine.old) (P.seen port.old) →
        TraceMeets o w max end (machine_now machine.new) (P.seen port.new)) }
    ensures traces { IfOk result (λ end. stopped_with machine.old ≡ None → (o : Option (List ℕ)) (w : World) → At o w (machine_now machine.old) (P.seen port.old) → T.traced tracer.old [] →
        TracesMachines (T.traced tracer.new) o w max end (machine_now machine.new) (P.seen port.new)) }
{
    let mut steps = 0;
    while steps < max {
        let told = told_step(machine, port, tracer)?;
        if !told.is_written {
            return Ok(TraceEnd::Unwritten);
        }
        match told.outcome {
            Outcome::Budget => steps += 1,
            outcome => return Ok(TraceEnd::Stopped(outcome)),
        }
    }
    Ok(TraceEnd::Stopped(Outcome::Budget))
}

/// Takes a step, and notifies the tracer of it.
fn told_step<P: Port, T: Tracer>(
    machine: &mut Machine,
    port: &mut P,
    tracer: &mut T,
) -> Result<Told, AllocError>
    ensures meets { IfOk result (λ told. stopped_with machine.old ≡ None → (o : Option (List ℕ)) (w : World) → At o w (machine_now machine.old) (P.seen port.old) →
        RunMeets o w 1 told.outcome (machine_now machine.new) (P.seen port.new)) }
    ensures budget { IfOk result (λ told. told.outcome ≡ Outcome.Budget → stopped_with machine.old ≡ None → stopped_with machine.new ≡ None) }
    ensures traces { IfOk result (λ _. (ms : List Hart) → T.traced tracer.old ms → T.traced tracer.new (ms ++ (machine_now machine.old ∷ []))) }
{
    tracer.begins(machine.state())?;
    let outcome = machine.run(port, 1);
    let is_written = tracer.ends(machine.state())?;
    Ok(Told {
        outcome,
        is_written,
    })
}
