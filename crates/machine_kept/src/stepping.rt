//! A machine from its start to an instruction, and its state there.

ghost use Rattle.std.specs.Prelude.{◌≡◌, ◌⊎◌, ◌<◌, ◌≤◌, ◌+◌, ◌↔◌, ℕ, List, Option, IsTrue, length, slice_index};
ghost use Rattle.rv32.specs.Space.{space_of};
ghost use Rattle.rv32.specs.Step.{machine_of};
ghost use Rattle.sim.specs.Runs.{World, rvrun, start_of};
ghost use Rattle.sim.specs.Meets.{At, RunMeets, Blames};
ghost use Rattle.loader.specs.Loading.{loaded_image};
ghost use Rattle.machine_kept.specs.Standing as standing;
ghost use Rattle.machine_kept.specs.Standing.{Passes, shown_byte};

use crate::ticking::tick;
use io_ports::Port;
use loader::Loaded;
use rv32::memory::Memory;
use rv32::state::{Cause, State};
use sim::Outcome;

/// How far a run came.
#[derive(Clone, Copy)]
pub struct Reached {
    pub outcome: Outcome,
    /// How many instructions it took, with that at which it stopped, if it did.
    pub steps: u64,
}

/// Where a run is to halt: before the instruction at an address, once it has taken `after` instructions.
#[derive(Clone, Copy)]
pub struct Halt {
    pub after: u64,
    pub at: u32,
}

/// Takes `count` instructions, or those up to where the run stops or is to halt, if that is earlier.
pub fn run_to<P: Port>(state: &mut State, port: &mut P, count: u64, halt: Halt) -> Reached
    ensures meets { (o : Option (List ℕ)) (w : World) → At o w (machine_of state.old) (P.seen port.old) →
        RunMeets o w result.steps result.outcome (machine_of state.new) (P.seen port.new) }
    ensures passes { (o : Option (List ℕ)) (w : World) → At o w (machine_of state.old) (P.seen port.old) →
        (k : ℕ) → k < result.steps → Passes halt k (rvrun k w) }
    ensures fault { Blames (P.refused_with port.new) result.outcome }
    ensures most { result.steps ≤ count }
    ensures halts { result.outcome ≡ Outcome.Budget → (result.steps ≡ count) ⊎ ((halt.after ≤ result.steps) × (state.new.pc ≡ halt.at)) }
{
    let mut steps = 0;
    while steps < count {
        if is_halted(state, halt, steps) {
            return Reached {
                outcome: Outcome::Budget,
                steps,
            };
        }
        match tick(state, port) {
            None => steps += 1,
            Some(outcome) => return Reached {
                outcome,
                steps: steps + 1,
            },
        }
    }
    Reached {
        outcome: Outcome::Budget,
        steps,
    }
}

/// Whether the run is to halt here, after `steps` instructions.
fn is_halted(state: &State, halt: Halt, steps: u64) -> bool
    ensures { IsTrue result ↔ ((halt.after ≤ steps) × (state.now.pc ≡ halt.at)) }
{
    halt.after <= steps && state.pc == halt.at
}

/// Copies the contents of memory from an address on; 0 where nothing may be read.
pub fn show(memory: &Memory, from: u32, window: &mut [u8])
    ensures same { length window.new ≡ length window.old }
    ensures shows { (i : ℕ) → i < length window.old → slice_index window.new i ≡ shown_byte (space_of memory.now.segments.items) (from + i) }
{
    for i in 0..window.len() {
        window[i] = byte_at(memory, u64::from(from) + i as u64);
    }
}

fn byte_at(memory: &Memory, address: u64) -> u8
    ensures { result ≡ shown_byte (space_of memory.now.segments.items) address }
{
    match u32::try_from(address) {
        Ok(address) => match memory.load_byte(address) {
            Some(byte) => byte,
            None => 0,
        },
        Err(_) => 0,
    }
}

/// The machine before its first instruction.
pub fn start(program: Loaded) -> State
    ensures { machine_of result ≡ start_of (loaded_image program) }
{
    let pc = program.entry();
    State {
        registers: [0; 32],
        pc,
        memory: program.into_memory(),
    }
}

/// The number of a cause.
pub fn cause_number(cause: Cause) -> u32
    ensures { result ≡ standing.cause_number cause }
{
    match cause {
        Cause::Illegal => 1,
        Cause::FetchFault => 2,
        Cause::Target => 3,
        Cause::Misaligned => 4,
        Cause::LoadFault => 5,
        Cause::StoreFault => 6,
        Cause::Break => 7,
        Cause::BadCall => 8,
    }
}
