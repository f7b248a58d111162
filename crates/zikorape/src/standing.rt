//! The state of a machine after a number of instructions.

ghost use Rattle.std.specs.Prelude.{◌≡◌, ◌⊎◌, [], IfOk};
ghost use Rattle.srcset.specs.Codes.{number_of};
ghost use Rattle.zikorape.specs.Got.{Buffer};
ghost use Rattle.zikorape.specs.Stepped.{Window, Stands, FailsToStand, outcome_number, detail_of};

use crate::giving::give;
use io_ports::MemPort;
use loader::load;
use machine_kept::{Halt, cause_number, run_to, show, start};
use sim::Outcome;
use srcset::Code;
use std::alloc::{AllocError, Global};

/// The result where the file is not loaded.
const NOT_LOADED: u32 = 4;

/// The visible state of a machine.
#[repr(C)]
#[derive(Clone, Copy)]
pub struct Standing {
    /// The status with which it ended, the number of why it trapped, or the code for which the file is refused.
    pub detail: u32,
    pub pc: u32,
    pub registers: [u32; 32],
    /// How many instructions it took, with that at which it stopped.
    pub steps: u64,
    /// How many bytes it has put.
    pub output: u64,
}

/// Runs the executable file over this input for `count` instructions, or to where it stops or halts before.
pub fn stand(
    alloc: Global,
    file: &[u8],
    input: &[u8],
    count: u64,
    halt: Halt,
    from: u32,
    window: &mut [u8],
    out: &mut [u8],
    standing: &mut Standing,
) -> u32
    ensures { Stands file.now input.now count halt result standing.new (record { from = from; before = window.old; after = window.new }) (record { before = out.old; after = out.new; told = standing.new.output })
        ⊎ FailsToStand file.now result standing.old standing.new (record { from = from; before = window.old; after = window.new }) (record { before = out.old; after = out.new; told = standing.new.output }) }
{
    let Ok(mut port) = port_over(alloc, input) else {
        return fail(Code::OutOfMemory, standing);
    };
    match load(alloc, file) {
        Ok(program) => {
            let mut state = start(program);
            let reached = run_to(&mut state, &mut port, count, halt);
            show(&state.memory, from, window);
            standing.detail = detail(reached.outcome);
            standing.pc = state.pc;
            standing.registers = state.registers;
            standing.steps = reached.steps;
            standing.output = give(port.output(), out);
            number(reached.outcome)
        }
        Err(fault) => fail(fault.code(), standing),
    }
}

/// A port that has this input.
fn port_over(alloc: Global, input: &[u8]) -> Result<MemPort, AllocError>
    ensures { IfOk result (λ port. port ≡ record { input = input.now; output = []; room = 0; failures = 0 }) }
{
    let Ok(input) = input.to_vec(alloc) else {
        return Err(AllocError);
    };
    Ok(MemPort::new(alloc, input))
}

/// Reports why the file is not loaded.
fn fail(code: Code, standing: &mut Standing) -> u32
    ensures answer { result ≡ 4 }
    ensures standing { standing.new ≡ record standing.old { detail = number_of code; output = 0 } }
{
    standing.detail = u32::from(code.number());
    standing.output = 0;
    NOT_LOADED
}

/// The number of an outcome.
fn number(outcome: Outcome) -> u32
    ensures { result ≡ outcome_number outcome }
{
    match outcome {
        Outcome::Budget => 0,
        Outcome::Ended(_) => 1,
        Outcome::Trapped(_, _) => 2,
        Outcome::Port(_) => 3,
    }
}

/// The detail of an outcome.
fn detail(outcome: Outcome) -> u32
    ensures { result ≡ detail_of outcome }
{
    match outcome {
        Outcome::Budget => 0,
        Outcome::Ended(status) => u32::from(status),
        Outcome::Trapped(_, cause) => cause_number(cause),
        Outcome::Port(_) => 0,
    }
}
