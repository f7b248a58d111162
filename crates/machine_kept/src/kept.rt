//! The machine that is kept: its inputs, and its results.

ghost use Rattle.std.specs.Prelude.{◌≡◌};
ghost use Rattle.loader.specs.Loading.{loaded_image};
ghost use Rattle.machine_kept.specs.Kept.{IsNew, IsOne, TakesFile, StartsAt, Loads, TakesInput, Closes, GivesOutput, detail_now};
ghost use Rattle.machine_kept.specs.Standing.{outcome_detail};

use crate::feed::Feed;
use crate::stepping::{cause_number, start};
use loader::{Loaded, load};
use rv32::memory::Memory;
use rv32::state::State;
use sim::Outcome;
use std::alloc::Global;

/// The answer to a refused growth of memory: code 801.
pub(crate) const OUT_OF_MEMORY: u64 = 801;

/// The answer where there is no further byte.
const NO_BYTE: u64 = 256;

/// A machine with the file that it runs, its port, how many bytes of the output were taken, how many instructions it took, and the
/// outcome with which it stopped, if it did.
#[derive(Drop)]
pub struct Kept {
    pub(crate) alloc: Global,
    pub(crate) file: Vec<u8>,
    pub(crate) state: State,
    pub(crate) port: Feed,
    pub(crate) taken: usize,
    pub(crate) steps: u64,
    pub(crate) stopped: Option<Outcome>,
}

impl Kept {
    /// A machine without a file, memory and input: its registers and its pc are 0.
    pub fn new(alloc: Global) -> Self
        ensures { IsNew result }
    {
        Kept {
            alloc,
            file: Vec::new(alloc),
            state: bare_state(alloc),
            port: Feed::new(alloc),
            taken: 0,
            steps: 0,
            stopped: None,
        }
    }

    /// Takes one byte more of the file: 0, or 801 where memory is refused.
    pub fn take_file(&mut self, byte: u64) -> u64
        ensures { TakesFile byte self.old result self.new }
    {
        match self.file.push((byte % 0x100) as u8) {
            Ok(()) => 0,
            Err(_) => OUT_OF_MEMORY,
        }
    }

    /// Moves to the first instruction of the file, with no input and no output: 0, or the code for which the file is not loaded.
    pub fn load_file(&mut self) -> u64
        ensures { Loads self.old result self.new }
    {
        match load(self.alloc, self.file.as_slice()) {
            Ok(program) => {
                self.begin(program);
                0
            }
            Err(fault) => u64::from(fault.code().number()),
        }
    }

    /// Moves to the first instruction of the program.
    fn begin(&mut self, program: Loaded)
        ensures { StartsAt (loaded_image program) self.old self.new }
    {
        self.state = start(program);
        self.port = Feed::new(self.alloc);
        self.taken = 0;
        self.steps = 0;
        self.stopped = None;
    }

    /// Takes one byte more of the input: 0, 1 where the input is closed, or 801 where memory is refused.
    pub fn take_input(&mut self, byte: u64) -> u64
        ensures { TakesInput byte self.old result self.new }
    {
        if self.port.closed {
            return 1;
        }
        match self.port.input.push((byte % 0x100) as u8) {
            Ok(()) => 0,
            Err(_) => OUT_OF_MEMORY,
        }
    }

    /// Closes the input: there is its end.
    pub fn close_input(&mut self) -> u64
        ensures { Closes self.old result self.new }
    {
        self.port.closed = true;
        0
    }

    /// The next byte of the output that was not taken; 256 where there is none.
    pub fn take_output(&mut self) -> u64
        ensures { GivesOutput self.old result self.new }
    {
        match self.port.output.get(self.taken) {
            Some(byte) => {
                let byte = *byte;
                self.taken += 1;
                u64::from(byte)
            }
            None => NO_BYTE,
        }
    }

    /// How many instructions it took.
    pub fn steps(&self) -> u64
        ensures { result ≡ self.now.steps }
    {
        self.steps
    }

    /// The status with which it ended, or the number of why it trapped.
    pub fn detail(&self) -> u64
        ensures { result ≡ detail_now self.now.stopped }
    {
        match self.stopped {
            Some(outcome) => detail_of(outcome),
            None => 0,
        }
    }
}

/// The state of a machine without memory.
fn bare_state(alloc: Global) -> State
    ensures { IsOne result }
{
    State {
        registers: [0; 32],
        pc: 0,
        memory: Memory::new(Vec::new(alloc)),
    }
}

/// The detail of an outcome.
fn detail_of(outcome: Outcome) -> u64
    ensures { result ≡ outcome_detail outcome }
{
    match outcome {
        Outcome::Budget => 0,
        Outcome::Ended(status) => u64::from(status),
        Outcome::Trapped(_, cause) => u64::from(cause_number(cause)),
        Outcome::Port(_) => 0,
    }
}
