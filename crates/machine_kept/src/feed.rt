//! A port whose input is given while the run goes on.

ghost use Rattle.std.specs.Prelude.{◌≡◌, []};
ghost use Rattle.machine_kept.specs.Feeds.{IsFresh};

use io_ports::{Port, PortFault};
use std::alloc::Global;

/// The input that was given and how much of it was read, and the output. At the end of an input that is not closed a read is
/// refused, so that the run waits.
#[derive(Drop)]
pub struct Feed {
    pub(crate) input: Vec<u8>,
    pub(crate) next: usize,
    pub(crate) closed: bool,
    pub(crate) output: Vec<u8>,
    pub(crate) failures: u64,
}

impl Feed {
    /// No input yet, none closed, no output.
    pub fn new(alloc: Global) -> Self
        ensures { IsFresh result }
    {
        Feed {
            input: Vec::new(alloc),
            next: 0,
            closed: false,
            output: Vec::new(alloc),
            failures: 0,
        }
    }

    /// This input, closed or not, of which nothing was read, and no output.
    pub fn over(alloc: Global, input: Vec<u8>, is_closed: bool) -> Self
        ensures input { result ≡ record { input = input; next = 0; closed = is_closed; output = result.output; failures = 0 } }
        ensures output { result.output.items ≡ [] }
    {
        Feed {
            input,
            next: 0,
            closed: is_closed,
            output: Vec::new(alloc),
            failures: 0,
        }
    }
}

impl Port for Feed {
    ghost use Rattle.std.specs.Prelude.{MatchResult, IfErr};
    ghost use Rattle.io_ports.specs.Port.{Gets, Puts, IsRefused};
    ghost use Rattle.machine_kept.specs.Feeds.{port_of, Lacks};

    ghost seen = { port_of };

    ghost refused_with = { Lacks };

    /// It refuses where the input is used up and not closed, by `Read`.
    fn get(&mut self) -> Result<Option<u8>, PortFault>
        ensures gets { MatchResult result (λ byte. Gets (port_of self.old) (port_of self.new) byte) (λ _. IsRefused (port_of self.old) (port_of self.new)) }
        ensures fault { IfErr result (Lacks self.new) }
    {
        match self.input.get(self.next) {
            Some(byte) => {
                let byte = *byte;
                self.next += 1;
                Ok(Some(byte))
            }
            None => self.at_end(),
        }
    }

    /// It refuses where memory runs out, by `Memory`.
    fn put(&mut self, byte: u8) -> Result<(), PortFault>
        ensures puts { MatchResult result (λ _. Puts (port_of self.old) (port_of self.new) byte) (λ _. IsRefused (port_of self.old) (port_of self.new)) }
        ensures fault { IfErr result (Lacks self.new) }
    {
        match self.output.push(byte) {
            Ok(()) => Ok(()),
            Err(_) => {
                self.failures = self.failures.saturating_add(1);
                Err(PortFault::Memory)
            }
        }
    }
}

impl Feed {
    ghost use Rattle.std.specs.Prelude.{◌≤◌, MatchResult, IfErr, vec_len};
    ghost use Rattle.io_ports.specs.Port.{Gets, IsRefused};
    ghost use Rattle.machine_kept.specs.Feeds.{port_of, Lacks};

    /// The result of a read where the input is used up.
    fn at_end(&mut self) -> Result<Option<u8>, PortFault>
        requires { vec_len self.old.input ≤ self.old.next }
        ensures gets { MatchResult result (λ byte. Gets (port_of self.old) (port_of self.new) byte) (λ _. IsRefused (port_of self.old) (port_of self.new)) }
        ensures fault { IfErr result (Lacks self.new) }
    {
        if self.closed {
            return Ok(None);
        }
        self.failures = self.failures.saturating_add(1);
        Err(PortFault::Read)
    }
}
