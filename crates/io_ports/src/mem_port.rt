//! A port over memory.

ghost use Rattle.std.specs.Prelude.{◌≡◌, ◌<◌, [], MatchResult, IsOk, IfErr};
ghost use Rattle.io_ports.specs.Port.{Gets, Puts, IsRefused};
ghost use Rattle.io_ports.specs.Memory.{port_of};

use crate::port::{Port, PortFault};
use std::alloc::Global;
use std::marker::Model;

/// A vector in and a vector out. It always shows both.
#[derive(Drop)]
pub struct MemPort {
    input: Vec<u8>,
    next: usize,
    output: Vec<u8>,
    failures: u64,
}

impl Model for MemPort {
    ghost use Rattle.std.specs.Prelude.{◌-◌, drop, vec_len, vec_capacity};
    ghost use Rattle.io_ports.specs.Memory.{MemoryView};

    ghost Value = { MemoryView };

    ghost view = { λ p. record {
      input = drop p.next p.input.items;
      output = p.output.items;
      room = vec_capacity p.output - vec_len p.output;
      failures = p.failures;
    } };
}

impl MemPort {
    /// A port with this input, no output yet and no failure.
    pub fn new(alloc: Global, input: Vec<u8>) -> MemPort
        ensures { result ≡ record { input = input.items; output = []; room = 0; failures = 0 } }
    {
        MemPort {
            input,
            next: 0,
            output: Vec::new(alloc),
            failures: 0,
        }
    }

    /// The bytes put so far.
    pub fn output(&self) -> &[u8]
        ensures { result.now ≡ self.now.output }
    {
        self.output.as_slice()
    }

    /// How many calls were refused; at the greatest `u64` the count stays.
    pub fn failures(&self) -> u64
        ensures { result ≡ self.now.failures }
    {
        self.failures
    }
}

impl Port for MemPort {
    ghost use Rattle.std.specs.Prelude.{◌≡◌};
    ghost use Rattle.io_ports.specs.Port.{Gets, Puts, IsRefused};
    ghost use Rattle.io_ports.specs.Memory.{port_of};
    ghost use Rattle.io_ports.specs.declared.port.PortFault.TheVariants as port_fault;

    ghost seen = { port_of };

    ghost refused_with = { λ _ fault. fault ≡ port_fault.Memory };

    /// It never refuses.
    fn get(&mut self) -> Result<Option<u8>, PortFault>
        ensures gets { MatchResult result (λ byte. Gets (port_of self.old) (port_of self.new) byte) (λ _. IsRefused (port_of self.old) (port_of self.new)) }
        ensures always { IsOk result }
    {
        match self.input.get(self.next) {
            Some(byte) => {
                let byte = *byte;
                self.next += 1;
                Ok(Some(byte))
            }
            None => Ok(None),
        }
    }

    /// It refuses only where there is no room, and then an allocation was refused.
    fn put(&mut self, byte: u8) -> Result<(), PortFault>
        ensures puts { MatchResult result (λ _. Puts (port_of self.old) (port_of self.new) byte) (λ _. IsRefused (port_of self.old) (port_of self.new)) }
        ensures memory { IfErr result (λ fault. fault ≡ PortFault.Memory) }
        ensures room { 0 < self.old.room → IsOk result }
    {
        match self.output.push(byte) {
            Ok(()) => Ok(()),
            Err(_) => {
                self.failures = self.failures.saturating_add(1);
                Err(PortFault::Memory)
            }
        }
    }
}
