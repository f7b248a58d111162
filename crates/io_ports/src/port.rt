//! Where a run's bytes come from and go.

ghost use Rattle.std.specs.Prelude.{◌≡◌, Some, MatchResult, IfErr};
ghost use Rattle.srcset.specs.Codes.{text_of};
ghost use Rattle.io_ports.specs.Port.{PortView, Gets, Puts, Flushes, IsRefused, code_of};
ghost use Rattle.io_ports.specs.declared.port.PortFault.{PortFault};

use srcset::Code;
use std::fmt;
use thiserror::Error;

/// Why a port refused a call.
#[derive(Clone, Copy, Debug, PartialEq, Eq, Error)]
pub enum PortFault {
    /// 801: memory ran out.
    Memory,
    /// 802: the input could not be read.
    Read,
    /// 803: the output could not be written.
    Write,
}

impl PortFault {
    /// The code of the fault, 801 to 803.
    pub fn code(self) -> Code
        ensures { result ≡ code_of self }
    {
        match self {
            PortFault::Memory => Code::OutOfMemory,
            PortFault::Read => Code::CannotRead,
            PortFault::Write => Code::CannotWrite,
        }
    }
}

/// Shows the text of the code.
impl fmt::Display for PortFault {
    ghost output = { λ fault. Some (text_of (code_of fault)) };

    fn fmt<W: fmt::Write>(&self, f: &mut fmt::Formatter<W>) -> fmt::Result {
        f.write_str(self.code().message())
    }
}

/// Input bytes and output bytes, one at a time.
///
/// A refused call leaves the input and the output as they were and adds one to the port's count of failures;
/// at the greatest `u64` the count stays. A call that succeeds adds none.
pub trait Port {
    // The input left and the output so far, where they are known, and the count of failures.
    ghost seen: { Self → PortView };

    // The facts known of the fault of a refused call, by the port that the call left. By default none.
    ghost refused_with: { Self → PortFault → Type 0 } = { λ _ _. Unit {0} };

    /// The first byte of the input left, or `None` at its end.
    fn get(&mut self) -> Result<Option<u8>, PortFault>
        ensures gets { MatchResult result (λ byte. Gets (seen self.old) (seen self.new) byte) (λ _. IsRefused (seen self.old) (seen self.new)) }
        ensures fault { IfErr result (refused_with self.new) };

    /// Appends one byte to the output.
    fn put(&mut self, byte: u8) -> Result<(), PortFault>
        ensures puts { MatchResult result (λ _. Puts (seen self.old) (seen self.new) byte) (λ _. IsRefused (seen self.old) (seen self.new)) }
        ensures fault { IfErr result (refused_with self.new) };

    /// Flushes buffered output, so that others see it while the run goes on. A failure is reported by the next `put`. A port that buffers nothing does nothing.
    fn rest(&mut self)
        ensures { Flushes (seen self.old) (seen self.new) }
    {}
}
