//! Why a command stops.

ghost use Rattle.std.specs.Prelude.{◌≡◌};
ghost use Rattle.cc.specs.inside.Stops.{IsToldAs, port_stop};

use io_ports::PortFault;
use srcset::{Code, Fault};
use std::alloc::Global;

/// Why a command stops, before it is reported.
#[derive(Drop)]
pub enum Stop {
    /// Memory ran out.
    Memory,
    /// The file that the command names has this fault: its code, and its line.
    At(Code, u32),
    /// A phase has already reported why.
    Told(Fault),
}

impl Stop {
    /// The fault that reports it, of the file of this name. It is 801 for `Memory`, and where memory runs out for the copy of the name.
    pub fn to_fault(self, alloc: Global, name: &str) -> Fault
        ensures { IsToldAs name.now self result }
    {
        match self {
            Stop::Memory => Fault::memory(alloc),
            Stop::At(code, line) => Fault::at(alloc, code, name, line),
            Stop::Told(fault) => fault,
        }
    }
}

/// Why a file was not read or not put whole, by the fault of the port.
pub fn port_stop(fault: PortFault) -> Stop
    ensures { result ≡ port_stop fault }
{
    match fault {
        PortFault::Memory => Stop::Memory,
        PortFault::Read => Stop::At(Code::CannotRead, 0),
        PortFault::Write => Stop::At(Code::CannotWrite, 0),
    }
}
