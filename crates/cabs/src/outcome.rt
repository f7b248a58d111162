//! The result of interpreting a program.

use ctypes::Undef;
use io_ports::PortFault;
use srcset::Pos;

/// How the run of a program stopped.
#[derive(Clone, Copy, Debug, PartialEq, Eq)]
pub enum Run {
    /// The program ended with this status (5.1.2.2.3).
    Ended(u8),
    /// Undefined behaviour, at its place (3.4.3).
    Undefined(Undef, Pos),
    /// All allowed ticks were taken.
    TicksUsed,
    /// The port refused a call.
    Port(PortFault),
    /// The host's memory ran out. Also reported for a program in which one expression writes a byte and, without a tick, writes or reads
    /// another; in a program that keeps the constraints a call without a result is no operand (6.3.2.2).
    Memory,
}

/// How a run stopped, and the greatest sum of the weights of calls active at one time.
#[derive(Clone, Copy, Debug, PartialEq, Eq)]
pub struct Interpreted {
    pub run: Run,
    pub greatest: u128,
}
