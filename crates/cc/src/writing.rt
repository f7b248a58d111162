//! A file that is written.

ghost use Rattle.std.specs.Prelude.{MatchResult};
ghost use Rattle.cc.specs.Transfer.{PutsAll, WritesSome};

use crate::stopping::port_stop;
use crate::transfer::put_all;
use io_ports::Port;
use srcset::Fault;
use std::alloc::Global;

/// Writes all bytes of an executable file to the port of the file of this name.
///
/// Fails where the port refuses a byte, with the code of its fault (801, 802, 803), of the file of this name; a beginning
/// of the bytes was put then.
pub fn write_out<P: Port>(alloc: Global, name: &str, elf: &[u8], port: &mut P) -> Result<(), Fault>
    ensures { MatchResult result
        (λ _. PutsAll (P.seen port.old) (P.seen port.new) elf.now)
        (WritesSome name.now elf.now (P.refused_with port.new) (P.seen port.old) (P.seen port.new)) }
{
    match put_all(port, elf) {
        Ok(()) => Ok(()),
        Err(fault) => Err(port_stop(fault).to_fault(alloc, name)),
    }
}
