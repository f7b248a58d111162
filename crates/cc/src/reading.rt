//! A source file that is read.

ghost use Rattle.std.specs.Prelude.{List, ℕ, MatchResult};
ghost use Rattle.srcset.specs.declared.fault.Fault.{Fault as ToldFault};
ghost use Rattle.cc.specs.Sources.{ReadsAll, FailsReading};
ghost use Rattle.cc.specs.inside.Stops.{IsToldAs};

use crate::stopping::{Stop, port_stop};
use io_ports::Port;
use srcset::{Code, Fault, MAX_FILE_BYTES};
use std::alloc::Global;

/// The bytes that a port has left, unless they are more than a file may have.
fn read_bytes<P: Port>(alloc: Global, port: &mut P) -> Result<Vec<u8>, Stop>
    ensures { MatchResult result
        (λ bytes. ReadsAll (P.seen port.old) (P.seen port.new) bytes.items)
        (λ stop. (name : List ℕ) (fault : ToldFault) → IsToldAs name stop fault → FailsReading name (P.refused_with port.new) (P.seen port.old) (P.seen port.new) fault) }
{
    let mut bytes = Vec::new(alloc);
    while bytes.len() <= MAX_FILE_BYTES {
        match port.get() {
            Ok(Some(byte)) => {
                let Ok(()) = bytes.push(byte) else {
                    return Err(Stop::Memory);
                };
            }
            Ok(None) => return Ok(bytes),
            Err(fault) => return Err(port_stop(fault)),
        }
    }
    Err(Stop::At(Code::FileSizeLimit, 0))
}

/// The bytes that a port has left, which are those of the source file of this name.
///
/// Fails with 701 at byte 1,048,577, which is the last that is got; where the port refuses, with the code of its fault
/// (801, 802, 803); and with 801 where memory runs out. 701, 802 and 803 name the file.
pub fn read_source<P: Port>(alloc: Global, name: &str, port: &mut P) -> Result<Vec<u8>, Fault>
    ensures { MatchResult result
        (λ bytes. ReadsAll (P.seen port.old) (P.seen port.new) bytes.items)
        (FailsReading name.now (P.refused_with port.new) (P.seen port.old) (P.seen port.new)) }
{
    match read_bytes(alloc, port) {
        Ok(bytes) => Ok(bytes),
        Err(stop) => Err(stop.to_fault(alloc, name)),
    }
}
