//! Many bytes through a port.

ghost use Rattle.std.specs.Prelude.{ℕ, MatchResult, IfErr};
ghost use Rattle.cc.specs.Transfer.{PutsAll, PutsSome};

use io_ports::{Port, PortFault};

/// Writes all bytes, up to the first that the port refuses.
pub fn put_all<P: Port>(port: &mut P, bytes: &[u8]) -> Result<(), PortFault>
    ensures puts { MatchResult result (λ _. PutsAll (P.seen port.old) (P.seen port.new) bytes.now)
        (λ _. (count : ℕ) × PutsSome (P.seen port.old) (P.seen port.new) bytes.now count) }
    ensures fault { IfErr result (P.refused_with port.new) }
{
    for byte in bytes {
        port.put(*byte)?;
    }
    Ok(())
}
