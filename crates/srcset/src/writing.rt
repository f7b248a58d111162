//! Many bytes to a writer.
ghost use Rattle.std.specs.Prelude.{◌≡◌, ◌≤◌, true, take, length, IfSome, MatchOption};
ghost use Rattle.std.specs.Io.KnownBytes.{Appends, Keeps};
ghost use Rattle.srcset.specs.Writing.{TakesBeginning};

use std::io::{ErrorKind, Write};

/// How often a call that a signal interrupted is attempted, in all, so that each call ends.
pub const TRIES: u32 = 1000;

/// Writes the bytes of a text, which is not empty, that the writer accepts at once. `None` where it fails.
fn write_part<W: Write>(writer: &mut W, bytes: &[u8]) -> Option<usize>
    ensures bound { IfSome result (λ count. (1 ≤ count) × (count ≤ length bytes.now)) }
    ensures taken { MatchOption result
        (Keeps (W.contents writer.old) (W.contents writer.new))
        (λ count. Appends (W.contents writer.old) (W.contents writer.new) (take count bytes.now)) }
{
    for _ in 0..TRIES {
        match writer.write(bytes) {
            Ok(0) => return None,
            Ok(count) => return Some(count),
            Err(error) => {
                if error.kind() != ErrorKind::Interrupted {
                    return None;
                }
            }
        }
    }
    None
}

/// Writes all bytes. `false` where the writer failed; it then accepted a prefix of them.
///
/// Retries a write that a signal interrupted, `TRIES` attempts in all.
pub fn write_text<W: Write>(writer: &mut W, bytes: &[u8]) -> bool
    ensures all { result ≡ true → Appends (W.contents writer.old) (W.contents writer.new) bytes.now }
    ensures some { TakesBeginning (W.contents writer.old) (W.contents writer.new) bytes.now }
{
    let mut at = 0;
    while at < bytes.len() {
        let Some(count) = write_part(writer, &bytes[at..]) else {
            return false;
        };
        at += count;
    }
    true
}
