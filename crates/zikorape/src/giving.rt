//! Writes to a caller's buffers: as much of each text as they have room for.

ghost use Rattle.std.specs.Prelude.{◌≡◌, [], length, IfOk};
ghost use Rattle.zikorape.specs.Got.{Buffer, Got, HandsOut};
ghost use Rattle.cc.specs.Reported.{fault_text};
ghost use Rattle.zikorape.specs.Answered.{IsLineOf};

use srcset::Fault;
use std::alloc::{AllocError, Global};

/// The line of 801, out of memory, which allocates nothing.
pub const OUT_OF_MEMORY: &[u8] = b"cc: 801 out of memory\n";

/// How many bytes the output and the message of a call have: a buffer of fewer was too small.
#[repr(C)]
#[derive(Clone, Copy)]
pub struct Sizes {
    pub output: u64,
    pub message: u64,
}

/// Writes the text as far as there is room, and returns its length. The bytes after it stay.
pub fn give(text: &[u8], room: &mut [u8]) -> u64
    ensures { Got (record { before = room.old; after = room.new; told = result }) text.now }
{
    if text.len() <= room.len() {
        room[..text.len()].copy_from_slice(text);
    } else {
        room.copy_from_slice(&text[..room.len()]);
    }
    text.len() as u64
}

/// Gives an output and a message.
pub fn hand_out(output: &[u8], line: &[u8], out: &mut [u8], message: &mut [u8], sizes: &mut Sizes)
    ensures output { Got (record { before = out.old; after = out.new; told = sizes.new.output }) output.now }
    ensures message { Got (record { before = message.old; after = message.new; told = sizes.new.message }) line.now }
{
    sizes.output = give(output, out);
    sizes.message = give(line, message);
}

/// Gives no output, and the line of a fault, or in its place, where there is no memory for it, the line that says so.
pub fn hand_fault(
    alloc: Global,
    fault: &Fault,
    out: &mut [u8],
    message: &mut [u8],
    sizes: &mut Sizes,
)
    ensures { HandsOut (λ output line. (output ≡ []) × IsLineOf fault.now line)
        (record { before = out.old; after = out.new; told = sizes.new.output })
        (record { before = message.old; after = message.new; told = sizes.new.message }) }
{
    match fault_line(alloc, fault) {
        Ok(line) => hand_out(b"", line.as_slice(), out, message, sizes),
        Err(_) => hand_out(b"", OUT_OF_MEMORY, out, message, sizes),
    }
}

fn fault_line(alloc: Global, fault: &Fault) -> Result<Vec<u8>, AllocError>
    ensures { IfOk result (λ line. line.items ≡ fault_text fault.now) }
{
    let mut line = fault.to_line(alloc)?;
    line.push(b'\n')?;
    Ok(line)
}
