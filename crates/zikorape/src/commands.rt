//! The commands over files and ports in memory, as `perform` carries them out.

ghost use Rattle.std.specs.Prelude.{◌≡◌};
ghost use Rattle.zikorape.specs.Got.{Buffer, HandsOut};
ghost use Rattle.zikorape.specs.Answered.{Writes, Puts, whole};

use crate::giving::{OUT_OF_MEMORY, Sizes, hand_out};
use cc::{Cmd, StackSize, perform};
use io_ports::MemPort;
use srcset::FileSet;
use std::alloc::Global;

/// Carries out a command that writes a text.
pub fn write_text(
    alloc: Global,
    command: Cmd<'_>,
    set: &FileSet,
    main: &str,
    out: &mut [u8],
    message: &mut [u8],
    sizes: &mut Sizes,
) -> u32
    ensures { HandsOut (Writes command.entry main.now result set.now)
        (record { before = out.old; after = out.new; told = sizes.new.output })
        (record { before = message.old; after = message.new; told = sizes.new.message }) }
{
    let mut text = Vec::new(alloc);
    let mut line = Vec::new(alloc);
    let mut port = MemPort::new(alloc, Vec::new(alloc));
    let stack = StackSize::usual();
    let status = perform(
        alloc, command, set, main, b"", &mut port, &mut text, &mut line, stack,
    );
    let written = whole(status, text.as_slice());
    hand_out(written, line.as_slice(), out, message, sizes);
    u32::from(status)
}

/// The text, where it was written whole, and else none.
fn whole(status: u8, text: &[u8]) -> &[u8]
    ensures { result.now ≡ whole status text.now }
{
    if status == 0 { text } else { b"" }
}

/// Carries out a command over an input.
pub fn put_through(
    alloc: Global,
    command: Cmd<'_>,
    set: &FileSet,
    name: &str,
    file: &[u8],
    input: &[u8],
    out: &mut [u8],
    message: &mut [u8],
    sizes: &mut Sizes,
) -> u32
    ensures { HandsOut (Puts command.entry name.now file.now input.now result set.now)
        (record { before = out.old; after = out.new; told = sizes.new.output })
        (record { before = message.old; after = message.new; told = sizes.new.message }) }
{
    let Ok(input) = input.to_vec(alloc) else {
        hand_out(b"", OUT_OF_MEMORY, out, message, sizes);
        return 1;
    };
    let mut text = Vec::new(alloc);
    let mut line = Vec::new(alloc);
    let mut port = MemPort::new(alloc, input);
    let stack = StackSize::usual();
    let status = perform(
        alloc, command, set, name, file, &mut port, &mut text, &mut line, stack,
    );
    hand_out(port.output(), line.as_slice(), out, message, sizes);
    u32::from(status)
}
