//! The output of `compile`: the executable file, or the weights of its functions.

ghost use Rattle.std.specs.Prelude.{◌≡◌, ◌++◌, IfOk, OnOk, take, map, codes, decimal};
ghost use Rattle.cc.specs.Compiled.{shown_entry};
ghost use Rattle.zikorape.specs.Got.{Buffer, HandsOut};
ghost use Rattle.zikorape.specs.Answered.{Compiled, CompiledWith, file_text, frames_text, entries_text, entry_text};

use crate::giving::{OUT_OF_MEMORY, Sizes, hand_fault, hand_out};
use cc::{StackSize, compile, compile_with};
use itoa::Buffer as Digits;
use srcset::FileSet;
use std::alloc::{AllocError, Global};

/// The executable file of the program in the file `main` of the set.
pub fn build(
    alloc: Global,
    set: &FileSet,
    main: &str,
    out: &mut [u8],
    message: &mut [u8],
    sizes: &mut Sizes,
) -> u32
    ensures { HandsOut (Compiled file_text main.now result set.now)
        (record { before = out.old; after = out.new; told = sizes.new.output })
        (record { before = message.old; after = message.new; told = sizes.new.message }) }
{
    match compile(alloc, set, main) {
        Ok(built) => {
            hand_out(built.elf.as_slice(), b"", out, message, sizes);
            0
        }
        Err(fault) => {
            hand_fault(alloc, &fault, out, message, sizes);
            1
        }
    }
}

/// The same with a stack of this size.
pub fn build_with(
    alloc: Global,
    set: &FileSet,
    main: &str,
    stack: StackSize,
    out: &mut [u8],
    message: &mut [u8],
    sizes: &mut Sizes,
) -> u32
    ensures { HandsOut (CompiledWith stack file_text main.now result set.now)
        (record { before = out.old; after = out.new; told = sizes.new.output })
        (record { before = message.old; after = message.new; told = sizes.new.message }) }
{
    match compile_with(alloc, set, main, stack) {
        Ok(built) => {
            hand_out(built.elf.as_slice(), b"", out, message, sizes);
            0
        }
        Err(fault) => {
            hand_fault(alloc, &fault, out, message, sizes);
            1
        }
    }
}

/// The frame and the weight of each function of that program.
pub fn tell_frames(
    alloc: Global,
    set: &FileSet,
    main: &str,
    out: &mut [u8],
    message: &mut [u8],
    sizes: &mut Sizes,
) -> u32
    ensures { HandsOut (Compiled frames_text main.now result set.now)
        (record { before = out.old; after = out.new; told = sizes.new.output })
        (record { before = message.old; after = message.new; told = sizes.new.message }) }
{
    match compile(alloc, set, main) {
        Ok(built) => match entries_text(alloc, built.frames.as_slice()) {
            Ok(text) => {
                hand_out(text.as_slice(), b"", out, message, sizes);
                0
            }
            Err(_) => {
                hand_out(b"", OUT_OF_MEMORY, out, message, sizes);
                1
            }
        },
        Err(fault) => {
            hand_fault(alloc, &fault, out, message, sizes);
            1
        }
    }
}

/// A line for each function.
fn entries_text(alloc: Global, entries: &[(String, u32, u32)]) -> Result<Vec<u8>, AllocError>
    ensures { IfOk result (λ text. text.items ≡ entries_text (map shown_entry entries.now)) }
{
    let mut text = Vec::new(alloc);
    for entry in entries {
        push_entry(&mut text, entry)?;
    }
    Ok(text)
}

/// A function's name, the bytes of its frame, and its weight.
fn push_entry(text: &mut Vec<u8>, entry: &(String, u32, u32)) -> Result<(), AllocError>
    ensures { OnOk result (text.new.items ≡ text.old.items ++ entry_text (shown_entry entry.now)) }
{
    let mut digits = Digits::new();
    text.extend_from_slice(entry.0.as_bytes())?;
    text.extend_from_slice(b" ")?;
    text.extend_from_slice(digits.format(entry.1).as_bytes())?;
    text.extend_from_slice(b" ")?;
    text.extend_from_slice(digits.format(entry.2).as_bytes())?;
    text.push(b'\n')?;
    Ok(())
}
