//! The executable file of a program with a stack of the caller's choice.

ghost use Rattle.std.specs.Prelude.{◌≡◌};
ghost use Rattle.zikorape.specs.Got.{Buffer, HandsOut};
ghost use Rattle.zikorape.specs.Given.{text_or_empty};
ghost use Rattle.zikorape.specs.Answered.{OverFiles, CompiledWith, WithStack, file_text};

use crate::building;
use crate::files::{FileLengths, text_or_empty};
use crate::giving::{Sizes, hand_out};
use crate::refusing::{NO_FILES, given, refuse};
use cc::StackSize;
use std::alloc::Global;

/// The executable file of the program in the file `main` of the files, with a stack of `stack` bytes.
pub fn build_stacked(
    alloc: Global,
    texts: &[u8],
    files: &[FileLengths],
    main: &[u8],
    stack: u32,
    out: &mut [u8],
    message: &mut [u8],
    sizes: &mut Sizes,
) -> u32
    ensures { HandsOut (WithStack stack result (OverFiles (record { texts = texts.now; lengths = files.now }) result (CompiledWith stack file_text (text_or_empty main.now) result)))
        (record { before = out.old; after = out.new; told = sizes.new.output })
        (record { before = message.old; after = message.new; told = sizes.new.message }) }
{
    match StackSize::new(stack) {
        Some(size) => build_sized(alloc, texts, files, main, size, out, message, sizes),
        None => {
            hand_out(b"", b"", out, message, sizes);
            NO_FILES
        }
    }
}

fn build_sized(
    alloc: Global,
    texts: &[u8],
    files: &[FileLengths],
    main: &[u8],
    stack: StackSize,
    out: &mut [u8],
    message: &mut [u8],
    sizes: &mut Sizes,
) -> u32
    ensures { HandsOut (OverFiles (record { texts = texts.now; lengths = files.now }) result (CompiledWith stack file_text (text_or_empty main.now) result))
        (record { before = out.old; after = out.new; told = sizes.new.output })
        (record { before = message.old; after = message.new; told = sizes.new.message }) }
{
    match given(alloc, texts, files) {
        Ok(set) => {
            building::build_with(alloc, &set, text_or_empty(main), stack, out, message, sizes)
        }
        Err(refusal) => refuse(alloc, &refusal, out, message, sizes),
    }
}
