//! The compiler for programs in C and other languages: its commands over slices of bytes, with no state between calls.
//!
//! `include/zikorape.h` has each function as C sees it. Each takes the buffers of its caller, fills them as far as there
//! is room, and reports how much room its output needs.
#![tactic(auto)]

mod building;
mod commands;
mod files;
mod functions;
mod giving;
mod refusing;
mod showing;
mod stacking;
mod standing;
mod telling;
mod tracing;

ghost use Rattle.std.specs.Prelude.{◌⊎◌, []};
ghost use Rattle.srcset.specs.Codes.{message_of};
ghost use Rattle.zikorape.specs.Got.{Buffer, Got, HandsOut};
ghost use Rattle.zikorape.specs.Given.{text_or_empty};
ghost use Rattle.zikorape.specs.Answered.{OverFiles, Compiled, CompiledWith, WithStack, Writes, Puts, file_text, frames_text, version};
ghost use Rattle.zikorape.specs.Stepped.{Window, Stands, FailsToStand};
ghost use Rattle.std.specs.Ptr.{points_to, room_at};
ghost use Rattle.machine_kept.specs.declared.kept.Kept.{Kept as KeptMachine};
ghost use Rattle.machine_kept.specs.contracts.kept.Kept.{the_row as kept_row};
ghost use Rattle.machine_kept.specs.Kept.{IsNew};
ghost use Rattle.machine_kept.specs.Served.{Answers};
ghost use types.Logic.{sem};
ghost use base.Fml.{fex, fsep, ftrue};

use cc::{Cmd, StackSize};
use explain::Run;
use files::{FileLengths, text_or_empty};
use functions::tell_functions;
use giving::{OUT_OF_MEMORY, Sizes, give, hand_out};
use machine_kept::{Halt, Kept};
use refusing::{NO_FILES, given, refuse};
use showing::{form_of, show_form};
use srcset::{FileSet, message};
use stacking::build_stacked;
use standing::{Standing, stand};
use std::alloc::Global;
use std::{mem, ptr};
use telling::{names_of, tell_act, tell_faults, tell_image, tell_verdict, tell_warnings};
use trace_json::Asked;
use tracing::tell_trace;

/// The version of the library.
const VERSION: &[u8] = b"zikorape 1.0";

/// Compiles the file `main` of the files to an executable file.
#[unsafe(no_mangle)]
pub extern "C" fn zk_build(
    alloc: Global,
    texts: &[u8],
    files: &[FileLengths],
    main: &[u8],
    out: &mut [u8],
    message: &mut [u8],
    sizes: &mut Sizes,
) -> u32
    ensures { HandsOut (OverFiles (record { texts = texts.now; lengths = files.now }) result (Compiled file_text (text_or_empty main.now) result))
        (record { before = out.old; after = out.new; told = sizes.new.output })
        (record { before = message.old; after = message.new; told = sizes.new.message }) }
{
    match given(alloc, texts, files) {
        Ok(set) => building::build(alloc, &set, text_or_empty(main), out, message, sizes),
        Err(refusal) => refuse(alloc, &refusal, out, message, sizes),
    }
}

/// The same with a stack of `stack` bytes, a multiple of 4,096 from 4,096 to 16,777,216; for another number it returns 256.
#[unsafe(no_mangle)]
pub extern "C" fn zk_build_with(
    alloc: Global,
    texts: &[u8],
    files: &[FileLengths],
    main: &[u8],
    stack: u32,
    out: &mut [u8],
    message: &mut [u8],
    sizes: &mut Sizes,
) -> u32
    ensures { HandsOut (WithStack stack result (OverFiles (record { texts = texts.now; lengths = files.now }) result (CompiledWith stack file_text (text_or_empty main.now) result)))
        (record { before = out.old; after = out.new; told = sizes.new.output })
        (record { before = message.old; after = message.new; told = sizes.new.message }) }
{
    build_stacked(alloc, texts, files, main, stack, out, message, sizes)
}

/// The functions of the program in the file `main` with their addresses, sizes, frames, weights, calls and lines, and its objects, as JSON. It
/// has no clause but that it is safe.
#[unsafe(no_mangle)]
pub extern "C" fn zk_functions(
    alloc: Global,
    texts: &[u8],
    files: &[FileLengths],
    main: &[u8],
    stack: u32,
    out: &mut [u8],
    message: &mut [u8],
    sizes: &mut Sizes,
) -> u32 {
    let Some(stack) = StackSize::new(stack) else {
        hand_out(b"", b"", out, message, sizes);
        return NO_FILES;
    };
    match given(alloc, texts, files) {
        Ok(set) => tell_functions(alloc, &set, text_or_empty(main), stack, out, message, sizes),
        Err(refusal) => refuse(alloc, &refusal, out, message, sizes),
    }
}

/// The warnings of the program in the file `main`, as JSON, an object a line. It has no clause but that it is safe.
#[unsafe(no_mangle)]
pub extern "C" fn zk_warn(
    alloc: Global,
    texts: &[u8],
    files: &[FileLengths],
    main: &[u8],
    stack: u32,
    out: &mut [u8],
    message: &mut [u8],
    sizes: &mut Sizes,
) -> u32 {
    let Some(stack) = StackSize::new(stack) else {
        hand_out(b"", b"", out, message, sizes);
        return NO_FILES;
    };
    match given(alloc, texts, files) {
        Ok(set) => match names_of(alloc, texts, files) {
            Ok(names) => tell_warnings(
                alloc,
                &set,
                names.as_slice(),
                text_or_empty(main),
                stack,
                out,
                message,
                sizes,
            ),
            Err(_) => {
                hand_out(b"", OUT_OF_MEMORY, out, message, sizes);
                1
            }
        },
        Err(refusal) => refuse(alloc, &refusal, out, message, sizes),
    }
}

/// Whether the program in the file `main` has undefined behaviour, on any input, and how much of its stack it takes: 0 where it is defined and the stack
/// suffices, 3 where that was not shown; with the places and the verdict as JSON, an object a line. It has no clause but that it is safe.
#[unsafe(no_mangle)]
pub extern "C" fn zk_verify(
    alloc: Global,
    texts: &[u8],
    files: &[FileLengths],
    main: &[u8],
    stack: u32,
    out: &mut [u8],
    message: &mut [u8],
    sizes: &mut Sizes,
) -> u32 {
    let Some(stack) = StackSize::new(stack) else {
        hand_out(b"", b"", out, message, sizes);
        return NO_FILES;
    };
    match given(alloc, texts, files) {
        Ok(set) => match names_of(alloc, texts, files) {
            Ok(names) => tell_verdict(
                alloc,
                &set,
                names.as_slice(),
                text_or_empty(main),
                stack,
                out,
                message,
                sizes,
            ),
            Err(_) => {
                hand_out(b"", OUT_OF_MEMORY, out, message, sizes);
                1
            }
        },
        Err(refusal) => refuse(alloc, &refusal, out, message, sizes),
    }
}

/// Why the program in the file `main` is refused, as JSON, an object for each fault, the one that the compiler reports first; an empty text where it
/// is not. It has no clause but that it is safe.
#[unsafe(no_mangle)]
pub extern "C" fn zk_explain(
    alloc: Global,
    texts: &[u8],
    files: &[FileLengths],
    main: &[u8],
    stack: u32,
    out: &mut [u8],
    message: &mut [u8],
    sizes: &mut Sizes,
) -> u32 {
    let Some(stack) = StackSize::new(stack) else {
        hand_out(b"", b"", out, message, sizes);
        return NO_FILES;
    };
    match given(alloc, texts, files) {
        Ok(set) => match names_of(alloc, texts, files) {
            Ok(names) => tell_faults(
                alloc,
                &set,
                names.as_slice(),
                text_or_empty(main),
                stack,
                out,
                message,
                sizes,
            ),
            Err(_) => {
                hand_out(b"", OUT_OF_MEMORY, out, message, sizes);
                1
            }
        },
        Err(refusal) => refuse(alloc, &refusal, out, message, sizes),
    }
}

/// The undefined behaviour of the program in the file `main` over this input, within at most `max` ticks, explained, as JSON: the values
/// that make it undefined, and the calls that are active there. An empty text, and the line of why the program stopped, where it has none. It has no clause
/// but that it is safe.
#[unsafe(no_mangle)]
pub extern "C" fn zk_explain_run(
    alloc: Global,
    texts: &[u8],
    files: &[FileLengths],
    main: &[u8],
    input: &[u8],
    max: u64,
    out: &mut [u8],
    message: &mut [u8],
    sizes: &mut Sizes,
) -> u32 {
    let run = Run {
        input,
        max,
        stack: StackSize::usual(),
    };
    match given(alloc, texts, files) {
        Ok(set) => match names_of(alloc, texts, files) {
            Ok(names) => tell_act(
                alloc,
                &set,
                names.as_slice(),
                text_or_empty(main),
                &run,
                out,
                message,
                sizes,
            ),
            Err(_) => {
                hand_out(b"", OUT_OF_MEMORY, out, message, sizes);
                1
            }
        },
        Err(refusal) => refuse(alloc, &refusal, out, message, sizes),
    }
}

/// The bytes that an executable file loads: 0 as they are, 1 as Intel's hexadecimal records, 2 as Verilog's `$readmemh` reads them. For
/// another number it returns 256. It has no clause but that it is safe.
#[unsafe(no_mangle)]
pub extern "C" fn zk_image(
    alloc: Global,
    file: &[u8],
    name: &[u8],
    form: u32,
    out: &mut [u8],
    message: &mut [u8],
    sizes: &mut Sizes,
) -> u32 {
    tell_image(alloc, file, text_or_empty(name), form, out, message, sizes)
}

/// The frame and the weight of each function of the program in the file `main`.
#[unsafe(no_mangle)]
pub extern "C" fn zk_frames(
    alloc: Global,
    texts: &[u8],
    files: &[FileLengths],
    main: &[u8],
    out: &mut [u8],
    message: &mut [u8],
    sizes: &mut Sizes,
) -> u32
    ensures { HandsOut (OverFiles (record { texts = texts.now; lengths = files.now }) result (Compiled frames_text (text_or_empty main.now) result))
        (record { before = out.old; after = out.new; told = sizes.new.output })
        (record { before = message.old; after = message.new; told = sizes.new.message }) }
{
    match given(alloc, texts, files) {
        Ok(set) => building::tell_frames(alloc, &set, text_or_empty(main), out, message, sizes),
        Err(refusal) => refuse(alloc, &refusal, out, message, sizes),
    }
}

/// The tokens of the file `main` after preprocessing.
#[unsafe(no_mangle)]
pub extern "C" fn zk_preprocess(
    alloc: Global,
    texts: &[u8],
    files: &[FileLengths],
    main: &[u8],
    out: &mut [u8],
    message: &mut [u8],
    sizes: &mut Sizes,
) -> u32
    ensures { HandsOut (OverFiles (record { texts = texts.now; lengths = files.now }) result (Writes Cmd.Pp (text_or_empty main.now) result))
        (record { before = out.old; after = out.new; told = sizes.new.output })
        (record { before = message.old; after = message.new; told = sizes.new.message }) }
{
    match given(alloc, texts, files) {
        Ok(set) => commands::write_text(
            alloc,
            Cmd::Pp,
            &set,
            text_or_empty(main),
            out,
            message,
            sizes,
        ),
        Err(refusal) => refuse(alloc, &refusal, out, message, sizes),
    }
}

/// The listing of the code of the program in the file `main`.
#[unsafe(no_mangle)]
pub extern "C" fn zk_list(
    alloc: Global,
    texts: &[u8],
    files: &[FileLengths],
    main: &[u8],
    out: &mut [u8],
    message: &mut [u8],
    sizes: &mut Sizes,
) -> u32
    ensures { HandsOut (OverFiles (record { texts = texts.now; lengths = files.now }) result (Writes Cmd.List (text_or_empty main.now) result))
        (record { before = out.old; after = out.new; told = sizes.new.output })
        (record { before = message.old; after = message.new; told = sizes.new.message }) }
{
    match given(alloc, texts, files) {
        Ok(set) => commands::write_text(
            alloc,
            Cmd::List,
            &set,
            text_or_empty(main),
            out,
            message,
            sizes,
        ),
        Err(refusal) => refuse(alloc, &refusal, out, message, sizes),
    }
}

/// A form of the program in the file `main`, as JSON: 0 its tokens after preprocessing, 1 its syntax tree, 2 its typed program, 3 its
/// three-address code, 4 its flat code, 5 the items that its file is assembled from, 6 its flat code after each of its passes. For another number it
/// returns 256. It has no clause but that it is safe.
#[unsafe(no_mangle)]
pub extern "C" fn zk_form(
    alloc: Global,
    texts: &[u8],
    files: &[FileLengths],
    main: &[u8],
    form: u32,
    out: &mut [u8],
    message: &mut [u8],
    sizes: &mut Sizes,
) -> u32 {
    let Some(form) = form_of(form) else {
        hand_out(b"", b"", out, message, sizes);
        return NO_FILES;
    };
    match given(alloc, texts, files) {
        Ok(set) => show_form(alloc, &set, text_or_empty(main), form, out, message, sizes),
        Err(refusal) => refuse(alloc, &refusal, out, message, sizes),
    }
}

/// Interprets the program in the file `main` over this input, for at most `max` ticks.
#[unsafe(no_mangle)]
pub extern "C" fn zk_interpret(
    alloc: Global,
    texts: &[u8],
    files: &[FileLengths],
    main: &[u8],
    input: &[u8],
    max: u64,
    out: &mut [u8],
    message: &mut [u8],
    sizes: &mut Sizes,
) -> u32
    ensures { HandsOut (OverFiles (record { texts = texts.now; lengths = files.now }) result (Puts (Cmd.Interp max) (text_or_empty main.now) [] input.now result))
        (record { before = out.old; after = out.new; told = sizes.new.output })
        (record { before = message.old; after = message.new; told = sizes.new.message }) }
{
    match given(alloc, texts, files) {
        Ok(set) => commands::put_through(
            alloc,
            Cmd::Interp(max),
            &set,
            text_or_empty(main),
            b"",
            input,
            out,
            message,
            sizes,
        ),
        Err(refusal) => refuse(alloc, &refusal, out, message, sizes),
    }
}

/// A trace of the program in the file `main` over this input, for at most `max` ticks, as JSON lines, from the tick `from` on. Where the
/// input is open, that is, where `is_open` is not 0, a read after it returns 257: the run waits for input. It has no clause but that it is safe.
#[unsafe(no_mangle)]
pub extern "C" fn zk_trace(
    alloc: Global,
    texts: &[u8],
    files: &[FileLengths],
    main: &[u8],
    input: &[u8],
    is_open: u32,
    max: u64,
    from: u64,
    out: &mut [u8],
    message: &mut [u8],
    sizes: &mut Sizes,
) -> u32 {
    let asked = Asked {
        main: text_or_empty(main),
        input,
        is_open: is_open != 0,
        max,
        from,
    };
    match given(alloc, texts, files) {
        Ok(set) => tell_trace(alloc, &set, asked, out, message, sizes),
        Err(refusal) => refuse(alloc, &refusal, out, message, sizes),
    }
}

/// Runs the executable file of this name over this input, for at most `max` instructions.
#[unsafe(no_mangle)]
pub extern "C" fn zk_run(
    alloc: Global,
    file: &[u8],
    name: &[u8],
    input: &[u8],
    max: u64,
    out: &mut [u8],
    message: &mut [u8],
    sizes: &mut Sizes,
) -> u32
    ensures { HandsOut (Puts (Cmd.Run max) (text_or_empty name.now) file.now input.now result [])
        (record { before = out.old; after = out.new; told = sizes.new.output })
        (record { before = message.old; after = message.new; told = sizes.new.message }) }
{
    let set = FileSet::new(alloc);
    commands::put_through(
        alloc,
        Cmd::Run(max),
        &set,
        text_or_empty(name),
        file,
        input,
        out,
        message,
        sizes,
    )
}

/// Runs the executable file over this input for `count` instructions, or to where it stops before, or, once it has done
/// `after`, to where the instruction at `halt` is next; and shows the machine: 0 where it continues, 1 where it ended, 2 where it
/// trapped, 3 where memory ran out for the output, 4 where the file is not loaded.
#[unsafe(no_mangle)]
pub extern "C" fn zk_step(
    alloc: Global,
    file: &[u8],
    input: &[u8],
    count: u64,
    after: u64,
    halt: u32,
    from: u32,
    window: &mut [u8],
    out: &mut [u8],
    standing: &mut Standing,
) -> u32
    ensures { Stands file.now input.now count (record { after = after; at = halt }) result standing.new (record { from = from; before = window.old; after = window.new }) (record { before = out.old; after = out.new; told = standing.new.output })
        ⊎ FailsToStand file.now result standing.old standing.new (record { from = from; before = window.old; after = window.new }) (record { before = out.old; after = out.new; told = standing.new.output }) }
{
    stand(
        alloc,
        file,
        input,
        count,
        Halt { after, at: halt },
        from,
        window,
        out,
        standing,
    )
}

/// How many bytes of the caller's memory a machine takes that is kept there, at an address that is a multiple of 16.
#[unsafe(no_mangle)]
pub extern "C" fn zk_machine_size() -> u64 {
    mem::size_of::<Kept>() as u64
}

/// Puts a machine into the caller's memory: it has no file, no memory and no input.
#[unsafe(no_mangle)]
pub unsafe extern "C" fn zk_machine_place(alloc: Global, at: *mut u8)
    requires* { sem 𝓛 (room_at kept_row at) }
    ensures* { sem 𝓛 (fex KeptMachine (λ m. fsep (points_to kept_row at m) (fex (IsNew m) (λ _. ftrue)))) }
{
    ptr::write(at as *mut Kept, Kept::new(alloc))
}

/// Sends the machine that is kept there the request with this number, with two more numbers, and returns the result.
#[unsafe(no_mangle)]
pub unsafe extern "C" fn zk_machine_ask(at: *mut u8, number: u32, a: u64, b: u64) -> u64
    ghost old: { KeptMachine }
    requires* { sem 𝓛 (points_to kept_row at old) }
    ensures* { sem 𝓛 (fex KeptMachine (λ new. fsep (points_to kept_row at new) (fex (Answers number a b old result new) (λ _. ftrue)))) }
{
    let kept = &mut *(at as *mut Kept);
    kept.serve(number, a, b)
}

/// Frees the heap memory of the machine that is kept there; its own memory is the caller's again.
#[unsafe(no_mangle)]
pub unsafe extern "C" fn zk_machine_clear(at: *mut u8)
    ghost old: { KeptMachine }
    requires* { sem 𝓛 (points_to kept_row at old) }
    ensures* { sem 𝓛 (room_at kept_row at) }
{
    end(ptr::read(at as *mut Kept))
}

/// Drops a machine.
fn end(machine: Kept) {
    mem::drop(machine)
}

/// The text of the fault with this number, which is empty where there is none; returns its length.
#[unsafe(no_mangle)]
pub extern "C" fn zk_message(code: u16, out: &mut [u8]) -> u64
    ensures { Got (record { before = out.old; after = out.new; told = result }) (message_of code) }
{
    give(message(code).as_bytes(), out)
}

/// The version; returns the length of its text.
#[unsafe(no_mangle)]
pub extern "C" fn zk_version(out: &mut [u8]) -> u64
    ensures { Got (record { before = out.old; after = out.new; told = result }) version }
{
    give(VERSION, out)
}
