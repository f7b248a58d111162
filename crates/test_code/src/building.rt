//! The files of flat programs.

ghost use Rattle.std.specs.Prelude.{◌≡◌};
ghost use Rattle.frames_code.specs.Code.{program_of};
ghost use Rattle.frames_code.specs.Sound.{IsSoundProgram};

use crate::flat_reader::flat_program;
use crate::running::{Built, show_file, show_name, show_run, show_took};
use asm::assemble;
use elf_out::{Image, StackSize, write_elf};
use frames_code::FlatProgram;
use memory_map::TEXT_START;
use select::select;
use std::alloc::Global;
use test_frames_soundness::is_sound;
use test_rows::{Answer, Fields};

/// The bytes of the text.
fn text_of(alloc: Global, program: &FlatProgram) -> Result<Vec<u8>, &'static str>
    requires { IsSoundProgram (program_of program.now) }
{
    let Ok(items) = select(alloc, program) else {
        return Err("not selected");
    };
    if !items.is_low(TEXT_START) {
        return Err("too many items");
    }
    match assemble(alloc, &items, TEXT_START) {
        Ok(text) => Ok(text),
        Err(_) => Err("a jump is too far"),
    }
}

/// The bytes of main's frame: the temporaries from the ninth on, a word for a byte, the words, the arrays, the address to return to.
fn main_frame(program: &FlatProgram) -> usize {
    let Some(main) = program.functions.get(program.main) else {
        return 0;
    };
    let words = main.outgoing.saturating_add(main.cells).saturating_add(2);
    let bytes = words.saturating_mul(4).saturating_add(main.area);
    (bytes.saturating_add(15) / 16).saturating_mul(16)
}

fn file_of(alloc: Global, text: Vec<u8>, statics: &[u8]) -> Result<Vec<u8>, &'static str> {
    let Ok(statics) = statics.to_vec(alloc) else {
        return Err("no memory");
    };
    let Some(image) = Image::new(text, statics, StackSize::usual()) else {
        return Err("too large");
    };
    match write_elf(alloc, &image) {
        Ok(file) => Ok(file),
        Err(_) => Err("no memory"),
    }
}

/// The file of a flat program that is sound.
pub fn build(alloc: Global, program: &FlatProgram) -> Result<Built, &'static str> {
    if !is_sound(program) {
        return Err("not sound");
    }
    let text = match text_of(alloc, program) {
        Ok(text) => text,
        Err(why) => return Err(why),
    };
    let size = text.len();
    match file_of(alloc, text, program.statics.as_slice()) {
        Ok(file) => Ok(Built {
            file,
            text: size,
            frame: main_frame(program),
        }),
        Err(why) => Err(why),
    }
}

/// `flat NAME INPUT COSTS 0 MAIN LINE LINE ..`: how the program of these lines ends, the bytes that it got and put, or why it does not run so.
pub fn run_flat(row: &Fields, answer: &mut Answer) {
    show_name(row, answer);
    let program = flat_program(row, answer);
    match build(answer.alloc(), &program) {
        Ok(built) => show_run(&built, false, row, answer),
        Err(why) => answer.write(why.as_bytes()),
    }
}

/// `flat_took` with the same: how many instructions it takes, the most by its costs, and the bytes of its text.
pub fn take_flat(row: &Fields, answer: &mut Answer) {
    show_name(row, answer);
    let program = flat_program(row, answer);
    match build(answer.alloc(), &program) {
        Ok(built) => show_took(&built, false, row, answer),
        Err(why) => answer.write(why.as_bytes()),
    }
}

/// `flat_file` with the same: its file.
pub fn write_flat(row: &Fields, answer: &mut Answer) {
    let program = flat_program(row, answer);
    match build(answer.alloc(), &program) {
        Ok(built) => show_file(built.file.as_slice(), answer),
        Err(why) => answer.write(why.as_bytes()),
    }
}

/// `flat_times` with the same, where the costs are a number of times: makes the text that number of times, and prints how many flat instructions it has.
pub fn repeat_flat(row: &Fields, answer: &mut Answer) {
    let program = flat_program(row, answer);
    if !is_sound(&program) {
        answer.write(b"not sound");
        return;
    }
    let mut made: i64 = 0;
    for _ in 0..row.number(3) {
        if text_of(answer.alloc(), &program).is_ok() {
            made = made.saturating_add(1);
        }
    }
    let mut count: usize = 0;
    for function in &program.functions {
        count = count.saturating_add(function.code.len());
    }
    answer.show(&count);
    answer.write(b" flat instructions, ");
    answer.show(&made);
    answer.write(b" times");
}
