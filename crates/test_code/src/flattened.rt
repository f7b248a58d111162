//! The files of three-address programs.

ghost use Rattle.std.specs.Prelude.{◌≡◌};

use crate::building::build;
use crate::running::{Built, show_file, show_name, show_run, show_took};
use crate::tac_reader::tac_program;
use frames::flatten;
use frames_code::FlatProgram;
use frames_regalloc::renumber;
use std::alloc::Global;
use tac_code::TacProgram;
use test_rows::{Answer, Fields};
use test_tac_soundness::is_sound;

/// The flat program, its words numbered by their use.
fn flat_of(alloc: Global, program: &TacProgram) -> Result<FlatProgram, &'static str> {
    if !is_sound(program) {
        return Err("not sound");
    }
    let Ok(flat) = flatten(alloc, program) else {
        return Err("no memory");
    };
    match renumber(alloc, flat) {
        Ok(flat) => Ok(flat),
        Err(_) => Err("no memory"),
    }
}

fn build_tac(row: &Fields, answer: &mut Answer) -> Result<Built, &'static str> {
    let program = tac_program(row, answer);
    match flat_of(answer.alloc(), &program) {
        Ok(flat) => build(answer.alloc(), &flat),
        Err(why) => Err(why),
    }
}

/// `tac NAME INPUT COSTS FRAME MAIN LINE LINE ..`: how the program of these lines ends, how many bytes of the input are left, the bytes that it got
/// and put, or why it does not run so.
pub fn run_tac(row: &Fields, answer: &mut Answer) {
    show_name(row, answer);
    match build_tac(row, answer) {
        Ok(built) => show_run(&built, true, row, answer),
        Err(why) => answer.write(why.as_bytes()),
    }
}

/// `tac_took` with the same: how many instructions it takes, the most by its costs, and the bytes of main's frame and of its text.
pub fn take_tac(row: &Fields, answer: &mut Answer) {
    show_name(row, answer);
    match build_tac(row, answer) {
        Ok(built) => show_took(&built, true, row, answer),
        Err(why) => answer.write(why.as_bytes()),
    }
}

/// `tac_file` with the same: its file.
pub fn write_tac(row: &Fields, answer: &mut Answer) {
    match build_tac(row, answer) {
        Ok(built) => show_file(built.file.as_slice(), answer),
        Err(why) => answer.write(why.as_bytes()),
    }
}
