//! Files on the machine, and the reports on them. The first fields of a row are the name, the input, the most instructions of the run, and
//! the most bytes of main's frame, 0 for any.

use crate::trace::Recorder;
use loader::load;
use sim::{Machine, Outcome};
use std::alloc::Global;
use test_rows::{Answer, Fields};

/// A file, the bytes of its text, and those of main's frame.
#[derive(Drop)]
pub struct Built {
    pub file: Vec<u8>,
    pub text: usize,
    pub frame: usize,
}

/// The status with which a program ended, and after how many instructions.
#[derive(Clone, Copy)]
struct Ended {
    status: u8,
    instructions: u64,
}

/// Runs a file for at most `most` instructions.
fn run_file(
    alloc: Global,
    file: &[u8],
    port: &mut Recorder<'_>,
    most: u64,
) -> Result<Ended, &'static str> {
    let Ok(loaded) = load(alloc, file) else {
        return Err("the file does not load");
    };
    let mut machine = Machine::new(loaded);
    for instructions in 1..=most {
        match machine.run(port, 1) {
            Outcome::Budget => {}
            Outcome::Ended(status) => {
                return Ok(Ended {
                    status,
                    instructions,
                });
            }
            _ => return Err("the machine trapped"),
        }
    }
    Err("the machine takes more instructions than its costs")
}

/// The name of the row's program.
pub fn show_name(row: &Fields, answer: &mut Answer) {
    answer.write(row.field(1));
    answer.write(b": ");
}

fn most_of(row: &Fields) -> u64 {
    u64::try_from(row.number(3)).unwrap_or(0)
}

/// Writes how the program ends, how many bytes of the input are left where that is requested, and the bytes that it got and put, in this order.
pub fn show_run(built: &Built, is_left_told: bool, row: &Fields, answer: &mut Answer) {
    let room = usize::try_from(row.number(4)).unwrap_or(0);
    if room > 0 && built.frame > room {
        answer.write(b"the frame of main is larger");
        return;
    }
    let mut port = Recorder::new(answer.alloc(), row.field(2));
    match run_file(
        answer.alloc(),
        built.file.as_slice(),
        &mut port,
        most_of(row),
    ) {
        Ok(ended) => {
            answer.write(b"ends ");
            answer.show(&ended.status);
            if is_left_told {
                answer.write(b" ");
                answer.show(&port.left());
            }
            port.show(answer);
        }
        Err(why) => answer.write(why.as_bytes()),
    }
}

/// Writes how many instructions the program takes, the most by its costs, and the bytes of its text, with those of main's frame where they are requested.
pub fn show_took(built: &Built, is_frame_told: bool, row: &Fields, answer: &mut Answer) {
    let mut port = Recorder::new(answer.alloc(), row.field(2));
    match run_file(
        answer.alloc(),
        built.file.as_slice(),
        &mut port,
        most_of(row),
    ) {
        Ok(ended) => {
            answer.show(&ended.instructions);
            answer.write(b" instructions of at most ");
            answer.show(&most_of(row));
            if is_frame_told {
                answer.write(b", a frame of ");
                answer.show(&built.frame);
            }
            answer.write(b", ");
            answer.show(&built.text);
            answer.write(b" bytes");
        }
        Err(why) => answer.write(why.as_bytes()),
    }
}

/// Writes a file, two hexadecimal digits a byte.
pub fn show_file(file: &[u8], answer: &mut Answer) {
    for byte in file {
        answer.digits(*byte);
    }
}
