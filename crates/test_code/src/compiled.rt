//! Results of the compiler that no command of the program `cc` shows.

use cc::{Cmd, StackSize, compile, perform, read_source, write_out};
use io_ports::MemPort;
use srcset::FileSet;
use std::alloc::Global;
use std::io;
use test_rows::{Answer, Fields};

/// `frames SOURCE`: name, bytes and weight of each function's frame.
pub fn frames(row: &Fields, answer: &mut Answer) {
    let alloc = answer.alloc();
    let mut set = FileSet::new(alloc);
    let Ok(source) = row.field(1).to_vec(alloc) else {
        answer.fail();
        return;
    };
    if set.add("main.c", source).is_err() {
        answer.fail();
    }
    match compile(alloc, &set, "main.c") {
        Ok(built) => {
            for (name, bytes, weight) in &built.frames {
                show_frame(name.as_str(), *bytes, *weight, answer);
            }
        }
        Err(fault) => answer.show(&fault),
    }
}

fn show_frame(name: &str, bytes: u32, weight: u32, answer: &mut Answer) {
    answer.write(name.as_bytes());
    answer.write(b" ");
    answer.show(&bytes);
    answer.write(b" ");
    answer.show(&weight);
    answer.write(b";");
}

/// `missing NAME`: the status and the line of a build of a set without files.
pub fn missing(row: &Fields, answer: &mut Answer) {
    let alloc = answer.alloc();
    let set = FileSet::new(alloc);
    let mut port = MemPort::new(alloc, Vec::new(alloc));
    let mut line = Vec::new(alloc);
    let status = perform(
        alloc,
        Cmd::Build("out"),
        &set,
        row.text(1),
        b"",
        &mut port,
        &mut io::sink(),
        &mut line,
        StackSize::usual(),
    );
    answer.show(&status);
    answer.write(b" ");
    answer.field(line.as_slice());
}

/// Writes the result of reading a source and writing it out again, or its length; or the line of its fault.
fn show_passed(source: Vec<u8>, is_counted: bool, answer: &mut Answer) {
    let alloc = answer.alloc();
    let mut port = MemPort::new(alloc, source);
    match read_source(alloc, "main.c", &mut port) {
        Ok(bytes) => {
            if write_out(alloc, "out", bytes.as_slice(), &mut port).is_err() {
                answer.write(b"refused: ");
            }
            if is_counted {
                answer.show(&port.output().len());
            } else {
                answer.field(port.output());
            }
        }
        Err(fault) => answer.show(&fault),
    }
}

/// `passed SOURCE`: the result of reading a source and writing it out again.
pub fn passed(row: &Fields, answer: &mut Answer) {
    match row.field(1).to_vec(answer.alloc()) {
        Ok(source) => show_passed(source, false, answer),
        Err(_) => answer.fail(),
    }
}

/// `passed_length BYTE COUNT`: the length of the result of reading a source of `COUNT` bytes and writing it out again.
pub fn passed_length(row: &Fields, answer: &mut Answer) {
    let count = usize::try_from(row.number(2)).unwrap_or(0);
    match vec![in answer.alloc(); row.letter(1); count] {
        Ok(source) => show_passed(source, true, answer),
        Err(_) => answer.fail(),
    }
}
