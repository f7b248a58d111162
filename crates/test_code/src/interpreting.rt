//! How programs are interpreted.

use crate::answers::{checked, interpreted, parsed};
use io_ports::{MemPort, Port};
use phases::scan;
use srcset::{Fault, MAX_FILE_BYTES, Names, Pos};
use std::alloc::Global;
use test_rows::{Answer, Fields};
use typed_ast::Program;

/// `interpreted TICKS INPUT SOURCE`: how the run ends, the greatest sum of the weights of the active calls, the bytes put, and those of the
/// input that are left.
pub fn interpreted_row(row: &Fields, answer: &mut Answer) {
    let alloc = answer.alloc();
    let ticks = u64::try_from(row.number(1)).unwrap_or(0);
    let Ok(input) = row.field(2).to_vec(alloc) else {
        answer.fail();
        return;
    };
    match program_of(alloc, row.field(3)) {
        Ok(program) => {
            let mut port = MemPort::new(alloc, input);
            let done = interpreted(alloc, &program, &mut port, ticks);
            answer.debug(&done.run);
            answer.write(b", greatest ");
            answer.show(&done.greatest);
            show_port(&mut port, row.field(2).len(), answer);
        }
        Err(fault) => answer.show(&fault),
    }
}

/// Writes the bytes put, and those of an input of `count` bytes that are left.
fn show_port(port: &mut MemPort, count: usize, answer: &mut Answer) {
    answer.write(b", put");
    for byte in port.output() {
        answer.write(b" ");
        answer.show(byte);
    }
    answer.write(b", left");
    for _ in 0..count {
        if let Ok(Some(byte)) = port.get() {
            answer.write(b" ");
            answer.show(&byte);
        }
    }
}

/// The typed program of a source that is not preprocessed.
fn program_of(alloc: Global, text: &[u8]) -> Result<Program, Fault> {
    if text.len() > MAX_FILE_BYTES {
        return Err(Fault::memory(alloc));
    }
    let mut names = Names::new(alloc);
    let file = names.intern(b"main.c").unwrap_or(0);
    let tokens = match scan(alloc, text, file, &names) {
        Ok(lines) => lexer::tokens(alloc, lines.tokens(), &mut names),
        Err(fault) => Err(fault),
    };
    let unit = match tokens {
        Ok(tokens) => parsed(alloc, tokens.as_slice(), &names),
        Err(fault) => Err(fault),
    };
    match unit {
        Ok(unit) => checked(alloc, unit, &names, Pos { file, line: 1 }),
        Err(fault) => Err(fault),
    }
}
