//! Runs of whole programs over memory.

use crate::files::file_of;
use io_ports::{MemPort, Port};
use loader::load;
use sim::Machine;
use test_rows::{Answer, Fields, bytes, decimal};

/// A machine that begins with a file, as `file_of` reads it.
pub fn machine_of(row: &Fields, answer: &mut Answer) -> Option<Machine> {
    let file = file_of(answer.alloc(), row.field(1));
    match load(answer.alloc(), file.as_slice()) {
        Ok(loaded) => Some(Machine::new(loaded)),
        Err(_) => {
            answer.write(b"the file does not load");
            None
        }
    }
}

/// The outcome of each run of the given numbers of steps, with `;` after it.
pub fn show_runs<P: Port>(machine: &mut Machine, port: &mut P, steps: &[u8], answer: &mut Answer) {
    for count in steps.split(|byte| *byte == b' ') {
        let most = u64::try_from(decimal(count)).unwrap_or(0);
        answer.debug(&machine.run(port, most));
        answer.write(b";");
    }
}

/// `run FILE INPUT STEPS STEPS ..`: the outcome of each run of these numbers of steps, the bytes put, the next byte of the input, and how many
/// calls of the port were refused.
pub fn run(row: &Fields, answer: &mut Answer) {
    let Some(mut machine) = machine_of(row, answer) else {
        return;
    };
    let mut port = MemPort::new(answer.alloc(), bytes(answer.alloc(), row.field(2)));
    show_runs(&mut machine, &mut port, row.field(3), answer);
    for byte in port.output() {
        answer.write(b" ");
        answer.hexadecimal(u32::from(*byte));
    }
    let next = port.get();
    answer.write(b";");
    answer.debug(&next);
    answer.write(b";");
    answer.show(&port.failures());
}
