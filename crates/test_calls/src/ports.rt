//! Readers, writers and ports that are interrupted and refuse.

ghost use Rattle.std.specs.Prelude.{◌≡◌};

use crate::runs::{machine_of, show_runs};
use io_ports::{IoPort, Port, PortFault};
use std::alloc::Global;
use std::io;
use std::io::{BufReader, ErrorKind, Read, Write};
use test_rows::{Answer, Fields, decimal};

/// A reader of these bytes, whose first call for each is interrupted, and which fails past the last one where
/// it is to.
#[derive(Drop)]
struct TestReader {
    bytes: Vec<u8>,
    next: usize,
    interrupted: bool,
    fails_at_end: bool,
}

impl Read for TestReader {
    fn read(&mut self, buf: &mut [u8]) -> io::Result<usize> {
        self.interrupted = !self.interrupted;
        if self.interrupted {
            return Err(io::Error::from(ErrorKind::Interrupted));
        }
        if buf.is_empty() {
            return Ok(0);
        }
        if self.next < self.bytes.len() {
            buf[0] = self.bytes[self.next];
            self.next += 1;
            Ok(1)
        } else if self.fails_at_end {
            Err(io::Error::from(ErrorKind::Other))
        } else {
            Ok(0)
        }
    }
}

/// A writer whose every first call is interrupted, and which refuses once `room` bytes are written.
#[derive(Drop)]
struct TestWriter {
    taken: Answer,
    written: usize,
    room: usize,
    interrupted: bool,
}

impl Write for TestWriter {
    fn write(&mut self, buf: &[u8]) -> io::Result<usize> {
        self.interrupted = !self.interrupted;
        if self.interrupted {
            return Err(io::Error::from(ErrorKind::Interrupted));
        }
        match buf {
            [first, ..] => {
                if self.written >= self.room {
                    return Err(io::Error::from(ErrorKind::Other));
                }
                self.taken.write(&[*first]);
                self.written = self.written.saturating_add(1);
                Ok(1)
            }
            [] => Ok(0),
        }
    }

    fn flush(&mut self) -> io::Result<()> {
        if self.room == 0 {
            Err(io::Error::from(ErrorKind::Other))
        } else {
            Ok(())
        }
    }
}

fn reader_of(row: &Fields, answer: &mut Answer) -> TestReader {
    let bytes = match row.field(2).to_vec(answer.alloc()) {
        Ok(bytes) => bytes,
        Err(_) => {
            answer.fail();
            Vec::new(answer.alloc())
        }
    };
    TestReader {
        bytes,
        next: 0,
        interrupted: false,
        fails_at_end: row.field(3) == b"fails".as_slice(),
    }
}

fn writer_of(row: &Fields, answer: &Answer) -> TestWriter {
    TestWriter {
        taken: Answer::new(answer.alloc()),
        written: 0,
        room: usize::try_from(row.number(4)).unwrap_or(0),
        interrupted: false,
    }
}

/// `port FILE INPUT ends|fails ROOM STEPS STEPS ..`, over a reader and a writer that are interrupted: the outcome of each run, the
/// result of `finish`, the bytes put, and those of the input that are left.
pub fn run(row: &Fields, answer: &mut Answer) {
    let Some(mut machine) = machine_of(row, answer) else {
        return;
    };
    let Ok(reader) = BufReader::with_capacity(answer.alloc(), 0, reader_of(row, answer)) else {
        answer.fail();
        return;
    };
    let mut port = IoPort::new(reader, writer_of(row, answer));
    show_runs(&mut machine, &mut port, row.field(5), answer);
    answer.debug(&port.finish());
    let (reader, writer) = port.into_inner();
    let reader = reader.into_inner();
    answer.write(b";");
    answer.field(writer.taken.text().unwrap_or(b""));
    answer.write(b";");
    answer.field(reader.bytes.get(reader.next..).unwrap_or(&[]));
}

/// A port that refuses each call, and reports neither its input nor its output.
#[derive(Drop)]
struct RefusingPort {
    failures: u64,
}

impl Port for RefusingPort {
    ghost use Rattle.std.specs.Prelude.{None};

    ghost seen = { λ p. record { input = None; output = None; failures = p.failures } };

    fn get(&mut self) -> Result<Option<u8>, PortFault> {
        self.failures = self.failures.saturating_add(1);
        Err(PortFault::Read)
    }

    fn put(&mut self, _: u8) -> Result<(), PortFault> {
        self.failures = self.failures.saturating_add(1);
        Err(PortFault::Write)
    }
}

/// `silent FILE STEPS STEPS ..`, over a port that refuses each call: the outcome of each run, and how many calls were refused by then.
pub fn run_silent(row: &Fields, answer: &mut Answer) {
    let Some(mut machine) = machine_of(row, answer) else {
        return;
    };
    let mut port = RefusingPort { failures: 0 };
    for count in row.field(2).split(|byte| *byte == b' ') {
        let most = u64::try_from(decimal(count)).unwrap_or(0);
        answer.debug(&machine.run(&mut port, most));
        answer.write(b" ");
        answer.show(&port.failures);
        answer.write(b";");
    }
}
