//! The effects of a program on its outside.

ghost use Rattle.std.specs.Prelude.{◌≡◌};

use io_ports::{Port, PortFault};
use std::alloc::Global;
use test_rows::Answer;

/// The last event.
#[derive(Clone, Copy, PartialEq, Eq)]
enum Event {
    Got,
    Put,
    End,
}

/// A port over memory that records the bytes got and put, in their order: ` put:` or ` got:` with the bytes that follow one another, or ` end`.
#[derive(Drop)]
pub struct Recorder<'i> {
    input: &'i [u8],
    next: usize,
    trace: Answer,
    last: Event,
    failures: u64,
}

impl<'i> Recorder<'i> {
    /// Nothing was got or put.
    pub fn new(alloc: Global, input: &'i [u8]) -> Recorder<'i> {
        Recorder {
            input,
            next: 0,
            trace: Answer::new(alloc),
            last: Event::End,
            failures: 0,
        }
    }

    /// How many bytes of the input are left.
    pub fn left(&self) -> usize {
        self.input.len().saturating_sub(self.next)
    }

    /// Writes the recorded events.
    pub fn show(&self, answer: &mut Answer) {
        match self.trace.text() {
            Some(text) => answer.write(text),
            None => answer.fail(),
        }
    }
}

/// Writes a byte, after a head where another kind of event came last.
fn note(trace: &mut Answer, is_same: bool, head: &[u8], byte: u8) {
    if !is_same {
        trace.write(head);
    }
    trace.digits(byte);
}

impl<'i> Port for Recorder<'i> {
    ghost use Rattle.std.specs.Prelude.{None};

    ghost seen = { λ p. record { input = None; output = None; failures = p.failures } };

    fn get(&mut self) -> Result<Option<u8>, PortFault> {
        let byte = self.input.get(self.next).copied();
        match byte {
            Some(byte) => {
                note(&mut self.trace, self.last == Event::Got, b" got:", byte);
                self.last = Event::Got;
            }
            None => {
                self.trace.write(b" end");
                self.last = Event::End;
            }
        }
        self.next = self.next.saturating_add(1);
        Ok(byte)
    }

    fn put(&mut self, byte: u8) -> Result<(), PortFault> {
        note(&mut self.trace, self.last == Event::Put, b" put:", byte);
        self.last = Event::Put;
        Ok(())
    }
}
