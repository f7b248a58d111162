//! A port that shows on a terminal that a run is still in progress.

ghost use Rattle.std.specs.Prelude.{◌≡◌};

use io_ports::{Port, PortFault};
use std::time::{Clock, Instant};

/// The number of seconds that a run takes before its duration is shown.
const PATIENCE: u64 = 2;

/// A port over another, which shows on standard error how long the run has taken, once a second: where that is a terminal, and nothing was
/// written before to a standard output that is one too.
#[derive(Drop)]
pub struct Watching<'a, R: Clock + Eprint, P: Port + Drop> {
    rt: &'a R,
    pub inner: P,
    // When the run began; none where nothing is shown.
    start: Option<Instant>,
    // The number of seconds shown last; 0 where none was.
    told: u64,
    shares_terminal: bool,
}

impl<'a, R: Clock + Eprint, P: Port + Drop> Watching<'a, R, P> {
    /// A port over this one; the run begins now. `is_terminal` says that standard error is one, `shares_terminal` that standard output is.
    pub fn new(rt: &'a R, inner: P, is_terminal: bool, shares_terminal: bool) -> Self {
        let start = if is_terminal {
            Instant::now(rt).ok()
        } else {
            None
        };
        Watching {
            rt,
            inner,
            start,
            told: 0,
            shares_terminal,
        }
    }

    /// Erases the number shown.
    pub fn clear(&mut self)
        ensures { self.new.inner ≡ self.old.inner }
    {
        if self.told != 0 {
            self.told = 0;
            let _cleared = eprint!(self.rt; "\r\x1b[K");
        }
    }

    fn tell(&mut self)
        ensures { self.new.inner ≡ self.old.inner }
    {
        let Some(start) = self.start else {
            return;
        };
        let Ok(passed) = start.elapsed(self.rt) else {
            return;
        };
        let seconds = passed.as_secs();
        if seconds >= PATIENCE && seconds != self.told {
            self.told = seconds;
            let _told = eprint!(self.rt; "\rcc: running, {seconds} s");
        }
    }
}

impl<'a, R: Clock + Eprint, P: Port + Drop> Port for Watching<'a, R, P> {
    ghost seen = { λ p. P.seen p.inner };

    fn get(&mut self) -> Result<Option<u8>, PortFault> {
        self.inner.get()
    }

    fn put(&mut self, byte: u8) -> Result<(), PortFault> {
        if self.shares_terminal {
            self.clear();
            self.start = None;
        }
        self.inner.put(byte)
    }

    fn rest(&mut self) {
        self.inner.rest();
        self.tell();
    }
}
