//! A port over a reader and a writer.

ghost use Rattle.std.specs.Prelude.{◌≡◌, ◌≤◌, ◌↔◌, ◌∷◌, [], true, false, None, Some, Ok, IsTrue, IsOk, IfSome, MatchResult, IfErr};
ghost use Rattle.std.specs.Io.KnownBytes.{Keeps, Appends, ReadConsumes, WriteAppends};
ghost use Rattle.std.specs.Io.{ReadsAtMost, WritesAtMost};
ghost use Rattle.std.specs.Io.Buffered.{reader_buffer, reader_remaining};
ghost use Rattle.std.specs.IoError.{error_kind};
ghost use Rattle.io_ports.specs.Port.{GivesByte, Flushes, IsRefused};
ghost use Rattle.io_ports.specs.Streams.{port_of};
ghost use Rattle.io_ports.specs.inside.Answers as answers;

use crate::port::{Port, PortFault};
use srcset::TRIES;
use std::io::{self, BufRead, BufReader, ErrorKind, Read, Write};
use std::marker::Model;

/// A reader in and a writer out, whose output is flushed before the reader is read beyond its buffer's contents. It shows the input left and the output so far
/// where these do.
#[derive(Drop)]
pub struct IoPort<R: Read + Drop, W: Write + Drop> {
    reader: BufReader<R>,
    writer: W,
    failures: u64,
    late: bool,
}

impl<R: Read + Drop, W: Write + Drop> Model for IoPort<R, W> {
    ghost use Rattle.std.specs.Io.Buffered.{reader_remaining};
    ghost use Rattle.io_ports.specs.Streams.{StreamsView};

    ghost Value = { StreamsView };

    ghost view = { λ p. record { input = reader_remaining R.remaining p.reader; output = W.contents p.writer; failures = p.failures; late = p.late } };
}

impl<R: Read + Drop, W: Write + Drop> IoPort<R, W> {
    /// A port over both, with no failure yet.
    pub fn new(reader: BufReader<R>, writer: W) -> Self
        ensures { result ≡ record { input = reader_remaining R.remaining reader; output = W.contents writer; failures = 0; late = false } }
    {
        IoPort {
            reader,
            writer,
            failures: 0,
            late: false,
        }
    }

    /// The reader and the writer.
    pub fn into_inner(self) -> (BufReader<R>, W)
        ensures input { self.input ≡ reader_remaining R.remaining result.0 }
        ensures output { self.output ≡ W.contents result.1 }
    {
        let IoPort {
            reader,
            writer,
            failures: _,
            late: _,
        } = self;
        (reader, writer)
    }

    /// Flushes a buffering writer. To be called once after the last `put`, since only then is it known that the output was written. It refuses where it was
    /// not, and where an earlier flush failed.
    pub fn finish(&mut self) -> Result<(), PortFault>
        ensures flushes { MatchResult result (λ _. Flushes (port_of self.old) (port_of self.new)) (λ _. IsRefused (port_of self.old) (port_of self.new)) }
        ensures write { IfErr result (λ fault. fault ≡ PortFault.Write) }
        ensures late { result ≡ Ok tt ↔ (self.new.late ≡ false) }
        ensures stays { self.old.late ≡ true → self.new.late ≡ true }
    {
        self.late = hand_on(&mut self.writer, self.late);
        if self.late {
            return Err(self.refuse(PortFault::Write));
        }
        Ok(())
    }

    /// Counts a failure.
    fn refuse(&mut self, fault: PortFault) -> PortFault
        ensures fault { result ≡ fault }
        ensures refused { IsRefused (port_of self.old) (port_of self.new) }
        ensures late { self.new.late ≡ self.old.late }
        ensures output { self.new.output ≡ self.old.output }
    {
        self.failures = self.failures.saturating_add(1);
        fault
    }
}

/// Whether a signal interrupted a call, which is then tried again.
fn is_interrupted(answer: &io::Result<usize>) -> bool
    ensures { IsTrue result ↔ MatchResult answer.now (λ _. ⊥) (λ error. error_kind error ≡ ErrorKind.Interrupted) }
{
    match answer {
        Ok(_) => false,
        Err(error) => error.kind() == ErrorKind::Interrupted,
    }
}

/// The meaning of a reader's result where one byte was requested, which is then `byte`.
fn given(answer: io::Result<usize>, byte: u8) -> Result<Option<u8>, PortFault>
    ensures { result ≡ answers.given answer byte }
{
    match answer {
        Ok(0) => Ok(None),
        Ok(_) => Ok(Some(byte)),
        Err(_) => Err(PortFault::Read),
    }
}

/// The meaning of a writer's result where it was given one byte.
fn taken(answer: io::Result<usize>) -> Result<(), PortFault>
    ensures ok { IsOk result ↔ (answer ≡ Ok 1) }
    ensures fault { IfErr result (λ fault. fault ≡ PortFault.Write) }
{
    match answer {
        Ok(1) => Ok(()),
        Ok(_) | Err(_) => Err(PortFault::Write),
    }
}

/// Whether output is late once a flush was answered so.
fn is_late(earlier: bool, answer: io::Result<()>) -> bool
    ensures { result ≡ false ↔ (earlier ≡ false) × IsOk answer }
{
    match answer {
        Ok(()) => earlier,
        Err(_refusal) => true,
    }
}

/// Flushes a writer, and returns whether output is late then.
fn hand_on<W: Write>(writer: &mut W, late: bool) -> bool
    ensures keeps { Keeps (W.contents writer.old) (W.contents writer.new) }
    ensures stays { late ≡ true → result ≡ true }
{
    is_late(late, writer.flush())
}

/// The next byte that the reader's buffer holds.
#[inline(always)]
fn next_held<R: Read>(reader: &mut BufReader<R>) -> Option<u8>
    ensures takes { IfSome result (λ byte. GivesByte (reader_remaining R.remaining reader.old) (reader_remaining R.remaining reader.new) (Some byte)) }
    ensures none { result ≡ None → (reader.new ≡ reader.old) × (reader_buffer reader.old ≡ []) }
{
    match reader.buffer().first() {
        Some(byte) => {
            let byte = *byte;
            reader.consume(1);
            Some(byte)
        }
        None => None,
    }
}

/// The first result of a reader that is not an interruption, or that of the last try; and how many tries there were.
fn ask<R: Read>(reader: &mut R, one: &mut [u8]) -> (io::Result<usize>, u32)
    ensures bound { ReadsAtMost result.0 one.new }
    ensures bytes { ReadConsumes (R.remaining reader.old) (R.remaining reader.new) result.0 one.new }
    ensures tries { (1 ≤ result.1) × (result.1 ≤ answers.tries) }
    ensures patient { MatchResult result.0 (λ _. ⊥) (λ error. error_kind error ≡ ErrorKind.Interrupted) → result.1 ≡ answers.tries }
{
    for turn in 1..TRIES {
        let answer = reader.read(one);
        if !is_interrupted(&answer) {
            return (answer, turn);
        }
    }
    (reader.read(one), TRIES)
}

/// The first result of a writer that is not an interruption, or that of the last try; and how many tries there were.
fn offer<W: Write>(writer: &mut W, one: &[u8]) -> (io::Result<usize>, u32)
    ensures bound { WritesAtMost result.0 one.now }
    ensures bytes { WriteAppends (W.contents writer.old) (W.contents writer.new) result.0 one.now }
    ensures tries { (1 ≤ result.1) × (result.1 ≤ answers.tries) }
    ensures patient { MatchResult result.0 (λ _. ⊥) (λ error. error_kind error ≡ ErrorKind.Interrupted) → result.1 ≡ answers.tries }
{
    for turn in 1..TRIES {
        let answer = writer.write(one);
        if !is_interrupted(&answer) {
            return (answer, turn);
        }
    }
    (writer.write(one), TRIES)
}

/// The next byte, or `None` at the end.
fn read_byte<R: Read>(reader: &mut R) -> Result<Option<u8>, PortFault>
    ensures gives { MatchResult result (λ byte. GivesByte (R.remaining reader.old) (R.remaining reader.new) byte) (λ _. Keeps (R.remaining reader.old) (R.remaining reader.new)) }
    ensures fault { IfErr result (λ fault. fault ≡ PortFault.Read) }
{
    let mut one = [0u8; 1];
    let (answer, _tries) = ask(reader, &mut one);
    given(answer, one[0])
}

/// Writes one byte.
fn write_byte<W: Write>(writer: &mut W, byte: u8) -> Result<(), PortFault>
    ensures appends { MatchResult result (λ _. Appends (W.contents writer.old) (W.contents writer.new) (byte ∷ [])) (λ _. Keeps (W.contents writer.old) (W.contents writer.new)) }
    ensures fault { IfErr result (λ fault. fault ≡ PortFault.Write) }
{
    let (answer, _tries) = offer(writer, &[byte]);
    taken(answer)
}

impl<R: Read + Drop, W: Write + Drop> Port for IoPort<R, W> {
    ghost use Rattle.std.specs.Prelude.{◌≡◌, ◌⊎◌, MatchResult, IfErr, IfOk, true, false};
    ghost use Rattle.io_ports.specs.Port.{Gets, Puts, Flushes, IsRefused};
    ghost use Rattle.io_ports.specs.Streams.{port_of};
    ghost use Rattle.io_ports.specs.declared.port.PortFault.TheVariants as port_fault;

    ghost seen = { port_of };

    ghost refused_with = { λ _ fault. (fault ≡ port_fault.Read) ⊎ (fault ≡ port_fault.Write) };

    /// It refuses only by `PortFault::Read`.
    fn get(&mut self) -> Result<Option<u8>, PortFault>
        ensures gets { MatchResult result (λ byte. Gets (port_of self.old) (port_of self.new) byte) (λ _. IsRefused (port_of self.old) (port_of self.new)) }
        ensures read { IfErr result (λ fault. fault ≡ PortFault.Read) }
        ensures stays { self.old.late ≡ true → self.new.late ≡ true }
    {
        if let Some(byte) = next_held(&mut self.reader) {
            return Ok(Some(byte));
        }
        self.late = hand_on(&mut self.writer, self.late);
        match read_byte(&mut self.reader) {
            Ok(byte) => Ok(byte),
            Err(fault) => Err(self.refuse(fault)),
        }
    }

    /// It refuses only by `PortFault::Write`, and always once output was late.
    fn put(&mut self, byte: u8) -> Result<(), PortFault>
        ensures puts { MatchResult result (λ _. Puts (port_of self.old) (port_of self.new) byte) (λ _. IsRefused (port_of self.old) (port_of self.new)) }
        ensures write { IfErr result (λ fault. fault ≡ PortFault.Write) }
        ensures late { IfOk result (λ _. self.old.late ≡ false) }
        ensures stays { self.new.late ≡ self.old.late }
    {
        if self.late {
            return Err(self.refuse(PortFault::Write));
        }
        match write_byte(&mut self.writer, byte) {
            Ok(()) => Ok(()),
            Err(fault) => Err(self.refuse(fault)),
        }
    }

    fn rest(&mut self)
        ensures flushes { Flushes (port_of self.old) (port_of self.new) }
        ensures stays { self.old.late ≡ true → self.new.late ≡ true }
    {
        self.late = hand_on(&mut self.writer, self.late);
    }
}
