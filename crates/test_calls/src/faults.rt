//! Faults and their texts, and writes that are interrupted.

use srcset::{Code, Fault, Names, Pos, Refusal, message, write_text};
use std::alloc::{AllocError, Global};
use std::io::{self, ErrorKind, Write};
use test_rows::{Answer, Fields};

/// Writes the line of a fault, where it is the one that `Display` shows.
pub fn show_fault(fault: &Fault, answer: &mut Answer) {
    let mut shown = Answer::new(answer.alloc());
    shown.show(fault);
    match fault.to_line(answer.alloc()) {
        Ok(line) if shown.text() == Some(line.as_slice()) => answer.write(line.as_slice()),
        _ => answer.write(b"DIFFERS"),
    }
}

/// `message CODE`: its text, and whether that is a code's.
pub fn message_of(row: &Fields, answer: &mut Answer) {
    let number = u16::try_from(row.number(1)).unwrap_or(0);
    answer.write(message(number).as_bytes());
    answer.write(b"\t");
    match Code::with_number(number) {
        Some(code) => answer.show(&(code.number() == number)),
        None => answer.write(b"none"),
    }
}

/// `messages`: how many numbers have a text.
pub fn messages(answer: &mut Answer) {
    let mut count: u32 = 0;
    for number in 0..=u16::MAX {
        if !message(number).is_empty() {
            count = count.saturating_add(1);
        }
    }
    answer.show(&count);
}

fn line_of(row: &Fields) -> u32 {
    u32::try_from(row.number(3)).unwrap_or(0)
}

/// `fault CODE FILE LINE TEXT`: the line of the fault.
pub fn fault_line(row: &Fields, answer: &mut Answer) {
    let number = u16::try_from(row.number(1)).unwrap_or(0);
    let Some(code) = Code::with_number(number) else {
        return;
    };
    let mut fault = Fault::at(answer.alloc(), code, row.text(2), line_of(row));
    if fault.text.push_str(row.text(4)).is_err() {
        answer.fail();
    }
    show_fault(&fault, answer);
}

/// `refusal CODE FILE LINE TEXT`: the line of its fault. A file without a name has no number, and an empty text none.
pub fn refusal_line(row: &Fields, answer: &mut Answer) {
    let number = u16::try_from(row.number(1)).unwrap_or(0);
    let Some(code) = Code::with_number(number) else {
        return;
    };
    let mut names = Names::new(answer.alloc());
    let pos = Pos {
        file: number_of(&mut names, row.field(2)),
        line: line_of(row),
    };
    let refusal = if row.field(4).is_empty() {
        Refusal::At { code, pos }
    } else {
        Refusal::Told {
            code,
            pos,
            text: number_of(&mut names, row.field(4)),
        }
    };
    show_fault(&refusal.to_fault(answer.alloc(), &names), answer);
}

fn number_of(names: &mut Names, text: &[u8]) -> usize {
    if text.is_empty() {
        return 99;
    }
    names.intern(text).unwrap_or(99)
}

/// `out_of_memory`: the lines of its fault, made in two ways.
pub fn out_of_memory(answer: &mut Answer) {
    let alloc = answer.alloc();
    show_fault(&Fault::memory(alloc), answer);
    answer.write(b" ");
    let names = Names::new(alloc);
    show_fault(&Refusal::from(AllocError).to_fault(alloc, &names), answer);
}

/// A writer that is interrupted `interrupts` times, then takes two bytes at a time, `room` in all.
#[derive(Drop)]
struct Halting {
    interrupts: i64,
    room: usize,
    taken: Answer,
}

impl Write for Halting {
    fn write(&mut self, bytes: &[u8]) -> io::Result<usize> {
        if self.interrupts > 0 {
            self.interrupts -= 1;
            return Err(io::Error::from(ErrorKind::Interrupted));
        }
        let count = bytes.len().min(2).min(self.room);
        self.room -= count;
        self.taken.write(&bytes[..count]);
        Ok(count)
    }

    fn flush(&mut self) -> io::Result<()> {
        Ok(())
    }
}

/// `write INTERRUPTS ROOM TEXT`: whether the text is written, and the part of it that is.
pub fn write(row: &Fields, answer: &mut Answer) {
    let mut writer = Halting {
        interrupts: row.number(1),
        room: usize::try_from(row.number(2)).unwrap_or(0),
        taken: Answer::new(answer.alloc()),
    };
    answer.show(&write_text(&mut writer, row.field(3)));
    answer.write(b" ");
    answer.write(writer.taken.text().unwrap_or(b""));
}
