//! Calls of a state and of its memory, with their results.

use crate::files::file_of;
use loader::load;
use rv32::{Five, Memory, Segment, State, is_laid_out, step};
use std::alloc::Global;
use test_rows::{Answer, Fields, Words, bytes, hexadecimal};

/// `memory TEXT CALL;..` over the bytes of a text at 0x1000 and eight bytes of data in two segments from 0x2000 on.
pub fn calls_of_text(row: &Fields, answer: &mut Answer) {
    let alloc = answer.alloc();
    let text = bytes(alloc, row.field(1));
    let mut segments = Vec::new(alloc);
    for (start, bytes) in [
        (0x2002, b"\x83\x84\x85\x86\x87\x88".as_slice()),
        (0x1000, text.as_slice()),
        (0x2000, b"\x81\x82".as_slice()),
    ] {
        if segments.push(segment(alloc, start, bytes)).is_err() {
            answer.fail();
        }
    }
    if !is_laid_out(segments.as_slice()) {
        answer.write(b"the segments share an address");
        return;
    }
    let mut state = State {
        registers: [0; 32],
        pc: 0x1000,
        memory: Memory::new(segments),
    };
    answer_calls(&mut state, row.field(2), answer);
}

/// A segment of text below 0x2000, and of data from there on. Of a text that is too long there is nothing.
fn segment(alloc: Global, start: u32, bytes: &[u8]) -> Segment {
    let start = start.min(0x2002);
    let bytes = if bytes.len() < 0x1000 { bytes } else { b"" };
    Segment {
        start,
        bytes: bytes.to_vec(alloc).unwrap_or(Vec::new(alloc)),
        readable: true,
        writable: start >= 0x2000,
        executable: start < 0x2000,
    }
}

/// `image FILE CALL;..`, of the state in which the file begins.
pub fn calls_of_image(row: &Fields, answer: &mut Answer) {
    let alloc = answer.alloc();
    let Ok(loaded) = load(alloc, file_of(alloc, row.field(1)).as_slice()) else {
        answer.write(b"the file does not load");
        return;
    };
    let mut state = State {
        registers: [0; 32],
        pc: loaded.entry(),
        memory: loaded.into_memory(),
    };
    answer_calls(&mut state, row.field(2), answer);
}

/// The result of each call, with `;` after it.
fn answer_calls(state: &mut State, calls: &[u8], answer: &mut Answer) {
    for call in calls.split(|byte| *byte == b';') {
        let mut words = Words::new(call, b' ');
        answer_call(state, &mut words, answer);
        answer.write(b";");
    }
}

/// A call is a letter and its arguments: `s` step, `p` the pc, `a` advance, `j` jump, `r` and `w` for a register; after an address `f` fetch,
/// `W`, `H` and `B` load a word, a half and a byte, `c` whether it can be written, and `o`, `h` and `b` store a word, a half and a byte.
fn answer_call(state: &mut State, words: &mut Words<'_>, answer: &mut Answer) {
    let letter = *words.word().first().unwrap_or(&0);
    match letter {
        b's' => answer.debug(&step(state)),
        b'p' => answer.hexadecimal(state.pc),
        b'a' => state.advance(),
        b'j' => state.pc = hexadecimal(words.word()),
        b'r' => answer.hexadecimal(state.read(next_register(words))),
        b'w' => {
            let register = next_register(words);
            state.write(register, hexadecimal(words.word()));
        }
        _ => answer_access(&mut state.memory, letter, words, answer),
    }
}

fn next_register(words: &mut Words<'_>) -> Five {
    Five::new((u32::try_from(words.number()).unwrap_or(0) % 32) as u8)
}

fn answer_access(memory: &mut Memory, letter: u8, words: &mut Words<'_>, answer: &mut Answer) {
    let address = hexadecimal(words.word());
    if words.is_over() {
        show_loaded(memory, letter, address, answer);
    } else {
        let value = hexadecimal(words.word());
        answer.show(&stored(memory, letter, address, value));
    }
}

fn stored(memory: &mut Memory, letter: u8, address: u32, value: u32) -> bool {
    if address >= 0xFFFF_FFF0 {
        return false;
    }
    match letter {
        b'b' => memory.store_byte(address, (value % 0x100) as u8),
        b'h' => memory.store_half(address, value),
        _ => memory.store_word(address, value),
    }
}

fn show_loaded(memory: &Memory, letter: u8, address: u32, answer: &mut Answer) {
    if address >= 0xFFFF_FFF0 {
        answer.write(b"the address is too high");
        return;
    }
    match letter {
        b'f' => answer.debug(&memory.fetch(address)),
        b'W' => answer.debug(&memory.load_word(address)),
        b'H' => answer.debug(&memory.load_half(address)),
        b'B' => answer.debug(&memory.load_byte(address)),
        _ => answer.show(&memory.can_write(address)),
    }
}
