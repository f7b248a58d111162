//! Code and listings of items, and which items are sound and lie low.

use crate::items::{items_of, list_of};
use crate::narrow::NarrowWriter;
use asm::{Item, Items, assemble, list};
use rv32::decode;
use std::alloc::Global;
use std::io::Write;
use test_rows::{Answer, Fields, hexadecimal};

/// The bytes of the code, or the code of the fault, 0 where there is no place for the items.
fn assembled(alloc: Global, items: &Items, base: u32) -> Result<Vec<u8>, u16> {
    if base % 4 != 0 || !items.is_low(base) {
        return Err(0);
    }
    match assemble(alloc, items, base) {
        Ok(bytes) => Ok(bytes),
        Err(fault) => Err(fault.code),
    }
}

/// The code of the fault with which a listing was refused, or 0.
fn listed<W: Write>(alloc: Global, items: &Items, base: u32, writer: &mut W) -> u16 {
    if base % 4 != 0 || !items.is_low(base) {
        return 1;
    }
    match list(alloc, items, base, writer) {
        Ok(()) => 0,
        Err(fault) => fault.code,
    }
}

/// The items of a row after their base, which is in hexadecimal.
fn placed(row: &Fields, answer: &mut Answer) -> Option<(u32, Items)> {
    match items_of(answer.alloc(), row.field(2)) {
        Some(items) => Some((hexadecimal(row.field(1)), items)),
        None => {
            answer.write(b"the items are not sound");
            None
        }
    }
}

/// `word WORD`: the line of a listing of this word alone at 0, whose word is the one that it is encoded to.
pub fn word(row: &Fields, answer: &mut Answer) {
    let alloc = answer.alloc();
    let Some(instr) = decode(hexadecimal(row.field(1))) else {
        answer.write(b"none");
        return;
    };
    let mut plain = Vec::new(alloc);
    if plain.extend_from_slice(&[Item::Plain(instr)]).is_err() {
        answer.fail();
    }
    match Items::new(alloc, plain, 0) {
        Ok(Some(items)) => show_listing(&items, 0, answer),
        Ok(None) => answer.write(b"the items are not sound"),
        Err(_) => answer.fail(),
    }
}

/// The lines of a listing, with `|` after each, or the code of the fault.
fn show_listing(items: &Items, base: u32, answer: &mut Answer) {
    let mut lines = Vec::new(answer.alloc());
    let code = listed(answer.alloc(), items, base, &mut lines);
    if code != 0 {
        answer.show(&code);
        return;
    }
    for byte in &lines {
        answer.write(if *byte == b'\n' {
            b"|"
        } else {
            std::slice::from_ref(byte)
        });
    }
}

/// `code BASE ITEMS`: the words of the items' code, `WORD*COUNT` for equal words that follow one another, or the code of the fault.
pub fn code(row: &Fields, answer: &mut Answer) {
    let Some((base, items)) = placed(row, answer) else {
        return;
    };
    match assembled(answer.alloc(), &items, base) {
        Ok(bytes) => show_words(bytes.as_slice(), answer),
        Err(code) => answer.show(&code),
    }
}

fn show_words(bytes: &[u8], answer: &mut Answer) {
    let mut before = 0;
    let mut count: usize = 0;
    for four in bytes.chunks(4) {
        let word = match four {
            [a, b, c, d] => u32::from_le_bytes([*a, *b, *c, *d]),
            _ => 0,
        };
        if count > 0 && word != before {
            show_times(before, count, answer);
            answer.write(b" ");
            count = 0;
        }
        before = word;
        count = count.saturating_add(1);
    }
    show_times(before, count, answer);
}

fn show_times(word: u32, count: usize, answer: &mut Answer) {
    answer.hexadecimal(word);
    answer.write(b"*");
    answer.show(&count);
}

/// `size BASE ITEMS`: how many bytes the items' code has, or the code of the fault.
pub fn size(row: &Fields, answer: &mut Answer) {
    let Some((base, items)) = placed(row, answer) else {
        return;
    };
    match assembled(answer.alloc(), &items, base) {
        Ok(bytes) => answer.show(&bytes.len()),
        Err(code) => answer.show(&code),
    }
}

/// `jump BASE ITEMS`: the codes of the faults of the code and of the listing, 0 for none, and whether a line is listed.
pub fn jump(row: &Fields, answer: &mut Answer) {
    let Some((base, items)) = placed(row, answer) else {
        return;
    };
    let code = match assembled(answer.alloc(), &items, base) {
        Ok(_) => 0,
        Err(code) => code,
    };
    let mut lines = Vec::new(answer.alloc());
    let refused = listed(answer.alloc(), &items, base, &mut lines);
    answer.show(&code);
    answer.write(b" ");
    answer.show(&refused);
    answer.write(b" ");
    answer.show(&!lines.is_empty());
}

/// `listing BASE ITEMS`: the lines of the listing, and for how many writers that refuse from some byte on it fails with 803, with just
/// the bytes before written.
pub fn listing(row: &Fields, answer: &mut Answer) {
    let Some((base, items)) = placed(row, answer) else {
        return;
    };
    let mut whole = Vec::new(answer.alloc());
    let _code = listed(answer.alloc(), &items, base, &mut whole);
    show_listing(&items, base, answer);
    answer.show(&refusals(answer.alloc(), &items, base, whole.as_slice()));
}

/// How many writers with less room than these bytes are refused with just the bytes before written.
fn refusals(alloc: Global, items: &Items, base: u32, whole: &[u8]) -> usize {
    let mut refused: usize = 0;
    for room in 0..=whole.len() {
        let mut writer = NarrowWriter::new(alloc, room);
        let code = listed(alloc, items, base, &mut writer);
        if code == 803 && writer.taken() == whole.get(..room) {
            refused = refused.saturating_add(1);
        }
    }
    refused
}

/// `sound LABELS ITEMS`: whether the items are sound.
pub fn sound(row: &Fields, answer: &mut Answer) {
    let labels = usize::try_from(row.number(1)).unwrap_or(0);
    let list = list_of(answer.alloc(), row.field(2));
    match Items::new(answer.alloc(), list, labels) {
        Ok(made) => answer.show(&made.is_some()),
        Err(_) => answer.fail(),
    }
}

/// `low BASE ITEMS`: whether the items lie low.
pub fn low(row: &Fields, answer: &mut Answer) {
    if let Some((base, items)) = placed(row, answer) {
        answer.show(&items.is_low(base));
    }
}
