//! Items described by a text.

use asm::{Item, Items, ItemsBuilder, Label};
use rv32::{Five, ImmediateOp, Instr, Short, Test, decode};
use std::alloc::Global;
use test_rows::Words;

fn next_number(words: &mut Words<'_>) -> u32 {
    u32::try_from(words.number()).unwrap_or(0)
}

fn next_register(words: &mut Words<'_>) -> Five {
    Five::new((next_number(words) % 32) as u8)
}

fn next_label(words: &mut Words<'_>) -> Label {
    Label::new(next_number(words) as usize)
}

fn next_test(words: &mut Words<'_>) -> Test {
    match next_number(words) {
        0 => Test::Equal,
        1 => Test::NotEqual,
        2 => Test::Less,
        3 => Test::GreaterEqual,
        4 => Test::LessUnsigned,
        _ => Test::GreaterEqualUnsigned,
    }
}

fn nop() -> Item {
    let zero = Five::new(0);
    Item::Plain(Instr::Immediate {
        op: ImmediateOp::Add,
        rd: zero,
        left: zero,
        right: Short::new(0),
    })
}

fn next_item(kind: u8, words: &mut Words<'_>) -> Option<Item> {
    match kind {
        b'L' => Some(Item::Mark(next_label(words))),
        b'I' => Some(Item::Plain(decode(next_number(words))?)),
        b'B' => Some(Item::Branch {
            test: next_test(words),
            left: next_register(words),
            right: next_register(words),
            to: next_label(words),
        }),
        b'J' => Some(Item::Jump {
            to: next_label(words),
        }),
        b'C' => Some(Item::Call {
            to: next_label(words),
        }),
        b'n' => Some(Item::NearCall {
            to: next_label(words),
        }),
        b'K' => Some(Item::Constant {
            rd: next_register(words),
            value: next_number(words),
        }),
        b'A' => Some(Item::LabelAddress {
            rd: next_register(words),
            of: next_label(words),
        }),
        b'D' => Some(Item::DataAddress {
            rd: next_register(words),
            offset: next_number(words),
        }),
        _ => None,
    }
}

/// Adds the item of a text, or a number of instructions that do nothing.
fn add_item(items: &mut Vec<Item>, text: &[u8]) -> bool {
    let mut words = Words::new(text, b' ');
    let kind = *words.word().first().unwrap_or(&0);
    if kind == b'N' {
        return add_times(items, &nop(), next_number(&mut words));
    }
    match next_item(kind, &mut words) {
        Some(item) => add_times(items, &item, 1),
        None => false,
    }
}

fn add_times(items: &mut Vec<Item>, item: &Item, times: u32) -> bool {
    for _ in 0..times {
        if items.extend_from_slice(std::slice::from_ref(item)).is_err() {
            return false;
        }
    }
    true
}

/// The items that the text describes; none where it is malformed.
pub fn list_of(alloc: Global, text: &[u8]) -> Vec<Item> {
    let mut items = Vec::new(alloc);
    let mut is_read = true;
    for part in text.split(|byte| *byte == b';') {
        is_read = is_read && add_item(&mut items, part);
    }
    if !is_read {
        items.clear();
    }
    items
}

/// The same as sound items, where each mark gives out one more label.
pub fn items_of(alloc: Global, text: &[u8]) -> Option<Items> {
    let mut builder = ItemsBuilder::new(alloc);
    let mut is_built = true;
    for item in list_of(alloc, text) {
        if let Item::Mark(_) = item {
            is_built = is_built && builder.label().is_ok();
        }
        is_built = is_built && builder.push(item).is_ok();
    }
    let items = builder.finish();
    if is_built { items } else { None }
}
