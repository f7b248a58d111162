//! Sets of files, the built-in headers, and texts that get numbers.

use crate::faults::show_fault;
use srcset::{Fault, FileSet, Names, builtin};
use std::alloc::Global;
use test_rows::{Answer, Fields};

/// A set of `count` files `0.c`, `1.c` and so on, each with its name as its bytes.
fn filled(alloc: Global, count: i64, answer: &mut Answer) -> FileSet {
    let mut set = FileSet::new(alloc);
    for number in 0..count {
        let mut name = Answer::new(alloc);
        name.show(&number);
        name.write(b".c");
        add(&mut set, alloc, name.text().unwrap_or(b""), answer);
    }
    set
}

fn add(set: &mut FileSet, alloc: Global, name: &[u8], answer: &mut Answer) {
    let Ok(bytes) = name.to_vec(alloc) else {
        answer.fail();
        return;
    };
    if set
        .add(std::str::from_utf8(name).unwrap_or(""), bytes)
        .is_err()
    {
        answer.fail();
    }
}

/// The result of adding a file of a given number of zeros.
fn added(set: &mut FileSet, alloc: Global, row: &Fields, answer: &mut Answer) -> Result<(), Fault> {
    let size = usize::try_from(row.number(3)).unwrap_or(0);
    match vec![in alloc; 0u8; size] {
        Ok(bytes) => set.add(row.text(2), bytes),
        Err(_) => {
            answer.fail();
            Ok(())
        }
    }
}

fn show_bytes(bytes: Option<&[u8]>, answer: &mut Answer) {
    match bytes {
        Some(bytes) => answer.field(bytes),
        None => answer.write(b"none"),
    }
}

/// `file COUNT NAME SIZE`: the code with which a set of `COUNT` files refuses one more, 0 where it takes it; how many it has then, whether
/// there are none, whether it has this one, and the text that it has as `0.c`.
pub fn file(row: &Fields, answer: &mut Answer) {
    let alloc = answer.alloc();
    let mut set = filled(alloc, row.number(1), answer);
    match added(&mut set, alloc, row, answer) {
        Ok(()) => answer.write(b"0"),
        Err(fault) => answer.show(&fault.code),
    }
    answer.write(b" ");
    answer.show(&set.len());
    answer.write(b" ");
    answer.show(&set.is_empty());
    answer.write(b" ");
    answer.show(&set.contains(row.text(2)));
    answer.write(b" ");
    show_bytes(set.get("0.c"), answer);
}

/// `refused COUNT NAME SIZE`: the line of the fault, and the text that the set has under the name then.
pub fn refused(row: &Fields, answer: &mut Answer) {
    let alloc = answer.alloc();
    let mut set = filled(alloc, row.number(1), answer);
    if let Err(fault) = added(&mut set, alloc, row, answer) {
        show_fault(&fault, answer);
    }
    answer.write(b" ");
    show_bytes(set.get(row.text(2)), answer);
}

/// `header NAME`: the text of a built-in header.
pub fn header(row: &Fields, answer: &mut Answer) {
    show_bytes(builtin(row.text(1)), answer);
}

/// `names TEXT TEXT ..`: whether there is none before, the number that each text but the first gets, the one that it is found by and the
/// text of that; then how many there are, and whether the first text is found, and a text that has this number.
pub fn numbers(row: &Fields, answer: &mut Answer) {
    let mut names = Names::new(answer.alloc());
    answer.show(&names.is_empty());
    for at in 2..row.count() {
        answer.write(b" ");
        entered(&mut names, row.field(at), answer);
    }
    let count = names.len();
    answer.write(b" ");
    answer.show(&count);
    answer.write(b" ");
    answer.show(&names.find(row.field(1)).is_some());
    answer.write(b" ");
    answer.show(&names.text(count).is_some());
}

fn entered(names: &mut Names, text: &[u8], answer: &mut Answer) {
    match names.intern(text) {
        Ok(number) => {
            answer.show(&number);
            answer.write(b":");
            answer.show(&(names.find(text) == Some(number)));
            answer.write(b":");
            show_bytes(names.text(number), answer);
        }
        Err(_) => answer.fail(),
    }
}

/// `many COUNT`: how many of `COUNT` texts get their number, and how many are found by it then.
pub fn many(row: &Fields, answer: &mut Answer) {
    let alloc = answer.alloc();
    let count = usize::try_from(row.number(1)).unwrap_or(0);
    let mut names = Names::new(alloc);
    let mut entered: usize = 0;
    for number in 0..count {
        let name = numbered(alloc, number);
        if names.intern(name.text().unwrap_or(b"")).ok() == Some(number) {
            entered = entered.saturating_add(1);
        }
    }
    answer.show(&entered);
    answer.write(b" ");
    answer.show(&found(alloc, &names, count));
}

fn numbered(alloc: Global, number: usize) -> Answer {
    let mut name = Answer::new(alloc);
    name.write(b"name");
    name.show(&number);
    name
}

fn found(alloc: Global, names: &Names, count: usize) -> usize {
    let mut found: usize = 0;
    for number in 0..count {
        let name = numbered(alloc, number);
        if names.find(name.text().unwrap_or(b"")) == Some(number) {
            found = found.saturating_add(1);
        }
    }
    found
}
