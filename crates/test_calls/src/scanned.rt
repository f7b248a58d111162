//! The preprocessing tokens of texts.

use phases::{Kind, PpToken, scan};
use srcset::{Fault, MAX_FILE_BYTES, Names, Pos};
use std::alloc::Global;
use std::borrow::CowSlice;
use test_rows::{Answer, Fields};

/// The names, with that of the file as number 0.
pub fn file_names(alloc: Global) -> Names {
    let mut names = Names::new(alloc);
    let _number = names.intern(b"a.c");
    names
}

/// Writes the line of a fault.
pub fn show_line(fault: &Fault, answer: &mut Answer) {
    match fault.to_line(answer.alloc()) {
        Ok(line) => answer.write(line.as_slice()),
        Err(_) => answer.fail(),
    }
}

/// `KIND:SPELLING:LINE`, and `:space` where white space precedes it.
fn show_token(token: &PpToken<'_>, answer: &mut Answer) {
    answer.debug(&token.kind());
    answer.write(b":");
    answer.field(token.spelling());
    answer.write(b":");
    answer.show(&token.pos().line);
    if token.space_before() {
        answer.write(b":space");
    }
}

fn show_copies(line: &[PpToken<'_>], answer: &mut Answer) {
    for token in line {
        match token.copy() {
            Ok(copy) => show_token(&copy, answer),
            Err(_) => answer.fail(),
        }
        answer.write(b" ");
    }
    answer.write(b"\\n");
}

/// `text TEXT`: copies of its tokens, each with a space after it and each line with a newline, or the fault's line.
pub fn text(row: &Fields, answer: &mut Answer) {
    let text = row.field(1);
    if text.len() > MAX_FILE_BYTES {
        return;
    }
    let names = file_names(answer.alloc());
    match scan(answer.alloc(), text, 0, &names) {
        Ok(lines) => {
            for index in 0..lines.len() {
                show_copies(lines.get(index).unwrap_or(&[]), answer);
            }
        }
        Err(fault) => show_line(&fault, answer),
    }
}

/// `lines TEXT`: a token that is made of its parts, how many lines the text has, whether there is one more, and how many tokens
/// it has, lent and taken.
pub fn lines(row: &Fields, answer: &mut Answer) {
    let text = row.field(1);
    if text.len() > MAX_FILE_BYTES {
        return;
    }
    let pos = Pos { file: 1, line: 2 };
    match PpToken::new(Kind::Other, CowSlice::Borrowed(b"@"), true, pos) {
        Ok(token) => {
            show_token(&token, answer);
            answer.write(b" ");
            answer.show(&token.pos().file);
        }
        Err(_) => answer.fail(),
    }
    let names = file_names(answer.alloc());
    if let Ok(lines) = scan(answer.alloc(), text, 0, &names) {
        let count = lines.len();
        answer.write(b" ");
        answer.show(&count);
        answer.write(b" ");
        answer.show(&lines.get(count).is_some());
        answer.write(b" ");
        answer.show(&lines.tokens().len());
        answer.write(b" ");
        answer.show(&lines.into_tokens().len());
    }
}
