//! The C tokens of texts.

use crate::scanned::{file_names, show_line};
use lexer::{Token, tokens};
use phases::scan;
use srcset::{Fault, MAX_FILE_BYTES, Names};
use std::alloc::Global;
use test_rows::{Answer, Fields};

/// The C tokens of a text, or its fault.
pub fn read(alloc: Global, text: &[u8], names: &mut Names) -> Result<Vec<Token>, Fault> {
    if text.len() > MAX_FILE_BYTES {
        return Ok(Vec::new(alloc));
    }
    match scan(alloc, text, 0, names) {
        Ok(lines) => tokens(alloc, lines.tokens(), names),
        Err(fault) => Err(fault),
    }
}

fn show_tokens(list: &[Token], answer: &mut Answer) {
    for token in list {
        answer.debug(&token.kind);
        answer.write(b"@");
        answer.show(&token.pos.line);
        answer.write(b" ");
    }
}

/// `tokens TEXT`: its tokens, each with its line, and the texts that got numbers, from 1 on; or the line of the fault.
pub fn tokens_of(row: &Fields, answer: &mut Answer) {
    let mut names = file_names(answer.alloc());
    match read(answer.alloc(), row.field(1), &mut names) {
        Ok(list) => {
            show_tokens(list.as_slice(), answer);
            for number in 1..names.len() {
                answer.write(b"\t");
                answer.field(names.text(number).unwrap_or(b""));
            }
        }
        Err(fault) => show_line(&fault, answer),
    }
}
